//! Flushes of a queue whose items bring values, and what each way of queueing there answers where it is refused.
use super::drops::{alive, share};
use super::reading::{close, drain, execute_one, given_back, queue_once, resume, seats};
use crate::expect::expect_same;
use crate::seats::{QUEUED, WAKES};
use std::process::Abort;
use std::sync::{Arc, Wait};
use std::thread::{join, sleep};
use std::time::{Clock, Duration};
use wq_live::Answer;
use wq_values::{ValueOwner, ValueSender};

/// The items of the queue that is flushed, behind whose numbers its barrier's stands.
const ITEMS: u32 = 16;

/// Queues barrier 0 and waits where it was queued.
fn flush<R: Abort + Wait, V: Drop>(rt: &R, sender: &mut ValueSender<V>) -> Answer {
    assert!(rt; 0 < sender.layout().barriers);
    sender.flush(rt, 0)
}

fn flush_once<R: Abort, V: Drop>(rt: &R, sender: &mut ValueSender<V>) -> Answer {
    assert!(rt; 0 < sender.layout().barriers);
    sender.flush_begin(0, 1)
}

/// Flushes, and looks then how many values are left of those that were queued before. Where the barrier is not queued nobody would
/// execute it, so the test ends here.
fn flush_and_look<R: Abort + Wait>(
    rt: &R,
    sender: &mut ValueSender<Arc<u32>>,
    shared: &Arc<u32>,
) -> usize {
    let answer = flush(rt, sender);
    let left = alive(shared);
    assert!(rt; matches!(answer, Answer::Queued { .. }));
    left
}

/// Executes until this number was executed, with a pause before each, and drops what it was handed. How many executions that were.
fn execute_late<R: Clock + Wait, V: Drop>(rt: &R, owner: &mut ValueOwner<V>, last: u32) -> u32 {
    let mut executed = 0u32;
    for _ in rt.forever() {
        sleep(rt, Duration::from_millis(2));
        if let Some((number, value)) = execute_one(owner) {
            drop(value);
            executed = executed.wrapping_add(1);
            if number == last {
                return executed;
            }
        }
    }
    unreachable!()
}

/// A flush returns once all that was queued before it has ended: by then the owner has dropped each value.
#[test]
fn flush_waits_for_the_values_before_it(rt: HostRuntime) {
    let (mut owner, mut sender) = seats(&rt, rt.alloc(), ITEMS);
    let shared = Arc::new(rt.alloc(), 7u32).expect(&rt, "a value");
    for item in 0..ITEMS {
        let (_, back) = queue_once(&mut sender, item, share(&rt, &shared));
        assert!(rt; back.is_none(), "item {item}");
    }
    expect_same(&rt, alive(&shared), 16);
    let (left, executed) = join(
        &rt,
        || flush_and_look(&rt, &mut sender, &shared),
        || execute_late(&rt, &mut owner, ITEMS),
    );
    expect_same(&rt, (left, executed), (0, ITEMS.wrapping_add(1)));
    drop(sender);
    drop(owner);
}

/// Each way of queueing but `queue_value` gives this answer, and none waits.
fn expect_refused<R: Abort + Wait>(rt: &R, sender: &mut ValueSender<u64>, wanted: Answer) {
    expect_same(rt, flush(rt, sender), wanted);
    expect_same(rt, flush_once(rt, sender), wanted);
    expect_same(rt, sender.request_stop(1), wanted);
    assert!(rt; 0 < sender.layout().items);
    let (answer, back) = given_back(sender.queue_value_wait(rt, 0, 7));
    expect_same(rt, (answer, back), (wanted, Some(7)));
}

/// A flush that is refused does not wait, and neither does another call, on a queue where nobody executes meanwhile.
#[test]
fn refused_flush_does_not_wait(rt: HostRuntime) {
    let (mut owner, mut sender) = seats::<_, u64>(&rt, rt.alloc(), 4);
    expect_same(&rt, sender.request_stop(1), WAKES);
    expect_same(&rt, flush_once(&rt, &mut sender), QUEUED);
    let queued = queue_once(&mut sender, 0, 70);
    expect_same(&rt, queued, (Some(QUEUED), None));
    expect_refused(&rt, &mut sender, Answer::Pending);
    expect_same(&rt, drain(&mut owner), Some(3));
    for &executed in &[(5u32, None), (4, None), (0, Some(70))] {
        expect_same(&rt, execute_one(&mut owner), Some(executed));
    }
    expect_refused(&rt, &mut sender, Answer::Draining);
    expect_same(&rt, resume(&mut owner), true);
    expect_same(&rt, close(&mut owner), Some(0));
    expect_refused(&rt, &mut sender, Answer::Closed);
    let counts = sender.counts();
    expect_same(
        &rt,
        (counts.pending, counts.draining, counts.closed),
        (4, 4, 4),
    );
    drop(sender);
    drop(owner);
}
