//! The calls of a pool that pass a queue on leave each queue as it is: what was queued waits, and the queue is open. So does a
//! `finish` that finds a queue out with those behind it.
ghost use Rattle.wq_ready.specs.Known.{IsCallerOf};

use crate::expect::expect_same;
use crate::pool::rows::check_ended;
use crate::pool::team::{Logging, QUEUED, WAKES, filled, finish_out, new_pool, queue_item, work};
use std::alloc::Global;
use std::process::Abort;
use wq_live::{Answer, Sender};
use wq_pool::{Caller, NoGate, Pool};

/// A pool of two queues, on each of which item 0 waits, a caller of it, and the senders of the queues.
fn two_waiting<R: Abort>(rt: &R, alloc: Global) -> (Pool<Logging>, Caller, [Sender; 2])
    ensures { IsCallerOf result.0.ready result.1 }
{
    let (zero, first) = filled(rt, alloc, 1);
    let (one, second) = filled(rt, alloc, 1);
    let queues = Vec::from_array(alloc, [zero, one]).expect(rt, "memory");
    let (pool, caller) = new_pool(rt, alloc, queues);
    (pool, caller, [first, second])
}

/// Nothing of either queue was taken, and both are open: item 0 has not begun, and the next one comes behind what waits.
fn expect_waiting<R: Abort>(rt: &R, senders: &mut [Sender], next: u32) {
    for sender in senders.iter_mut() {
        expect_same(
            rt,
            (next, queue_item(rt, sender, 0)),
            (next, Answer::Pending),
        );
        expect_same(rt, (next, queue_item(rt, sender, next)), (next, QUEUED));
    }
}

/// An announcement executes, closes and loses nothing, and neither does a wake, whether the answer wakes or not.
#[test]
fn announced_queues_wait(rt: HostRuntime) {
    let (pool, mut caller, mut senders) = two_waiting(&rt, rt.alloc());
    pool.announce(&rt, &mut caller, 0).expect(&rt, "room");
    expect_waiting(&rt, senders.as_mut_slice(), 1);
    pool.wake(&rt, &mut caller, 1, WAKES).expect(&rt, "a queue");
    expect_waiting(&rt, senders.as_mut_slice(), 2);
    pool.wake(&rt, &mut caller, 0, QUEUED)
        .expect(&rt, "a queue");
    expect_waiting(&rt, senders.as_mut_slice(), 3);
    check_ended(&rt, pool, 4, &[0, 1, 2, 3], &[0, 1, 2, 3]);
    drop(senders);
    drop(caller);
}

/// A pick executes and closes nothing. Neither does what puts the queue back, though an item was queued after its work.
#[test]
fn picked_and_put_back_queue_waits(rt: HostRuntime) {
    let (pool, mut caller, mut senders) = two_waiting(&rt, rt.alloc());
    pool.announce(&rt, &mut caller, 0).expect(&rt, "room");
    let turn = pool.pick(&rt, &mut caller).expect(&rt, "a turn");
    expect_waiting(&rt, senders.as_mut_slice(), 1);
    let worked = work(&rt, turn, 9, &NoGate);
    expect_same(&rt, queue_item(&rt, &mut senders[0], 0), WAKES);
    pool.put_back(&mut caller, worked);
    expect_waiting(&rt, senders.as_mut_slice(), 2);
    check_ended(&rt, pool, 3, &[0, 1, 0, 2], &[0, 1, 2]);
    drop(senders);
    drop(caller);
}

/// A queue in hand, and the one behind it, are as they were before a `finish` that finds the first out.
#[test]
fn queue_behind_one_that_is_out_waits(rt: HostRuntime) {
    let (pool, mut caller, mut senders) = two_waiting(&rt, rt.alloc());
    pool.announce(&rt, &mut caller, 0).expect(&rt, "room");
    let turn = pool.pick(&rt, &mut caller).expect(&rt, "a turn");
    let pool = finish_out(&rt, pool, 9, 0);
    expect_waiting(&rt, senders.as_mut_slice(), 1);
    let worked = work(&rt, turn, 9, &NoGate);
    pool.put_back(&mut caller, worked);
    check_ended(&rt, pool, 2, &[0, 1], &[0, 1]);
    drop(senders);
    drop(caller);
}
