//! Each value is dropped once: as it was executed, came back, or with the last seat that had it.
use super::reading::{begin, chain, close, end, execute_one, queue_once, seats, take};
use crate::expect::expect_same;
use std::alloc::Global;
use std::process::Abort;
use std::sync::Arc;
use wq_live::Answer;
use wq_values::{ValueOwner, ValueSender};

/// One more value that shares this one, which counts them.
pub(super) fn share<R: Abort>(rt: &R, shared: &Arc<u32>) -> Arc<u32> {
    match Arc::try_clone(shared) {
        Ok(value) => value,
        Err(_) => panic!(rt; "too many"),
    }
}

/// How many values are there beside the one that is asked.
pub(super) fn alive(shared: &Arc<u32>) -> usize {
    Arc::strong_count(shared).wrapping_sub(1)
}

/// Queues so many items, each with a value.
fn queue_each<R: Abort>(rt: &R, sender: &mut ValueSender<Arc<u32>>, count: u32, shared: &Arc<u32>) {
    for item in 0..count {
        let (_, back) = queue_once(sender, item, share(rt, shared));
        assert!(rt; back.is_none(), "item {item}");
    }
}

/// A queue of 4 items, and a value that counts those that share it.
fn start<R: Abort>(
    rt: &R,
    alloc: Global,
) -> (ValueOwner<Arc<u32>>, ValueSender<Arc<u32>>, Arc<u32>) {
    let (owner, sender) = seats(rt, alloc, 4);
    let shared = Arc::new(alloc, 7u32).expect(rt, "a value");
    (owner, sender, shared)
}

/// A value lives until the execution that was handed it drops it, and one that is refused until its caller does.
#[test]
fn executed_and_refused_values_are_dropped_once(rt: HostRuntime) {
    let (mut owner, mut sender, shared) = start(&rt, rt.alloc());
    queue_each(&rt, &mut sender, 3, &shared);
    expect_same(&rt, alive(&shared), 3);
    let (answer, back) = queue_once(&mut sender, 0, share(&rt, &shared));
    expect_same(&rt, (answer, alive(&shared)), (Some(Answer::Pending), 4));
    drop(back);
    expect_same(&rt, alive(&shared), 3);
    for &left in &[2usize, 1, 0] {
        let executed = execute_one(&mut owner);
        expect_same(&rt, alive(&shared), left.wrapping_add(1));
        drop(executed);
        expect_same(&rt, alive(&shared), left);
    }
    expect_same(&rt, close(&mut owner), Some(0));
    let (answer, back) = queue_once(&mut sender, 1, share(&rt, &shared));
    expect_same(&rt, (answer, alive(&shared)), (Some(Answer::Closed), 1));
    drop(back);
    drop(owner);
    drop(sender);
    expect_same(&rt, alive(&shared), 0);
}

/// What is on the list, in the batch, or chained when all seats have gone is dropped once, with the last of them.
#[test]
fn values_that_never_begin_are_dropped_with_the_queue(rt: HostRuntime) {
    let (mut owner, mut sender, shared) = start(&rt, rt.alloc());
    queue_each(&rt, &mut sender, 2, &shared);
    expect_same(&rt, take(&mut owner), Some(2));
    expect_same(&rt, begin(&mut owner).is_some(), true);
    expect_same(&rt, alive(&shared), 1);
    expect_same(&rt, close(&mut owner), Some(0));
    let (_, back) = chain(&mut owner, 3, share(&rt, &shared));
    expect_same(&rt, (back.is_none(), alive(&shared)), (true, 2));
    drop(owner);
    drop(sender);
    expect_same(&rt, alive(&shared), 0);
}

/// An owner that never took: what was queued goes with the sender, the last seat.
#[test]
fn values_that_were_never_taken_are_dropped_with_the_queue(rt: HostRuntime) {
    let (owner, mut sender, shared) = start(&rt, rt.alloc());
    queue_each(&rt, &mut sender, 4, &shared);
    drop(owner);
    expect_same(&rt, alive(&shared), 4);
    drop(sender);
    expect_same(&rt, alive(&shared), 0);
}

/// A sender that stops leaves the values of what it queued, and the owner executes them.
#[test]
fn sender_stops_and_its_values_are_executed(rt: HostRuntime) {
    let (mut owner, mut sender, shared) = start(&rt, rt.alloc());
    queue_each(&rt, &mut sender, 4, &shared);
    drop(sender);
    expect_same(&rt, take(&mut owner), Some(4));
    for &left in &[3usize, 2, 1, 0] {
        let begun = begin(&mut owner);
        expect_same(
            &rt,
            (begun.is_some(), alive(&shared)),
            (true, left.wrapping_add(1)),
        );
        drop(begun);
        expect_same(
            &rt,
            (end(&mut owner).is_some(), alive(&shared)),
            (true, left),
        );
    }
    drop(owner);
}
