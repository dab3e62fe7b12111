//! A seat that stops within a drain: a sender that holds an item, an owner that is gone, and a thread that waits until the drain
//! of the others has come to its end.
use super::super::reading::{begin, chain, close, drain, end, execute_one, resume};
use super::super::steps::Act::{Begin, Close, Drain, Execute};
use super::super::steps::Ask::{FlushWait, Post, Queue, QueueWait};
use super::super::steps::Step::{self, Ask, Done as Ends, Own, Resume};
use super::super::steps::{Asked, ask_all, new_seats, play};
use super::{Others, hold, queue_and_execute, queue_beside_owner, stop_at};
use crate::expect::expect_same;
use crate::latch::Latch;
use crate::seats::{FIRST, QUEUED, WAKES, queue_once, seats};
use std::process::Abort;
use std::thread::Threads;
use wq_live::{Answer, Done, Owner, Sender};

/// Another sender holds item 2 when the drain begins.
const HELD: &[Step] = &[Ask(0, Queue(0), WAKES), Own(Drain, Some(1))];

/// It is gone within the drain.
const GONE: &[Step] = &[
    Ask(0, Queue(2), Answer::Pending),
    Ask(0, Queue(1), Answer::Draining),
    Resume(false),
    Own(Execute, Some(0)),
    Resume(true),
    Ask(0, Queue(2), Answer::Pending),
    Ask(0, Queue(1), FIRST),
    Own(Execute, Some(1)),
    Own(Close, Some(0)),
    Ends(Some(2)),
];

/// A sender that holds an item when the drain begins, and is gone within it, stands in the way of no resume. Its item stays
/// pending.
#[test]
fn sender_stops_with_an_item(rt: HostRuntime) {
    let (mut owner, mut senders) = new_seats(&rt, rt.alloc(), 1);
    let mut holder = senders.pop().expect(&rt, "a sender");
    assert!(rt; hold(&mut holder, 2));
    play(&rt, &mut owner, &mut senders, HELD);
    drop(holder);
    play(&rt, &mut owner, &mut senders, GONE);
}

/// An owner has begun the first of two.
const BEGUN: &[Step] = &[
    Ask(0, Queue(0), WAKES),
    Ask(0, Queue(1), QUEUED),
    Own(Drain, Some(2)),
    Own(Begin, Some(0)),
];

/// It is gone.
const LEFT: &[Asked] = &[
    (0, Queue(0), Answer::Draining),
    (1, Queue(1), Answer::Pending),
    (1, QueueWait(2), Answer::Draining),
    (1, FlushWait(0), Answer::Draining),
    (0, Post(3), Answer::Draining),
];

/// An owner that is gone within a drain leaves the queue draining for ever: each queueing is answered so, also those that may
/// wait, and what it had taken stays pending.
#[test]
fn owner_stops_with_a_batch(rt: HostRuntime) {
    let (mut owner, mut senders) = new_seats(&rt, rt.alloc(), 1);
    play(&rt, &mut owner, &mut senders, BEGUN);
    drop(owner);
    for _ in 0..2u32 {
        ask_all(&rt, &mut senders, LEFT);
    }
}

/// Executes what waits, and ends the drain.
fn end_drain<R: Abort>(rt: &R, owner: &mut Owner) -> u32 {
    let mut executed = 0u32;
    for _ in 0..u32::MAX {
        if execute_one(owner).is_none() {
            break;
        }
        executed = executed.saturating_add(1);
    }
    expect_same(rt, resume(owner), true);
    executed
}

/// The owner drains what was queued and resumes, the other queues item 0 and its own items beside the owner, who executes them and
/// drains again.
pub(super) fn drain_all<R: Abort + Threads + Sync>(
    rt: &R,
    owner: &mut Owner,
    sender: &mut Sender,
) -> Others {
    let drained = drain(owner);
    let within = queue_once(sender, 0);
    let before = end_drain(rt, owner);
    let first = queue_once(sender, 0);
    let (queued, executed) = queue_and_execute(rt, owner, sender);
    let left = drain(owner);
    Others {
        drained,
        within,
        first,
        queued,
        executed: before.saturating_add(executed),
        left,
        ended: None,
        is_drained: owner.drained(),
    }
}

/// How many the drain takes where a sender stops at each place, what the other is answered within it and after it, and what the sender
/// is answered of its first two. The queue drains for its third.
const PLACES: &[(u32, u32, Answer, Answer, Answer, Answer)] = &[
    (
        0,
        0,
        Answer::Draining,
        FIRST,
        Answer::Draining,
        Answer::Draining,
    ),
    (
        1,
        0,
        Answer::Pending,
        Answer::Pending,
        Answer::Draining,
        Answer::Draining,
    ),
    (2, 1, Answer::Pending, FIRST, WAKES, Answer::Draining),
    (3, 2, Answer::Pending, FIRST, WAKES, QUEUED),
];

/// A sender stops at each place: before its hold, with an item held, with a push that nobody was woken for, and between two
/// queueings. A whole drain of the others comes to its end before it goes on, and it finds the queue in a second drain.
#[test]
fn others_drain_while_a_sender_stops(rt: HostRuntime) {
    for &(place, drained, within, after, one, two) in PLACES {
        let own = if after == FIRST { 65u32 } else { 64 };
        let others = Others {
            drained: Some(drained),
            within: Some(within),
            first: Some(after),
            queued: 64,
            executed: own.saturating_add(drained),
            left: Some(0),
            ended: None,
            is_drained: true,
        };
        let said = stop_at(&rt, rt.alloc(), place, true);
        let wanted = (Some(others), Some([one, two, Answer::Draining]));
        expect_same(&rt, (place, said), (place, wanted));
    }
}

/// Drains what was queued and begins it, stops, and then chains an item, executes the rest and resumes. How many numbers those
/// are.
pub(super) fn drain_and_stop<R: Abort>(rt: &R, owner: &mut Owner, latch: &Latch) -> Option<u32> {
    expect_same(rt, drain(owner), Some(2));
    let number = begin(owner);
    if number != Some(0) || !latch.stop() {
        return None;
    }
    expect_same(rt, chain(owner, 2), Some(QUEUED));
    expect_same(rt, end(owner), number);
    Some(end_drain(rt, owner))
}

/// What is queued after the drain is queued, and executed.
fn check_end<R: Abort>(rt: &R, owner: &mut Owner, sender: &mut Sender) {
    expect_same(rt, queue_once(sender, 8), Some(FIRST));
    expect_same(rt, close(owner), Some(1));
    expect_same(rt, execute_one(owner), Some(8));
    expect_same(rt, owner.done(), Some(Done { ended: 4 }));
}

/// The owner stops within a drain, while an item runs and another waits. Both senders come to their ends before it goes on, with
/// nothing queued. It ends the drain, and what they queue then is queued.
#[test]
fn senders_end_while_the_owner_stops(rt: HostRuntime) {
    let (mut owner, mut first, mut second) = seats(&rt, rt.alloc(), 72, 1);
    let said = queue_beside_owner(&rt, &mut owner, &mut first, &mut second, true);
    let answers = Some((Answer::Draining, Answer::Pending, 0, 0));
    expect_same(&rt, said, (answers, Some(2)));
    check_end(&rt, &mut owner, &mut first);
}
