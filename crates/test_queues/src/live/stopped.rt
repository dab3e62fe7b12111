//! A seat that stops stands in the way of no other: an owner that took, a sender that holds, and a thread that waits between two
//! calls until all others have come to their ends.
mod draining;

use super::reading::{begin, close, end, execute_one, take};
use super::steps::Act::Take;
use super::steps::Ask::Queue;
use super::steps::Step::{self, Ask, Own};
use super::steps::{Asked, as_answer, ask_all, new_seats, play};
use crate::expect::expect_same;
use crate::latch::Latch;
use crate::seats::{
    FIRST, QUEUED, WAKES, queue_all, queue_halves, queue_once, queue_settled, seats,
};
use std::alloc::Global;
use std::process::Abort;
use std::thread::{Threads, join, yield_now};
use wq_live::{Answer, Done, Owner, Sender};

/// Sets an item's PENDING bit, and whether it was clear.
fn hold(sender: &mut Sender, item: u32) -> bool {
    item < sender.layout().items && sender.hold(item)
}

/// An owner takes two.
const TAKEN: &[Step] = &[
    Ask(0, Queue(0), WAKES),
    Ask(0, Queue(1), QUEUED),
    Own(Take, Some(2)),
];

/// It is gone.
const LEFT: &[Asked] = &[
    (0, Queue(0), Answer::Pending),
    (1, Queue(0), Answer::Pending),
    (0, Queue(2), FIRST),
    (1, Queue(2), Answer::Pending),
    (0, Queue(3), QUEUED),
    (1, Queue(3), Answer::Pending),
    (0, Queue(1), Answer::Pending),
    (1, Queue(1), Answer::Pending),
];

/// What an owner took stays pending when it stops, and all else is queued.
#[test]
fn owner_stops_with_a_batch(rt: HostRuntime) {
    let (mut owner, mut senders) = new_seats(&rt, rt.alloc(), 1);
    play(&rt, &mut owner, &mut senders, TAKEN);
    drop(owner);
    ask_all(&rt, &mut senders, LEFT);
    drop(senders);
}

/// What a sender held stays pending when it stops, and the queue is closed and run to its end.
#[test]
fn sender_stops_with_an_item(rt: HostRuntime) {
    let (mut owner, mut first, mut second) = seats(&rt, rt.alloc(), 4, 1);
    assert!(rt; hold(&mut first, 2));
    drop(first);
    expect_same(&rt, queue_once(&mut second, 2), Some(Answer::Pending));
    expect_same(&rt, close(&mut owner), Some(0));
    expect_same(&rt, owner.done(), Some(Done { ended: 0 }));
    drop(owner);
    drop(second);
}

/// Executes what comes until all that is to come was queued, and answers how many that were.
fn execute_all(owner: &mut Owner, ended: &Latch) -> u32 {
    let mut executed = 0u32;
    for _ in 0..u32::MAX {
        let is_last = ended.is_open();
        match execute_one(owner) {
            Some(_) => executed = executed.saturating_add(1),
            None if is_last => break,
            None => yield_now(),
        }
    }
    executed
}

/// Holds and posts item 0, and queues items 1 and 2. It stops once on the way, at the place of this number. What it was answered;
/// none where the latch was not opened.
fn queue_in_steps(sender: &mut Sender, place: u32, latch: &Latch) -> Option<[Answer; 3]> {
    if place == 0 && !latch.stop() {
        return None;
    }
    if 0 == sender.layout().items || !sender.hold(0) {
        return None;
    }
    if place == 1 && !latch.stop() {
        return None;
    }
    let posted = as_answer(sender.post(0, u32::MAX));
    if place == 2 && !latch.stop() {
        return None;
    }
    let second = queue_settled(sender, 1)?;
    if place == 3 && !latch.stop() {
        return None;
    }
    Some([posted, second, queue_settled(sender, 2)?])
}

/// What the others come to while a sender is stopped.
#[derive(Clone, Copy, Debug, PartialEq, Eq)]
struct Others {
    /// How many a drain took, and what the queueing of item 0 was answered within it.
    drained: Option<u32>,
    within: Option<Answer>,
    /// What the queueing of item 0 is answered.
    first: Option<Answer>,
    /// How many items of its own the second sender queues.
    queued: u32,
    executed: u32,
    /// How many are left for the close, or a second drain.
    left: Option<u32>,
    /// How many have ended by the close.
    ended: Option<u64>,
    /// Whether a second drain is at its end.
    is_drained: bool,
}

/// Queues items, each once, and says that they are all.
fn queue_last(sender: &mut Sender, from: u32, to: u32, ended: &Latch) -> u32 {
    let queued = queue_all(sender, from, to);
    ended.open();
    queued
}

/// A sender queues its own items, beside the owner, who executes them. How many were queued, and how many executed.
fn queue_and_execute<R: Threads + Sync>(
    rt: &R,
    owner: &mut Owner,
    sender: &mut Sender,
) -> (u32, u32) {
    let ended = Latch::new();
    join(
        rt,
        || queue_last(sender, 8, 72, &ended),
        || execute_all(owner, &ended),
    )
}

/// The other sender queues item 0 and its own items, beside the owner, who executes them and closes the queue.
fn end_all<R: Threads + Sync>(rt: &R, owner: &mut Owner, sender: &mut Sender) -> Others {
    let first = queue_once(sender, 0);
    let (queued, executed) = queue_and_execute(rt, owner, sender);
    let left = close(owner);
    let ended = match owner.done() {
        Some(done) => Some(done.ended),
        None => None,
    };
    Others {
        drained: None,
        within: None,
        first,
        queued,
        executed,
        left,
        ended,
        is_drained: false,
    }
}

/// Once a sender has stopped, the others come to their ends, with a drain first or without one.
fn end_beside<R: Abort + Threads + Sync>(
    rt: &R,
    owner: &mut Owner,
    sender: &mut Sender,
    latch: &Latch,
    drains: bool,
) -> Option<Others> {
    if !latch.meet() {
        return None;
    }
    let others = if drains {
        draining::drain_all(rt, owner, sender)
    } else {
        end_all(rt, owner, sender)
    };
    latch.open();
    Some(others)
}

/// What the others come to, and what a sender is answered that stops.
type Said = (Option<Others>, Option<[Answer; 3]>);

/// Runs the others beside a sender that stops at this place.
fn stop_at<R: Abort + Threads + Sync>(rt: &R, alloc: Global, place: u32, drains: bool) -> Said {
    let (mut owner, mut stopped, mut other) = seats(rt, alloc, 72, 1);
    let latch = Latch::new();
    join(
        rt,
        || end_beside(rt, &mut owner, &mut other, &latch, drains),
        || queue_in_steps(&mut stopped, place, &latch),
    )
}

/// What the other is answered where a sender stops at each place, how many are accepted, and what the sender is answered of its first
/// two. The queue is closed for its third.
const PLACES: &[(u32, Answer, u32, Answer, Answer)] = &[
    (0, WAKES, 65, Answer::Closed, Answer::Closed),
    (1, Answer::Pending, 64, Answer::Closed, Answer::Closed),
    (2, Answer::Pending, 65, WAKES, Answer::Closed),
    (3, Answer::Pending, 66, WAKES, QUEUED),
];

/// A sender stops at each place: before its hold, with an item held, with a push that nobody was woken for, and between two
/// queueings. The other and the owner come to their ends before it goes on, and it finds the queue closed.
#[test]
fn others_end_while_a_sender_stops(rt: HostRuntime) {
    for &(place, first, accepted, one, two) in PLACES {
        let others = Others {
            drained: None,
            within: None,
            first: Some(first),
            queued: 64,
            executed: accepted,
            left: Some(0),
            ended: Some(u64::from(accepted)),
            is_drained: false,
        };
        let said = stop_at(&rt, rt.alloc(), place, false);
        let wanted = (Some(others), Some([one, two, Answer::Closed]));
        expect_same(&rt, (place, said), (place, wanted));
    }
}

/// Takes what was queued and begins it, stops, and then executes the rest. How many numbers those are.
fn execute_and_stop(owner: &mut Owner, latch: &Latch) -> Option<u32> {
    take(owner);
    let number = begin(owner);
    if number != Some(0) || !latch.stop() || end(owner) != number {
        return None;
    }
    Some(execute_all(owner, latch))
}

/// Once the owner has stopped, both senders queue what runs, what it has taken, and their own items. Of the last it says how many
/// were queued.
fn queue_beside<R: Threads + Sync>(
    rt: &R,
    first: &mut Sender,
    second: &mut Sender,
    latch: &Latch,
) -> Option<(Answer, Answer, u32, u32)> {
    if !latch.meet() {
        return None;
    }
    let running = queue_once(first, 0)?;
    let taken = queue_once(second, 1)?;
    let (one, other) = queue_halves(rt, first, second, 8, 32);
    latch.open();
    Some((running, taken, one, other))
}

/// What the owner executes once it goes on, with a drain or without one.
fn stop_owner<R: Abort>(rt: &R, owner: &mut Owner, latch: &Latch, drains: bool) -> Option<u32> {
    if drains {
        return draining::drain_and_stop(rt, owner, latch);
    }
    execute_and_stop(owner, latch)
}

/// Both senders queue beside an owner that stops, with item 0 and item 1 queued before. What they were answered, and how many numbers it
/// executed once it went on.
fn queue_beside_owner<R: Abort + Threads + Sync>(
    rt: &R,
    owner: &mut Owner,
    first: &mut Sender,
    second: &mut Sender,
    drains: bool,
) -> (Option<(Answer, Answer, u32, u32)>, Option<u32>) {
    expect_same(rt, queue_once(first, 0), Some(WAKES));
    expect_same(rt, queue_once(second, 1), Some(QUEUED));
    let latch = Latch::new();
    join(
        rt,
        || queue_beside(rt, first, second, &latch),
        || stop_owner(rt, owner, &latch, drains),
    )
}

/// The owner stops while an item runs and another is taken. Both senders come to their ends before it goes on, and it executes all
/// that they queued.
#[test]
fn senders_end_while_the_owner_stops(rt: HostRuntime) {
    let (mut owner, mut first, mut second) = seats(&rt, rt.alloc(), 72, 1);
    let said = queue_beside_owner(&rt, &mut owner, &mut first, &mut second, false);
    let answers = Some((FIRST, Answer::Pending, 32, 32));
    expect_same(&rt, said, (answers, Some(66)));
    expect_same(&rt, close(&mut owner), Some(0));
    expect_same(&rt, owner.done(), Some(Done { ended: 67 }));
    drop(second);
    drop(first);
    drop(owner);
}
