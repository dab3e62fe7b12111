//! The seats of a queue with two senders, and their calls where they are allowed.
ghost use Rattle.std.specs.Prelude.{◌≡◌, [], ℕ};
ghost use Rattle.wq_words.specs.History.{Holds};

use crate::live::reading::execute_one;
use std::alloc::Global;
use std::hint::spin_loop;
use std::process::Abort;
use std::thread::{Threads, join};
use wq_live::{Answer, Owner, Sender, build};
use wq_words::Layout;

/// The answers of a queueing behind others, of the first that the owner is not to be woken for, and of one that it is.
pub(crate) const QUEUED: Answer = Answer::Queued {
    first: false,
    wakes: false,
};

pub(crate) const FIRST: Answer = Answer::Queued {
    first: true,
    wakes: false,
};

pub(crate) const WAKES: Answer = Answer::Queued {
    first: true,
    wakes: true,
};

/// The owner and the two senders of a new queue of so many items and barriers. The second sender holds nothing.
pub(crate) fn seats<R: Abort>(
    rt: &R,
    alloc: Global,
    items: u32,
    barriers: u32,
) -> (Owner, Sender, Sender)
    ensures first { result.1.queue ≡ result.0.queue }
    ensures second { result.2.queue ≡ result.0.queue }
    ensures free { (k : ℕ) → ¬ Holds result.2.seen result.2.number k }
{
    let layout = Layout::new(items, barriers, 2).expect(rt, "a layout");
    let (owner, mut senders) = build(alloc, layout).expect(rt, "memory for a queue");
    let second = senders.pop().expect(rt, "sender 1");
    let first = senders.pop().expect(rt, "sender 0");
    drop(senders);
    (owner, first, second)
}

/// The owner and the one sender of a new queue of so many items and one barrier.
pub(crate) fn two_seats<R: Abort>(rt: &R, alloc: Global, items: u32) -> (Owner, Sender)
    ensures one { result.1.queue ≡ result.0.queue }
    ensures new { result.0.seen ≡ [] }
{
    let layout = Layout::new(items, 1, 1).expect(rt, "a layout");
    let (owner, mut senders) = build(alloc, layout).expect(rt, "memory for a queue");
    let sender = senders.pop().expect(rt, "a sender");
    drop(senders);
    (owner, sender)
}

/// Queues an item in one try.
pub(crate) fn queue_once(sender: &mut Sender, item: u32) -> Option<Answer>
    ensures { sender.new.queue ≡ sender.old.queue }
{
    if item < sender.layout().items {
        Some(sender.queue_tries(item, 1))
    } else {
        None
    }
}

/// Queues an item of the queue in one try.
pub(crate) fn queue_item<R: Abort>(rt: &R, sender: &mut Sender, item: u32) -> Answer
    ensures { sender.new.queue ≡ sender.old.queue }
{
    assert!(rt; item < sender.layout().items);
    sender.queue_tries(item, 1)
}

/// Queues an item, in as many tries as a test may take.
pub(crate) fn queue_settled(sender: &mut Sender, item: u32) -> Option<Answer> {
    if item < sender.layout().items {
        Some(sender.queue_tries(item, u32::MAX))
    } else {
        None
    }
}

/// Queues an item in 1,000 tries, and again where it was contended, at most 1,000 times. Whether it was queued.
fn queue_tried(sender: &mut Sender, item: u32) -> bool {
    for _ in 0..1000u32 {
        if item >= sender.layout().items {
            return false;
        }
        match sender.queue_tries(item, 1000) {
            Answer::Queued { .. } => return true,
            Answer::Contended => {}
            Answer::Pending | Answer::Closed | Answer::Draining => return false,
        }
    }
    false
}

/// Queues items in order, each once. How many were queued.
pub(crate) fn queue_all(sender: &mut Sender, from: u32, to: u32) -> u32 {
    let mut queued = 0u32;
    for item in from..to {
        if queue_tried(sender, item) {
            queued = queued.saturating_add(1);
        }
    }
    queued
}

/// Two threads queue a half of the items each, from this one on. How many each of them queued.
pub(crate) fn queue_halves<R: Threads + Sync>(
    rt: &R,
    first: &mut Sender,
    second: &mut Sender,
    from: u32,
    half: u32,
) -> (u32, u32) {
    let middle = from.wrapping_add(half);
    join(
        rt,
        || queue_all(first, from, middle),
        || queue_all(second, middle, middle.wrapping_add(half)),
    )
}

/// Queues the first item and executes what waits, over and over, until the last number was executed.
pub(crate) fn churn(owner: &mut Owner, sender: &mut Sender, last: u32) -> bool {
    for _ in 0..u32::MAX {
        queue_once(sender, 0);
        if execute_one(owner) == Some(last) {
            return true;
        }
    }
    false
}

/// Time for the other thread, without which all is pending.
pub(crate) fn pause() {
    for _ in 0..32u32 {
        spin_loop();
    }
}
