//! What each way of queueing answers of a number that is pending, and on a queue that is closed or drains.
ghost use Rattle.std.specs.Prelude.{◌≡◌, ◌<◌, IsTrue};
ghost use Rattle.wq_live.specs.Laws.{WasPending};

use super::super::steps::Act::{Begin, Close, Drain, End, Execute};
use super::super::steps::Ask::{Flush, FlushWait, Post, Queue, QueueWait, Stop};
use super::super::steps::Step::{self, Ask, Counts, Own, Resume};
use super::super::steps::play_new;
use crate::expect::expect_same;
use crate::seats::{FIRST, QUEUED, WAKES, queue_once, seats};
use wq_live::{Answer, Sender, SenderCounts, pending_was_pending};

/// Each way of queueing finds the number pending, and then the queue closed.
const PENDING_AND_CLOSED: &[Step] = &[
    Ask(0, Stop, WAKES),
    Ask(0, Queue(0), QUEUED),
    Ask(0, Flush(0), QUEUED),
    Ask(1, Stop, Answer::Pending),
    Ask(1, Queue(0), Answer::Pending),
    Ask(1, QueueWait(0), Answer::Pending),
    Ask(1, Flush(0), Answer::Pending),
    Ask(1, FlushWait(0), Answer::Pending),
    Ask(1, Post(0), Answer::Pending),
    Own(Close, Some(3)),
    Own(Execute, Some(6)),
    Ask(1, Stop, Answer::Closed),
    Ask(1, Queue(1), Answer::Closed),
    Ask(1, QueueWait(1), Answer::Closed),
    Ask(1, Flush(1), Answer::Closed),
    Ask(1, FlushWait(1), Answer::Closed),
    Ask(1, Post(1), Answer::Closed),
];

#[test]
fn pending_and_closed(rt: HostRuntime) {
    play_new(&rt, rt.alloc(), PENDING_AND_CLOSED);
}

/// Whether a queueing found the item pending, which it was then.
fn finds_pending(sender: &mut Sender, item: u32) -> bool
    requires { item < sender.old.layout.items }
    ensures { IsTrue result → WasPending item sender.old.seen sender.new.seen }
{
    pending_was_pending();
    matches!(sender.queue_tries(item, 1), Answer::Pending)
}

#[test]
fn what_another_queued_is_pending(rt: HostRuntime) {
    let (owner, mut first, mut second) = seats(&rt, rt.alloc(), 4, 1);
    expect_same(&rt, queue_once(&mut first, 2), Some(WAKES));
    assert!(&rt; 2 < second.layout().items);
    expect_same(&rt, finds_pending(&mut second, 2), true);
    drop(owner);
    drop(first);
    drop(second);
}

/// Each way of queueing finds the queue draining, and none waits for the end of the drain.
const DRAINING: &[Step] = &[
    Ask(0, Queue(0), WAKES),
    Own(Drain, Some(1)),
    Ask(1, Stop, Answer::Draining),
    Ask(1, Queue(1), Answer::Draining),
    Ask(1, QueueWait(1), Answer::Draining),
    Ask(1, Flush(1), Answer::Draining),
    Ask(1, FlushWait(1), Answer::Draining),
    Ask(1, Post(1), Answer::Draining),
    Own(Begin, Some(0)),
    Own(End, Some(0)),
    Resume(true),
    Ask(1, Queue(1), FIRST),
    Own(Execute, Some(1)),
    Counts(
        1,
        SenderCounts {
            queued: 1,
            pending: 0,
            closed: 0,
            draining: 5,
            contended: 0,
        },
    ),
];

#[test]
fn draining_until_the_resume(rt: HostRuntime) {
    play_new(&rt, rt.alloc(), DRAINING);
}
