//! Each call of a sender and of the owner, in one thread.
mod draining;
mod refused;

use super::reading::take;
use super::steps::Act::{Begin, Close, End, Execute, Next, Running, Take, Waiting};
use super::steps::Ask::{Flush, GiveBack, Post, Queue, QueueWait, Stop};
use super::steps::Look::{Flushed, Numbered, Pending};
use super::steps::Step::{self, Ask, Chain, Counts, Done, Own, OwnCounts, Phase, See};
use super::steps::play_new;
use crate::expect::expect_same;
use crate::seats::{QUEUED, WAKES, queue_once, seats};
use wq_live::{Answer, OwnerCounts, SenderCounts};

const THREE_QUEUED: SenderCounts = SenderCounts {
    queued: 3,
    pending: 0,
    closed: 0,
    draining: 0,
    contended: 0,
};

const TWO_PENDING: SenderCounts = SenderCounts {
    queued: 1,
    pending: 2,
    closed: 0,
    draining: 0,
    contended: 0,
};

/// Item 0 is posted, item 1 queued in one try, item 2 held and given back, item 3 queued, and a barrier. What waits is executed in the
/// order of its pushes.
const QUEUEING: &[Step] = &[
    See(0, Numbered(0), true),
    See(1, Numbered(1), true),
    Ask(0, Post(0), WAKES),
    Ask(1, Post(0), Answer::Pending),
    Ask(1, Queue(1), QUEUED),
    Ask(1, GiveBack(2), Answer::Contended),
    Ask(0, QueueWait(3), QUEUED),
    Ask(1, QueueWait(3), Answer::Pending),
    Ask(0, Flush(1), QUEUED),
    See(1, Pending(0), true),
    See(1, Flushed(1), false),
    See(0, Pending(2), false),
    See(0, Flushed(0), true),
    Own(Take, Some(4)),
    Own(Waiting, Some(4)),
    Own(Next, Some(0)),
    Own(Execute, Some(0)),
    Own(Waiting, Some(3)),
    Own(Next, Some(1)),
    Own(Execute, Some(1)),
    Own(Waiting, Some(2)),
    Own(Next, Some(3)),
    Own(Execute, Some(3)),
    Own(Waiting, Some(1)),
    Own(Next, Some(5)),
    Own(Execute, Some(5)),
    Own(Next, None),
    See(1, Pending(0), false),
    See(1, Flushed(1), true),
    Counts(0, THREE_QUEUED),
    Counts(1, TWO_PENDING),
];

#[test]
fn senders_queue_each_item_once(rt: HostRuntime) {
    play_new(&rt, rt.alloc(), QUEUEING);
}

/// An item is chained, once, within the execution of the stop item, 6. It is executed, and then all is done.
const CHAINING: &[Step] = &[
    Ask(1, Stop, WAKES),
    Chain(1, None),
    Own(Close, Some(1)),
    Phase(true, false, false),
    Ask(0, Queue(2), Answer::Closed),
    Own(Begin, Some(6)),
    Own(Running, Some(6)),
    Chain(1, Some(QUEUED)),
    Chain(1, Some(Answer::Pending)),
    Own(End, Some(6)),
    Done(None),
    Own(Execute, Some(1)),
    Done(Some(2)),
    OwnCounts(OwnerCounts {
        chained: 1,
        chain_busy: 1,
        ended: 2,
    }),
    Counts(
        0,
        SenderCounts {
            queued: 0,
            pending: 0,
            closed: 1,
            draining: 0,
            contended: 0,
        },
    ),
];

#[test]
fn closed_queue_takes_chained_items_alone(rt: HostRuntime) {
    play_new(&rt, rt.alloc(), CHAINING);
}

#[test]
fn owner_takes_what_was_queued_before_it_met(rt: HostRuntime) {
    let (mut owner, mut first, mut second) = seats(&rt, rt.alloc(), 4, 2);
    expect_same(&rt, queue_once(&mut first, 2), Some(WAKES));
    first.meet_owner(&mut owner);
    second.meet(&mut first);
    first.meet_both(&mut second, &mut owner);
    expect_same(&rt, take(&mut owner), Some(1));
    expect_same(&rt, owner.next(), Some(2));
    drop(owner);
    drop(first);
    drop(second);
}
