//! The owner's calls in a drain, and after it.
use super::super::steps::Act::{Begin, Close, Drain, End, Execute, Take};
use super::super::steps::Ask::{Queue, QueueWait};
use super::super::steps::Step::{self, Ask, Chain, Done, Own, Phase, Resume};
use super::super::steps::play_new;
use crate::seats::{FIRST, QUEUED, WAKES};
use wq_live::Answer;

/// An item is chained to the execution of item 0. The drain does not end before both have ended.
const DRAINING: &[Step] = &[
    Ask(0, Queue(0), WAKES),
    Resume(false),
    Own(Drain, Some(1)),
    Own(Drain, None),
    Own(Take, None),
    Phase(false, true, false),
    Own(Begin, Some(0)),
    Phase(false, true, false),
    Chain(2, Some(QUEUED)),
    Chain(2, Some(Answer::Pending)),
    Resume(false),
    Own(End, Some(0)),
    Phase(false, true, false),
    Resume(false),
    Own(Execute, Some(2)),
    Phase(false, true, true),
    Done(None),
    Resume(true),
    Phase(false, false, false),
    Ask(1, QueueWait(2), FIRST),
    Ask(0, Queue(0), QUEUED),
    Own(Drain, Some(2)),
];

#[test]
fn drain_ends_once_all_has_ended(rt: HostRuntime) {
    play_new(&rt, rt.alloc(), DRAINING);
}

const EMPTY: &[Step] = &[
    Own(Drain, Some(0)),
    Phase(false, true, true),
    Resume(true),
    Ask(0, Queue(1), FIRST),
    Own(Execute, Some(1)),
];

#[test]
fn empty_drain_ends_at_once(rt: HostRuntime) {
    play_new(&rt, rt.alloc(), EMPTY);
}

const CLOSING: &[Step] = &[
    Ask(0, Queue(0), WAKES),
    Own(Drain, Some(1)),
    Own(Close, Some(0)),
    Phase(true, false, false),
    Ask(1, Queue(1), Answer::Closed),
    Own(Execute, Some(0)),
    Resume(false),
    Done(Some(1)),
];

#[test]
fn close_ends_a_drain(rt: HostRuntime) {
    play_new(&rt, rt.alloc(), CLOSING);
}
