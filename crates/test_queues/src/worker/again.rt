//! A work queues its own item again as it runs, by a sender that it owns.
ghost use Rattle.std.specs.Prelude.{◌≡◌, []};

use crate::expect::expect_same;
use crate::seats::{FIRST, WAKES};
use crate::worker::steps::{Step, play};
use crate::worker::team::{destroy, new_queue, take_last};
use arrayvec::ArrayVec;
use std::alloc::Global;
use std::process::Abort;
use trail::Trail;
use wq_live::{Answer, Sender};
use wq_worker::{Drained, Follow, Ran, Work, Worker};

/// A work that owns a sender of its queue, and queues by it the first item that runs, once, within that run.
#[derive(Drop)]
struct Again {
    sender: Sender,
    ran: Trail,
    order: ArrayVec<u32, 4>,
    answer: Option<Answer>,
}

impl Again {
    fn new(sender: Sender) -> Again
        ensures { result.ran.items ≡ [] }
    {
        Again {
            sender,
            ran: Trail::new(),
            order: ArrayVec::new(),
            answer: None,
        }
    }
}

impl Work for Again {
    ghost log = { λ w. w.ran.items };

    ghost may = { λ w k f v. Unit {0} };

    fn run(&mut self, item: u32) -> Follow {
        self.ran = self.ran.and(item);
        let _ = self.order.try_push(item);
        if self.answer.is_none() && item < self.sender.layout().items {
            self.answer = Some(self.sender.queue_tries(item, 1));
        }
        Follow::new()
    }
}

/// A worker whose work queues again, and a sender of its queue.
fn new_again<R: Abort>(rt: &R, alloc: Global) -> (Worker<Again>, Sender) {
    let (owner, mut senders) = new_queue(rt, alloc, 4, 3);
    let last = take_last(rt, &owner, &mut senders);
    let second = take_last(rt, &owner, &mut senders);
    let first = take_last(rt, &owner, &mut senders);
    drop(senders);
    (Worker::new(owner, last, Again::new(second), 1), first)
}

/// What such a work has run once its worker is destroyed, what its queueing was answered, and how many it has queued.
type End = (&'static [u32], Answer, u64);

/// Item 3 is queued, and after the steps the worker is destroyed, with up to nine executions.
fn play_out<R: Abort>(rt: &R, alloc: Global, steps: &[Step], end: End) {
    let (mut worker, mut first) = new_again(rt, alloc);
    play(rt, &mut worker, &mut first, steps);
    let (work, book) = destroy(rt, worker, 9);
    drop(book);
    let (ran, answer, queued) = end;
    expect_same(rt, work.order.as_slice(), ran);
    expect_same(rt, work.answer, Some(answer));
    expect_same(rt, work.sender.counts().queued, queued);
    drop(work);
    drop(first);
}

/// The item that runs is not pending: it is queued within its run, and runs once more.
#[test]
fn item_queues_itself(rt: HostRuntime) {
    play_out(&rt, rt.alloc(), OPEN, (&[3, 3], FIRST, 1));
}

const OPEN: &[Step] = &[
    Step::Queue(3, WAKES),
    Step::Run(Ran::Item(3)),
    Step::Run(Ran::Item(3)),
    Step::Run(Ran::Nothing),
];

/// Under a drain it is answered that the queue drains: the drain ends, and the item may be queued again after it.
#[test]
fn drain_answers_the_run(rt: HostRuntime) {
    play_out(&rt, rt.alloc(), DRAIN, (&[3, 3], Answer::Draining, 0));
}

const DRAIN: &[Step] = &[
    Step::Queue(3, WAKES),
    Step::Drain(9, Drained::Empty),
    Step::Queue(3, FIRST),
];

/// Under a destroy it is answered that the queue is closed, and the item runs no more.
#[test]
fn destroy_answers_the_run(rt: HostRuntime) {
    play_out(&rt, rt.alloc(), ALONE, (&[3], Answer::Closed, 0));
}

const ALONE: &[Step] = &[Step::Queue(3, WAKES)];
