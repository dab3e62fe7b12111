//! A work looks at its item's PENDING bit as it runs.
ghost use Rattle.std.specs.Prelude.{◌≡◌, []};

use crate::expect::expect_same;
use crate::seats::{QUEUED, WAKES};
use crate::worker::steps::{Step, play};
use crate::worker::team::{destroy, new_queue, take_last};
use arrayvec::ArrayVec;
use std::alloc::Global;
use std::process::Abort;
use trail::Trail;
use wq_live::Sender;
use wq_worker::{Follow, Ran, Work, Worker};

/// A work that owns a sender of its queue, and notes whether the item that it runs is pending.
#[derive(Drop)]
struct Noting {
    sender: Sender,
    ran: Trail,
    found: ArrayVec<bool, 4>,
}

impl Noting {
    fn new(sender: Sender) -> Noting
        ensures { result.ran.items ≡ [] }
    {
        Noting {
            sender,
            ran: Trail::new(),
            found: ArrayVec::new(),
        }
    }
}

impl Work for Noting {
    ghost log = { λ w. w.ran.items };

    ghost may = { λ w k f v. Unit {0} };

    fn run(&mut self, item: u32) -> Follow {
        self.ran = self.ran.and(item);
        if item < self.sender.layout().items {
            let is_pending = self.sender.is_pending(item);
            let _ = self.found.try_push(is_pending);
        }
        Follow::new()
    }
}

/// A worker that notes, and a sender of its queue.
fn new_noting<R: Abort>(rt: &R, alloc: Global) -> (Worker<Noting>, Sender) {
    let (owner, mut senders) = new_queue(rt, alloc, 4, 3);
    let last = take_last(rt, &owner, &mut senders);
    let second = take_last(rt, &owner, &mut senders);
    let first = take_last(rt, &owner, &mut senders);
    drop(senders);
    (Worker::new(owner, last, Noting::new(second), 1), first)
}

/// What such a work found in the runs of these steps, with its worker destroyed then.
fn check_found<R: Abort>(rt: &R, alloc: Global, steps: &[Step], found: &[bool]) {
    let (mut worker, mut first) = new_noting(rt, alloc);
    play(rt, &mut worker, &mut first, steps);
    let (work, book) = destroy(rt, worker, 9);
    drop(book);
    expect_same(rt, work.found.as_slice(), found);
    drop(work);
    drop(first);
}

/// The bit is clear before the function runs (`work_pending`).
#[test]
fn runs_after_the_bit_is_cleared(rt: HostRuntime) {
    check_found(&rt, rt.alloc(), ONE, &[false]);
}

const ONE: &[Step] = &[Step::Queue(3, WAKES), Step::Run(Ran::Item(3))];

/// So it is for each item of a take, and not the first alone.
#[test]
fn each_of_a_take_runs_after_its_bit_is_cleared(rt: HostRuntime) {
    check_found(&rt, rt.alloc(), THREE, &[false, false, false]);
}

const THREE: &[Step] = &[
    Step::Queue(0, WAKES),
    Step::Queue(1, QUEUED),
    Step::Queue(2, QUEUED),
    Step::RunSome(9, 3),
];
