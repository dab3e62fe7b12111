//! No tests: what a worker and a sender of its queue do in one thread, a step after another, each with what it answers.
use crate::expect::expect_same;
use crate::seats::queue_item;
use std::process::Abort;
use wq_live::{Answer, Sender};
use wq_worker::{Drained, Ran, Work, Worker};

#[derive(Clone, Copy)]
pub(crate) enum Step {
    /// The sender queues an item in one try.
    Queue(u32, Answer),
    /// The worker runs one number, or up to so many.
    Run(Ran),
    RunSome(u32, u32),
    /// It drains up to this limit.
    Drain(u32, Drained),
    /// Whether the queue drains.
    IsDraining(bool),
}

/// Makes the steps, and looks whether each answers what is said of it.
pub(crate) fn play<R: Abort, W: Work>(
    rt: &R,
    worker: &mut Worker<W>,
    sender: &mut Sender,
    steps: &[Step],
) {
    for (place, &step) in steps.iter().enumerate() {
        match step {
            Step::Queue(item, answer) => {
                let queued = queue_item(rt, sender, item);
                expect_same(rt, (place, queued), (place, answer));
            }
            Step::Run(ran) => expect_same(rt, (place, worker.run_one()), (place, ran)),
            Step::RunSome(limit, count) => {
                expect_same(rt, (place, worker.run_some(limit)), (place, count));
            }
            Step::Drain(limit, drained) => {
                expect_same(rt, (place, worker.drain(limit)), (place, drained));
            }
            Step::IsDraining(drains) => {
                expect_same(rt, (place, worker.is_draining()), (place, drains));
            }
        }
    }
}
