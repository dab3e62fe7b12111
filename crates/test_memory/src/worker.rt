//! A worker with its queue, and the work that it is made of.
ghost use Rattle.std.specs.Prelude.{◌≡◌, []};

use crate::calls::{Said, right};
use std::alloc::Global;
use trail::Trail;
use wq_live::Sender;
use wq_words::Layout;
use wq_worker::{Follow, Unbuilt, Work, Worker};

/// Counts its runs.
#[derive(Drop)]
pub struct Counter {
    pub ran: Trail,
    pub runs: u32,
}

impl Counter {
    /// It has run nothing.
    pub fn new() -> Counter
        ensures { result.ran.items ≡ [] }
    {
        Counter {
            ran: Trail::new(),
            runs: 0,
        }
    }
}

impl Work for Counter {
    ghost log = { λ w. w.ran.items };

    ghost may = { λ w k follow v. follow ≡ [] };

    fn run(&mut self, item: u32) -> Follow {
        self.ran = self.ran.and(item);
        self.runs = self.runs.saturating_add(1);
        Follow::new()
    }
}

/// Queues an item of a new worker's queue, and destroys the queue. Whether the item was run.
fn runs_one(worker: Worker<Counter>, mut senders: Vec<Sender>) -> bool {
    let Some(mut sender) = senders.pop() else {
        return false;
    };
    if sender.layout().items > 0 {
        sender.queue_tries(0, 1);
    }
    match worker.destroy(1) {
        Ok((work, _book)) => work.runs == 1,
        Err(_unfinished) => false,
    }
}

/// Makes a worker with its queue, and again of the work that came back where memory was wanting.
pub fn build_worker(alloc: Global) -> Said {
    let Ok(layout) = Layout::new(4, 1, 2) else {
        return Said::Wrong;
    };
    match Worker::build(alloc, layout, Counter::new(), 1) {
        Ok((worker, senders)) => right(runs_one(worker, senders)),
        Err(Unbuilt { work, .. }) => match Worker::build(alloc, layout, work, 1) {
            Ok((worker, senders)) => if runs_one(worker, senders) {
                Said::Again
            } else {
                Said::Wrong
            },
            Err(_unbuilt) => Said::Wrong,
        },
    }
}
