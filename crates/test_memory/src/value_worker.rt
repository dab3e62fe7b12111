//! A worker whose items bring values with its queue, and the work that it is made of.
ghost use Rattle.std.specs.Prelude.{◌≡◌, []};

use crate::calls::{Said, right};
use std::alloc::Global;
use value_trail::ValueTrail;
use wq_value_worker::{ValueFollow, ValueWork, ValueWorker};
use wq_values::ValueSender;
use wq_words::Layout;
use wq_worker::Unbuilt;

/// What an item brings.
const VALUE: u64 = 1 << 40;

/// Adds up what it was handed.
#[derive(Drop)]
struct Adder {
    ran: ValueTrail<u64>,
    came_back: ValueTrail<u64>,
    sum: u64,
}

impl Adder {
    // It has run nothing.
    fn new() -> Adder
        ensures { result.ran.items ≡ [] }
    {
        Adder {
            ran: ValueTrail::new(),
            came_back: ValueTrail::new(),
            sum: 0,
        }
    }
}

impl ValueWork<u64> for Adder {
    ghost log = { λ w. w.ran.items };

    ghost given = { λ w. w.came_back.items };

    ghost may = { λ w k v pairs u. pairs ≡ [] };

    ghost takes = { λ w k v u. Unit {0} };

    fn run(&mut self, item: u32, value: u64) -> ValueFollow<u64> {
        self.ran = self.ran.and(item, &value);
        self.sum = self.sum.saturating_add(value);
        ValueFollow::new()
    }

    fn returned(&mut self, item: u32, value: u64) {
        self.came_back = self.came_back.and(item, &value);
    }
}

/// Queues an item of a new worker's queue, and destroys the queue. Whether the item was run with its value.
fn runs_one(worker: ValueWorker<u64, Adder>, mut senders: Vec<ValueSender<u64>>) -> bool {
    let Some(mut sender) = senders.pop() else {
        return false;
    };
    if sender.layout().items > 0 {
        let _ = sender.queue_value(0, VALUE, 1);
    }
    match worker.destroy(1) {
        Ok((work, _book)) => work.sum == VALUE,
        Err(_unfinished) => false,
    }
}

/// Makes a worker with its queue, and again of the work that came back where memory was wanting.
pub fn build_value_worker(alloc: Global) -> Said {
    let Ok(layout) = Layout::new(4, 1, 2) else {
        return Said::Wrong;
    };
    match ValueWorker::build(alloc, layout, Adder::new(), 1) {
        Ok((worker, senders)) => right(runs_one(worker, senders)),
        Err(Unbuilt { work, .. }) => match ValueWorker::build(alloc, layout, work, 1) {
            Ok((worker, senders)) => if runs_one(worker, senders) {
                Said::Again
            } else {
                Said::Wrong
            },
            Err(_unbuilt) => Said::Wrong,
        },
    }
}
