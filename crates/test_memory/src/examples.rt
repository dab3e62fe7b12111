//! The examples. Each whose threads meet in a join comes to its whole end also where a thread is wanting, by those that are there.
use crate::calls::{Said, right};
use example_pool::{Ended, Unended};
use example_threads::Unserved;
use example_values::{Met, Unsummed};
use std::alloc::Global;
use std::sync::Wait;
use std::thread::Threads;
use wq_live::{BuildError, Done};
use wq_words::Layout;

/// Three senders of four items each, and an owner that executes them and the stop item.
pub fn run_threads<T: Threads + Wait + Sync>(rt: &T, alloc: Global) -> Said {
    let Ok(layout) = Layout::new(12, 1, 3) else {
        return Said::Wrong;
    };
    match example_threads::run(rt, alloc, layout, 4) {
        Ok(met) => {
            let is_done = matches!(met.owner.done(), Some(Done { ended: 13 }));
            drop(met);
            right(is_done)
        }
        Err(BuildError::Memory) => Said::Memory,
    }
}

/// Two senders of four items each, and a worker that serves them and the stop item.
pub fn run_served<T: Threads + Wait + Sync>(rt: &T, alloc: Global) -> Said {
    let Ok(layout) = Layout::new(8, 1, 3) else {
        return Said::Wrong;
    };
    match example_threads::run_served(rt, alloc, layout, 4) {
        Ok(served) => right(served.totals.executed == 9),
        Err(Unserved::Memory) => Said::Memory,
        Err(Unserved::Left(_) | Unserved::Unbalanced(_)) => Said::Wrong,
    }
}

/// Whether all that the senders queued was handed over. A sender that could have no memory for a message has queued fewer.
fn handed_over(met: &Met) -> Said {
    let queued = (
        met.first.sender.counts().queued,
        met.second.sender.counts().queued,
    );
    let all = queued.0.saturating_add(queued.1).saturating_add(1);
    match met.ran.owner.done() {
        Some(Done { ended: 9 }) => right(queued == (4, 4) && met.ran.sum == 50_140),
        Some(Done { ended }) if ended == all => Said::Memory,
        _ => Said::Wrong,
    }
}

/// Two senders of four messages each, and an owner that is handed them.
pub fn run_messages<T: Threads + Wait + Sync>(rt: &T, alloc: Global) -> Said {
    let Ok(layout) = Layout::new(8, 1, 3) else {
        return Said::Wrong;
    };
    match example_values::run(rt, alloc, layout, 4) {
        Ok(met) => handed_over(&met),
        Err(BuildError::Memory) => Said::Memory,
    }
}

/// Two senders of two items each, and a worker that adds up their values.
pub fn run_summed(alloc: Global) -> Said {
    let Ok(layout) = Layout::new(4, 1, 3) else {
        return Said::Wrong;
    };
    match example_values::run_summed(alloc, layout) {
        Ok(summed) => {
            let is_right = summed.sum == 43_210 && summed.queued == (3_010, 40_200);
            drop(summed);
            right(is_right)
        }
        Err(Unsummed::Memory) => Said::Memory,
        Err(Unsummed::Left(_) | Unsummed::TooLarge | Unsummed::Unbalanced(_)) => Said::Wrong,
    }
}

/// Whether both senders of a queue queued their two items, and all four ran.
fn has_run(queue: &Ended) -> bool {
    let queued = (
        queue.first.sender.counts().queued,
        queue.second.sender.counts().queued,
    );
    queued == (2, 2) && queue.work.items.len() == 4
}

/// Two queues of two senders each, and a pool of two workers that runs them.
pub fn run_pool<T: Threads + Wait + Sync>(rt: &T, alloc: Global) -> Said {
    let Ok(layout) = Layout::new(4, 1, 4) else {
        return Said::Wrong;
    };
    match example_pool::run(rt, alloc, layout) {
        Ok((one, two)) => right(has_run(&one) && has_run(&two)),
        Err(Unended::Memory) => Said::Memory,
        Err(Unended::Out { .. }) => Said::Wrong,
    }
}
