//! A pool of two queues, from its making to its end.
ghost use Rattle.std.specs.Prelude.{All};
ghost use Rattle.wq_pool.specs.Known.{IsCallerOf};

use crate::calls::{Said, right};
use crate::worker::Counter;
use std::alloc::Global;
use std::slice;
use std::sync::Wait;
use std::thread::Threads;
use wq_live::{Answer, Sender};
use wq_pool::{Caller, NoGate, Pool, PoolError, PoolFault, Served};
use wq_words::Layout;
use wq_worker::{Book, Worker};

/// A queue on which an item and the stop item stand, and its sender. None where memory was wanting.
fn queue(alloc: Global, layout: Layout) -> Option<(Served<Counter>, Sender)> {
    let Ok((worker, mut senders)) = Worker::build(alloc, layout, Counter::new(), 1) else {
        return None;
    };
    let mut sender = senders.pop()?;
    queue_item(&mut sender);
    sender.request_stop(1);
    Some((Served::new(worker), sender))
}

/// Queues the item. None where the queue has none.
fn queue_item(sender: &mut Sender) -> Option<Answer> {
    if sender.layout().items == 0 {
        return None;
    }
    Some(sender.queue_tries(0, 1))
}

/// Queues the item. Whether it was queued.
fn is_queued(sender: &mut Sender) -> bool {
    matches!(queue_item(sender), Some(Answer::Queued { .. }))
}

/// Two queues, and a sender of each.
struct Two {
    queues: Vec<Served<Counter>>,
    one: Sender,
    two: Sender,
}

/// None where memory was wanting.
fn two_queues(alloc: Global) -> Option<Two> {
    let layout = Layout::new(1, 1, 2).ok()?;
    let mut queues = Vec::new(alloc);
    let (first, one) = queue(alloc, layout)?;
    queues.push(first).ok()?;
    let (second, two) = queue(alloc, layout)?;
    queues.push(second).ok()?;
    Some(Two { queues, one, two })
}

/// Whether there are two works, and each has run its item so often.
fn have_run(finished: &[(Counter, Book)], runs: u32) -> bool {
    let mut all = finished.len() == 2;
    for (work, _) in finished {
        all = all && work.runs == runs;
    }
    all
}

/// Drops what is left, by a call: written out, all the parts of a pool would stand in each place where it is dropped.
fn wrong<T: Drop>(left: T) -> Said {
    drop(left);
    Said::Wrong
}

/// Takes the pool apart, for which memory was wanting before. No queue was touched then: each takes its item once more.
fn finish_again(pool: Pool<Counter>, one: &mut Sender, two: &mut Sender) -> Said {
    let are_queued = is_queued(one) && is_queued(two);
    match pool.finish(9) {
        Ok(finished) => if are_queued && have_run(&finished, 3) {
            Said::Again
        } else {
            Said::Wrong
        },
        Err(fault) => wrong(fault),
    }
}

/// Takes the pool apart, once more where memory was wanting.
fn finish(pool: Pool<Counter>, one: &mut Sender, two: &mut Sender) -> Said {
    match pool.finish(9) {
        Ok(finished) => right(have_run(&finished, 2)),
        Err(PoolFault::Memory { pool }) => finish_again(pool, one, two),
        Err(fault) => wrong(fault),
    }
}

/// Announces both queues, and serves them in one thread until each has run its stop item. Whether that was done.
fn is_served<T: Threads + Wait + Sync>(rt: &T, pool: &Pool<Counter>, caller: &mut Caller) -> bool
    requires { IsCallerOf pool.now.ready caller.old }
    ensures { IsCallerOf pool.now.ready caller.new }
{
    let first = pool.announce(rt, caller, 0);
    let second = pool.announce(rt, caller, 1);
    first.is_ok() && second.is_ok() && pool.run(rt, slice::from_mut(caller), &NoGate).is_ok()
}

/// Queues the item of a queue, does what the answer asks for, and picks a queue, works at it and puts it back. Whether it was this
/// one, and nothing of it was left. How often the item ran is seen where the pool is taken apart.
fn is_served_by_hand<T: Wait>(
    rt: &T,
    pool: &Pool<Counter>,
    caller: &mut Caller,
    sender: &mut Sender,
    queue: u32,
) -> bool
    requires { IsCallerOf pool.now.ready caller.old }
    ensures { IsCallerOf pool.now.ready caller.new }
{
    let Some(answer) = queue_item(sender) else {
        return false;
    };
    let woken = pool.wake(rt, caller, queue, answer);
    let Some(turn) = pool.pick(rt, caller) else {
        return false;
    };
    let worked = match turn.work(1, &NoGate) {
        Ok(worked) => worked,
        Err(turn) => {
            drop(turn);
            return false;
        }
    };
    let is_this = worked.queue() == queue;
    pool.put_back(caller, worked);
    woken.is_ok() && is_this
}

/// Whether nothing is announced, also by an answer that wakes nobody: then no queue is picked.
fn is_quiet<T: Wait>(rt: &T, pool: &Pool<Counter>, caller: &mut Caller) -> bool
    requires { IsCallerOf pool.now.ready caller.old }
{
    let woken = pool.wake(rt, caller, 0, Answer::Pending);
    let picked = pool.pick(rt, caller);
    let is_none = picked.is_none();
    drop(picked);
    woken.is_ok() && is_none
}

/// Serves a pool of two queues by its one caller, and takes it apart.
fn serve_both<T: Threads + Wait + Sync>(
    rt: &T,
    pool: Pool<Counter>,
    callers: &mut Vec<Caller>,
    one: &mut Sender,
    two: &mut Sender,
) -> Said
    requires { All (IsCallerOf pool.ready) callers.old.items }
{
    let Some(mut caller) = callers.pop() else {
        return wrong(pool);
    };
    if is_served(rt, &pool, &mut caller)
        && is_served_by_hand(rt, &pool, &mut caller, one, 0)
        && is_served_by_hand(rt, &pool, &mut caller, two, 1)
        && is_quiet(rt, &pool, &mut caller)
    {
        finish(pool, one, two)
    } else {
        wrong(pool)
    }
}

/// Makes a pool of two queues, serves both to their stop items and then by hand, and takes it apart.
pub fn serve_pool<T: Threads + Wait + Sync>(rt: &T, alloc: Global) -> Said {
    let Some(
        Two {
            queues,
            mut one,
            mut two,
        },
    ) = two_queues(alloc)
    else {
        return Said::Memory;
    };
    match Pool::new(alloc, queues, 1) {
        Ok((pool, mut callers)) => serve_both(rt, pool, &mut callers, &mut one, &mut two),
        Err(PoolError::Memory) => Said::Memory,
        Err(PoolError::NoQueue) => Said::Wrong,
    }
}
