//! A pool of workers over several queues, and senders in threads of their own that queue on all of them in turn.
ghost use Rattle.std.specs.Prelude.{All};
ghost use Rattle.wq_ready.specs.Known.{IsCallerOf};

mod feeder;
mod in_order;

use crate::host::Host;
use crate::refusal::Refusal;
use feeder::Feeder;
use in_order::{InOrder, SLICE};
use std::alloc::{AllocError, Global};
use std::sync::Wait;
use std::sync::atomic::AtomicU64;
use std::thread::{JoinHandle, Scope, Threads, for_each_mut, scope, scope_env};
use wq_live::Sender;
use wq_pool::{Caller, NoGate, Pool, Served};
use wq_words::{Layout, LayoutError};
use wq_worker::{Book, Worker};

/// How many queues there are, how many threads serve them, how many senders queue on each, and about how many items in all.
#[derive(Clone, Copy)]
pub struct PoolLoad {
    queues: u32,
    workers: u32,
    senders: u32,
    total: u64,
}

/// How many items ran, and how many of them out of their sender's order.
#[derive(Clone, Copy)]
pub struct PoolCounts {
    pub items: u64,
    pub strays: u64,
}

impl PoolLoad {
    /// A load that takes no time.
    pub fn small() -> PoolLoad {
        PoolLoad {
            queues: 3,
            workers: 2,
            senders: 2,
            total: 6144,
        }
    }

    /// A load with a worker and a sender at least.
    pub fn new(queues: u32, workers: u32, senders: u32, total: u32) -> Result<PoolLoad, Refusal> {
        if workers == 0 || senders == 0 {
            return Err(Refusal::Words);
        }
        Ok(PoolLoad {
            queues,
            workers,
            senders,
            total: u64::from(total),
        })
    }

    /// A queue with a slice of items for each sender, and a sender more, which is the worker's.
    fn layout(self) -> Result<Layout, LayoutError> {
        let items = self.senders.saturating_mul(SLICE);
        Layout::new(items, 1, self.senders.saturating_add(1))
    }

    /// How many items each sender queues on each queue.
    fn rounds(self) -> u64 {
        let seats = u64::from(self.queues).saturating_mul(u64::from(self.senders));
        self.total.checked_div(seats).unwrap_or(0)
    }
}

/// A queue that has done nothing, and its senders.
fn new_queue(alloc: Global, load: PoolLoad) -> Result<(Served<InOrder>, Vec<Sender>), Refusal> {
    let work = InOrder::new(alloc, load.senders)?;
    let (worker, senders) = Worker::build(alloc, load.layout()?, work, 1).map_err(|_| AllocError)?;
    Ok((Served::new(worker), senders))
}

/// The queues, and the senders of each.
fn new_queues(
    alloc: Global,
    load: PoolLoad,
) -> Result<(Vec<Served<InOrder>>, Vec<Vec<Sender>>), Refusal> {
    let mut queues = Vec::new(alloc);
    let mut seats = Vec::new(alloc);
    for _ in 0..load.queues {
        let (queue, senders) = new_queue(alloc, load)?;
        queues.push(queue).map_err(|_| AllocError)?;
        seats.push(senders).map_err(|_| AllocError)?;
    }
    Ok((queues, seats))
}

/// A sender of each queue.
fn row(alloc: Global, queues: &mut [Vec<Sender>]) -> Result<Vec<Sender>, AllocError> {
    let mut row = Vec::new(alloc);
    for queue in queues {
        if let Some(sender) = queue.pop() {
            row.push(sender)?;
        }
    }
    Ok(row)
}

/// A feeder for each sender, which takes one of the callers.
fn feeders<'p>(
    alloc: Global,
    pool: &'p Pool<InOrder>,
    callers: &mut Vec<Caller>,
    mut seats: Vec<Vec<Sender>>,
    feeding: &'p AtomicU64,
    load: PoolLoad,
) -> Result<Vec<Feeder<'p>>, AllocError>
    requires { All (IsCallerOf pool.now.ready) callers.old.items }
    ensures { All (IsCallerOf pool.now.ready) callers.new.items }
{
    let mut all = Vec::new(alloc);
    for _sender in 0..load.senders {
        let row = row(alloc, seats.as_mut_slice())?;
        if let Some(caller) = callers.pop() {
            all.push(Feeder::new(pool, caller, row, feeding, load.rounds()))?;
        }
    }
    Ok(all)
}

fn feed<R: Threads + Wait + Sync>(rt: &R, feeders: &mut [Feeder]) {
    let threads = feeders.len().max(1);
    for_each_mut(
        rt,
        feeders,
        threads,
        &|_place, feeder: &mut Feeder| feeder.feed(rt),
    );
}

/// A thread in which the pool runs.
fn start_workers<'s, E, R: Threads + Wait + Sync>(
    scope: &Scope<'s, E>,
    rt: &'s R,
    pool: &'s Pool<InOrder>,
    mut workers: Vec<Caller>,
) -> Result<JoinHandle<()>, Refusal>
    requires { All (IsCallerOf pool.now.ready) workers.items }
{
    scope
        .spawn(
            move ||
                requires { All (IsCallerOf pool.now.ready) workers.items }
            {
                let _ = pool.run(rt, &mut workers, &NoGate);
            },
        )
        .map_err(|_| Refusal::NoThread)
}

/// The callers serve while the feeders queue, until each queue has run its stop item. Without a thread for the callers an item that is
/// pending would be so for ever, so none is queued.
fn serve_and_feed<'s, E, R: Threads + Wait + Sync>(
    scope: &Scope<'s, E>,
    rt: &'s R,
    pool: &'s Pool<InOrder>,
    workers: Vec<Caller>,
    feeders: &mut [Feeder],
) -> Result<(), Refusal>
    requires { All (IsCallerOf pool.now.ready) workers.items }
{
    let serving = start_workers(scope, rt, pool, workers)?;
    feed(rt, feeders);
    serving.join(rt);
    Ok(())
}

/// The threads of the callers and of the feeders, in a scope of their own.
fn run_scope<R: Threads + Wait + Sync>(
    rt: &R,
    pool: &Pool<InOrder>,
    workers: Vec<Caller>,
    feeders: &mut [Feeder],
) -> Result<(), Refusal>
    requires { All (IsCallerOf pool.now.ready) workers.items }
{
    scope(
        scope_env(),
        rt,
        |scope| -> Result<(), Refusal>
            requires { All (IsCallerOf pool.now.ready) workers.items }
        { serve_and_feed(scope, rt, pool, workers, feeders) },
    )
}

/// Serves the pool until its queues have run their stop items, and answers how many announcements all feeders made. A queue is
/// announced so once a rest, and picked as often by the time that it has run its stop item; picks after a share of executions,
/// for which the pool itself announces it, are not counted.
fn serve<R: Threads + Wait + Sync>(
    rt: &R,
    alloc: Global,
    pool: &Pool<InOrder>,
    mut callers: Vec<Caller>,
    seats: Vec<Vec<Sender>>,
    load: PoolLoad,
) -> Result<u64, Refusal>
    requires { All (IsCallerOf pool.now.ready) callers.items }
{
    let feeding = AtomicU64::new(u64::from(load.senders));
    let mut feeders = feeders(alloc, pool, &mut callers, seats, &feeding, load)?;
    run_scope(rt, pool, callers, feeders.as_mut_slice())?;
    let mut announced = 0u64;
    for feeder in &feeders {
        announced = announced.saturating_add(feeder.announced());
    }
    Ok(announced)
}

/// What the works of finished queues have counted.
fn counted(finished: &[(InOrder, Book)]) -> PoolCounts {
    let mut counts = PoolCounts {
        items: 0,
        strays: 0,
    };
    for (work, _book) in finished {
        counts.items = counts.items.saturating_add(work.count());
        counts.strays = counts.strays.saturating_add(work.strays());
    }
    counts
}

/// Makes the queues and the pool, serves it while the senders queue their items and at last the stop items, and takes all apart.
/// What ran, and how many picks that took.
pub fn run<R: Host>(rt: &R, load: PoolLoad) -> Result<(PoolCounts, u64), Refusal> {
    let alloc = rt.alloc();
    let (queues, seats) = new_queues(alloc, load)?;
    let callers = load.workers.saturating_add(load.senders);
    let (pool, callers) = Pool::new(alloc, queues, callers)?;
    let picks = serve(rt, alloc, &pool, callers, seats, load)?;
    match pool.finish(u32::MAX) {
        Ok(finished) => Ok((counted(finished.as_slice()), picks)),
        Err(_fault) => Err(Refusal::Unfinished),
    }
}
