//! Workers that found nothing announced serve on.
ghost use Rattle.std.specs.Prelude.{All};
ghost use Rattle.wq_ready.specs.Known.{IsCallerOf};

use crate::expect::expect_same;
use crate::pool::overlap::Meeting;
use crate::pool::serving::{is_flushed, queue_with_barrier};
use crate::pool::team::{Guest, Logging, empty, finish_all, new_pool_for};
use std::alloc::Global;
use std::process::Abort;
use std::sync::Wait;
use std::sync::atomic::Ordering::SeqCst;
use std::thread::{Threads, join, yield_now};
use wq_live::Sender;
use wq_pool::{Caller, Gate, Pool, Served};

/// So many workers serve as many queues.
const WORKERS: u32 = 3;

/// So often a thread gives way, in which every worker looks and finds nothing.
const PAUSES: u32 = 10_000;

/// The workers meet within the first item of each queue, and again within the second.
#[derive(Drop)]
struct Meetings {
    first: Meeting,
    second: Meeting,
}

impl Gate for Meetings {
    fn before(&self, queue: u32, item: u32) {
        if item == 0 {
            self.first.before(queue, item);
        } else {
            self.second.before(queue, item);
        }
    }

    fn after(&self, queue: u32, item: u32) {
        let _ = (queue, item);
    }
}

/// Empty queues, and a sender of each.
struct Queues {
    served: Vec<Served<Logging>>,
    senders: Vec<Sender>,
}

fn new_queues<R: Abort>(rt: &R, alloc: Global) -> Queues {
    let (mut all, mut senders) = (Vec::new(alloc), Vec::new(alloc));
    for _ in 0..WORKERS {
        let (served, sender) = empty(rt, alloc, 2, Logging::new());
        all.push(served).expect(rt, "memory");
        senders.push(sender).expect(rt, "memory");
    }
    Queues {
        served: all,
        senders,
    }
}

/// Queues the item and a barrier on each queue.
fn queue_on_each<R: Abort + Wait>(
    rt: &R,
    guest: &mut Guest<'_>,
    senders: &mut [Sender],
    item: u32,
) {
    let mut queue = 0u32;
    for sender in senders.iter_mut() {
        queue_with_barrier(rt, guest, sender, queue, item);
        queue = queue.saturating_add(1);
    }
}

/// Waits until each queue has run its barrier.
fn flush_each<R: Abort>(rt: &R, senders: &mut [Sender]) {
    for sender in senders.iter_mut() {
        assert!(rt; is_flushed(rt, sender));
    }
}

fn stop_each<R: Abort + Wait>(rt: &R, guest: &mut Guest<'_>, senders: &mut [Sender]) {
    let mut queue = 0u32;
    for sender in senders.iter_mut() {
        guest.stop(rt, queue, sender);
        queue = queue.saturating_add(1);
    }
}

fn pause() {
    for _ in 0..PAUSES {
        yield_now();
    }
}

/// An item on each queue, and when these have run and nothing is left to serve another one; then the stop items.
fn queue_twice<R: Abort + Wait>(rt: &R, guest: &mut Guest<'_>, senders: &mut [Sender]) {
    for item in 0..2u32 {
        queue_on_each(rt, guest, senders, item);
        flush_each(rt, senders);
        pause();
    }
    stop_each(rt, guest, senders);
}

/// The workers run the pool meanwhile.
fn run_meanwhile<R: Abort + Threads + Wait + Sync>(
    rt: &R,
    pool: &Pool<Logging>,
    mut workers: Vec<Caller>,
    mut guest: Guest<'_>,
    mut senders: Vec<Sender>,
    gate: &Meetings,
)
    requires { All (IsCallerOf pool.now.ready) workers.items }
{
    join(
        rt,
        ||
            requires { All (IsCallerOf pool.now.ready) workers.items }
        {
            pool.run(rt, workers.as_mut_slice(), gate)
                .expect(rt, "threads")
        },
        || queue_twice(rt, &mut guest, senders.as_mut_slice()),
    );
    drop(senders);
    drop(guest);
    drop(workers);
}

/// Three workers are within an item each at one time, and are so again after all of them looked and found nothing announced.
#[test]
fn three_workers_meet_again(rt: HostRuntime) {
    let Queues { served, senders } = new_queues(&rt, rt.alloc());
    let (pool, caller, workers) = new_pool_for(&rt, rt.alloc(), served, WORKERS);
    let gate = Meetings {
        first: Meeting::new(),
        second: Meeting::new(),
    };
    run_meanwhile(
        &rt,
        &pool,
        workers,
        Guest::new(&pool, caller),
        senders,
        &gate,
    );
    expect_same(&rt, gate.first.met.load(SeqCst), 3);
    expect_same(&rt, gate.second.met.load(SeqCst), 3);
    finish_all(&rt, pool, 0, 3);
}
