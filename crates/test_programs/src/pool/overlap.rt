//! As many workers of a pool as are wanted run at the same time.
use crate::expect::expect_same;
use crate::looks::{LOOKS, finds, has_come};
use crate::pool::team::{Guest, GuestOf, finish_all, new_pool_for, run_beside, take_last, to_stop};
use crate::pool::values::to_stop_with_values;
use std::alloc::Global;
use std::process::Abort;
use std::sync::Wait;
use std::sync::atomic::AtomicU64;
use std::sync::atomic::Ordering::SeqCst;
use std::thread::Threads;
use wq_pool::{Gate, ServedOf};
use wq_worker::Station;

/// Before the item of each of three queues it waits until all three are there, and counts the queues to which that came.
#[derive(Drop)]
pub(crate) struct Meeting {
    here: [AtomicU64; 3],
    pub(crate) met: AtomicU64,
}

impl Meeting {
    pub(crate) fn new() -> Meeting {
        Meeting {
            here: [AtomicU64::new(0), AtomicU64::new(0), AtomicU64::new(0)],
            met: AtomicU64::new(0),
        }
    }

    fn are_all_here(&self) -> bool {
        self.here.iter().all(|queue| queue.load(SeqCst) > 0)
    }

    fn wait(&self) {
        if finds(LOOKS, || self.are_all_here()) {
            self.met.fetch_add(1, SeqCst);
        }
    }
}

impl Gate for Meeting {
    fn before(&self, queue: u32, item: u32) {
        let _ = item;
        if let Some(here) = self.here.get(queue as usize) {
            here.store(1, SeqCst);
        }
        self.wait();
    }

    fn after(&self, queue: u32, item: u32) {
        let _ = (queue, item);
    }
}

/// Before an item of queue 0 it waits until one of queue 1 has ended, and notes whether that came.
#[derive(Drop)]
struct Waiting {
    waits: AtomicU64,
    ended: AtomicU64,
    came: AtomicU64,
}

impl Waiting {
    fn new() -> Waiting {
        Waiting {
            waits: AtomicU64::new(0),
            ended: AtomicU64::new(0),
            came: AtomicU64::new(0),
        }
    }

    fn wait(&self) {
        self.waits.store(1, SeqCst);
        if has_come(&self.ended) {
            self.came.store(1, SeqCst);
        }
    }
}

impl Gate for Waiting {
    fn before(&self, queue: u32, item: u32) {
        let _ = item;
        if queue == 0 {
            self.wait();
        }
    }

    fn after(&self, queue: u32, item: u32) {
        let _ = item;
        if queue == 1 {
            self.ended.store(1, SeqCst);
        }
    }
}

/// Announces so many queues, queue 0 first, and runs them by as many workers.
fn run_all<R: Abort + Threads + Wait + Sync, K: Station + Drop + Send, G: Gate + Sync>(
    rt: &R,
    alloc: Global,
    queues: Vec<ServedOf<K>>,
    count: u32,
    gate: &G,
) {
    let (pool, announcer, mut callers) = new_pool_for(rt, alloc, queues, count);
    let mut guest = GuestOf::new(&pool, announcer);
    guest.announce_all(rt, count);
    pool.run(rt, callers.as_mut_slice(), gate)
        .expect(rt, "memory");
    drop(guest);
    drop(pool);
    drop(callers);
}

/// The same with an item in each of so many plain queues, and then in each of as many queues whose items bring values.
fn run_both<R: Abort + Threads + Wait + Sync, G: Gate + Sync>(
    rt: &R,
    alloc: Global,
    count: u32,
    gate: &G,
    value_gate: &G,
) {
    run_all(rt, alloc, to_stop(rt, alloc, count, 1), count, gate);
    let queues = to_stop_with_values(rt, alloc, count, 1);
    run_all(rt, alloc, queues, count, value_gate);
}

/// Three workers are each within an item of a queue of its own, at one time.
#[test]
fn pool_three_workers_overlap(rt: HostRuntime) {
    let (gate, value_gate) = (Meeting::new(), Meeting::new());
    run_both(&rt, rt.alloc(), 3, &gate, &value_gate);
    expect_same(&rt, gate.met.load(SeqCst), 3);
    expect_same(&rt, value_gate.met.load(SeqCst), 3);
}

/// While one worker of two waits before the item of queue 0, the other executes queue 1.
#[test]
fn pool_two_workers_overlap(rt: HostRuntime) {
    let (gate, value_gate) = (Waiting::new(), Waiting::new());
    run_both(&rt, rt.alloc(), 2, &gate, &value_gate);
    expect_same(&rt, gate.came.load(SeqCst), 1);
    expect_same(&rt, value_gate.came.load(SeqCst), 1);
}

/// One worker runs the pool, and another joins by a run of its own while the first waits within an item.
fn run_late<R: Abort + Threads + Wait + Sync>(
    rt: &R,
    first: Guest<'_>,
    mut late: Guest<'_>,
    gate: &Waiting,
) {
    run_beside(rt, first, gate, || {
        assert!(rt; has_come(&gate.waits));
        late.run(rt, gate)
    });
    drop(late);
}

/// Two runs at once: the worker of the second executes queue 1 while that of the first waits before the item of queue 0, and
/// both end.
#[test]
fn pool_late_run_overlaps(rt: HostRuntime) {
    let queues = to_stop(&rt, rt.alloc(), 2, 1);
    let (pool, announcer, mut callers) = new_pool_for(&rt, rt.alloc(), queues, 2);
    let late = take_last(&rt, &pool, &mut callers);
    let first = take_last(&rt, &pool, &mut callers);
    let mut guest = Guest::new(&pool, announcer);
    guest.announce_all(&rt, 2);
    drop(guest);
    let gate = Waiting::new();
    run_late(
        &rt,
        Guest::new(&pool, first),
        Guest::new(&pool, late),
        &gate,
    );
    expect_same(&rt, gate.came.load(SeqCst), 1);
    finish_all(&rt, pool, 0, 2);
    drop(callers);
}
