//! When a run of a pool ends.
use crate::expect::expect_same;
use crate::pool::serving::serve_again;
use crate::pool::team::{
    Counting, Guest, Logging, empty, filled, finish_all, finish_unfinished, new_pool,
    new_pool_with_worker, queue_item, run_beside, to_stop,
};
use std::alloc::Global;
use std::process::Abort;
use std::sync::Wait;
use std::thread::Threads;
use wq_live::Sender;
use wq_pool::{Gate, NoGate, Pool, Served};
use wq_turn::Runner;

/// One worker runs a pool of so many queues, past this gate.
fn run_past<R: Abort + Threads + Wait + Sync, G: Gate + Sync>(
    rt: &R,
    mut guest: Guest<'_>,
    queues: u32,
    gate: &G,
) {
    guest.announce_all(rt, queues);
    guest.run(rt, gate);
    drop(guest);
}

/// One worker runs a pool of so many queues.
fn run_alone<R: Abort + Threads + Wait + Sync>(rt: &R, guest: Guest<'_>, queues: u32) {
    run_past(rt, guest, queues, &NoGate);
}

/// A queue counts once, however often its stop item runs and it is put back: the run goes on until the other's has run.
#[test]
fn stop_item_counts_once(rt: HostRuntime) {
    let (first, mut sender) = filled(&rt, rt.alloc(), 1);
    let mut queues = to_stop(&rt, rt.alloc(), 1, 1);
    queues.insert(0, first).expect(&rt, "memory");
    let (pool, caller) = new_pool(&rt, rt.alloc(), queues);
    let mut guest = Guest::new(&pool, caller);
    for _turn in 0..3u32 {
        sender.request_stop(1);
        guest.serve(&rt, 0, &NoGate);
    }
    run_alone(&rt, guest, 2);
    finish_all(&rt, pool, 0, 2);
    drop(sender);
}

/// A stop item that ran while the pool was to be taken apart counts: a run ends, whatever is left.
#[test]
fn stop_item_counts_where_the_end_ran_it(rt: HostRuntime) {
    let (served, mut sender) = filled(&rt, rt.alloc(), 0);
    sender.request_stop(1);
    queue_item(&rt, &mut sender, 0);
    let queues = Vec::from_array(rt.alloc(), [served]).expect(&rt, "memory");
    let (pool, caller) = new_pool(&rt, rt.alloc(), queues);
    let pool = finish_unfinished(&rt, pool, 1, (0, 1));
    run_alone(&rt, Guest::new(&pool, caller), 1);
    finish_all(&rt, pool, 1, 1);
    drop(sender);
}

/// A run goes on at a turn that was given back, until nothing is left of it, and each item passes the gate.
#[test]
fn long_turns_are_run(rt: HostRuntime) {
    let queues = to_stop(&rt, rt.alloc(), 2, 3000);
    let (pool, caller) = new_pool(&rt, rt.alloc(), queues);
    let gate = Counting::new();
    run_past(&rt, Guest::new(&pool, caller), 2, &gate);
    expect_same(&rt, gate.count(), 6000);
    finish_all(&rt, pool, 0, 2);
}

/// The worker of a queue after it has run its stop item, which is counted where that is asked for.
fn after_stop<R: Abort>(
    rt: &R,
    served: Served<Logging>,
    sender: &mut Sender,
    is_counted: bool,
) -> Served<Logging> {
    sender.request_stop(1);
    let mut runner = Runner::of(served);
    runner.work(0, 9, &NoGate);
    if is_counted {
        assert!(rt; runner.count_stop());
    }
    assert!(rt; !runner.owes());
    runner.into_served()
}

/// An item is served by the run, and then the stop item is queued.
fn serve_and_stop<R: Abort + Wait>(rt: &R, guest: &mut Guest<'_>, sender: &mut Sender) {
    serve_again(rt, guest, sender, 0);
    guest.stop(rt, 0, sender);
}

/// The worker runs its pool meanwhile.
fn run_to_stop<R: Abort + Threads + Wait + Sync>(
    rt: &R,
    worker: Guest<'_>,
    mut guest: Guest<'_>,
    sender: &mut Sender,
) {
    run_beside(
        rt,
        worker,
        &NoGate,
        || serve_and_stop(rt, &mut guest, sender),
    );
    drop(guest);
}

/// Runs a pool whose one queue has run its stop item before.
fn run_after_stop<R: Abort + Threads + Wait + Sync>(rt: &R, alloc: Global, is_counted: bool) {
    let (served, mut sender) = empty(rt, alloc, 1, Logging::new());
    let served = after_stop(rt, served, &mut sender, is_counted);
    let queues = Vec::from_array(alloc, [served]).expect(rt, "memory");
    let (pool, caller, worker) = new_pool_with_worker(rt, alloc, queues);
    let worker = Guest::new(&pool, worker);
    run_to_stop(rt, worker, Guest::new(&pool, caller), &mut sender);
    finish_all(rt, pool, 0, 1);
    drop(sender);
}

/// A stop item that ran before the pool was made counts for nothing, whether it was counted then or not: a run waits for another one.
#[test]
fn stop_item_of_before_does_not_count(rt: HostRuntime) {
    run_after_stop(&rt, rt.alloc(), false);
    run_after_stop(&rt, rt.alloc(), true);
}

/// A queue whose work asks for its item again and again, with the item and the stop item queued, and so many others.
fn restless_first<R: Abort>(rt: &R, alloc: Global, others: u32) -> Vec<Served<Logging>> {
    let (served, mut sender) = empty(rt, alloc, 1, Logging::asking(0));
    queue_item(rt, &mut sender, 0);
    sender.request_stop(1);
    drop(sender);
    let mut queues = to_stop(rt, alloc, others, 1);
    queues.insert(0, served).expect(rt, "memory");
    queues
}

/// A queue that is never empty does not keep a run from its end: its stop item counts, and so does that of a queue behind it.
#[test]
fn restless_queue_ends(rt: HostRuntime) {
    for others in 0..2u32 {
        let queues = restless_first(&rt, rt.alloc(), others);
        let (pool, caller) = new_pool(&rt, rt.alloc(), queues);
        run_alone(&rt, Guest::new(&pool, caller), others.saturating_add(1));
        drop(finish_unfinished(&rt, pool, 0, (0, 1)));
    }
}

/// A run after one that has ended returns at once, since each stop item has run: what is announced since is left.
#[test]
fn second_run_leaves_what_is_announced(rt: HostRuntime) {
    let (served, mut sender) = filled(&rt, rt.alloc(), 0);
    sender.request_stop(1);
    let queues = Vec::from_array(rt.alloc(), [served]).expect(&rt, "memory");
    let (pool, caller, other) = new_pool_with_worker(&rt, rt.alloc(), queues);
    run_alone(&rt, Guest::new(&pool, caller), 1);
    queue_item(&rt, &mut sender, 0);
    run_alone(&rt, Guest::new(&pool, other), 1);
    drop(finish_unfinished(&rt, pool, 0, (0, 1)));
    drop(sender);
}

/// With no worker nothing is run, and the call returns.
#[test]
fn no_worker_runs_nothing(rt: HostRuntime) {
    let queues = to_stop(&rt, rt.alloc(), 2, 1);
    let (pool, mut callers) = Pool::new(rt.alloc(), queues, 0).expect(&rt, "a pool");
    expect_same(&rt, callers.len(), 0);
    pool.run(&rt, callers.as_mut_slice(), &NoGate)
        .expect(&rt, "threads");
    drop(finish_unfinished(&rt, pool, 0, (0, 2)));
    drop(callers);
}
