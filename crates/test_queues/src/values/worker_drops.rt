//! Each value of a worker is dropped once: by its work, with a worker that goes, or with the last seat.
use super::drops::{alive, share};
use super::worker::{Team, destroy, new_team, queue};
use crate::expect::expect_same;
use std::alloc::Global;
use std::process::Abort;
use std::sync::Arc;
use wq_value_worker::ValueFollow;
use wq_worker::Ran;

/// A work that asks for three pairs, of which the first's item is pending and the second's number is no item.
fn three_pairs<R: Abort>(rt: &R, shared: &Arc<u32>) -> ValueFollow<Arc<u32>> {
    let mut asks = ValueFollow::new();
    for &item in &[1u32, 9, 4] {
        assert!(rt; asks.push(item, share(rt, shared)).is_ok());
    }
    asks
}

/// A team on whose queue items 0, 1 and 2 stand, and whose item 0 asks for three pairs.
fn start<'a, R: Abort>(rt: &'a R, alloc: Global, shared: &Arc<u32>) -> Team<'a, R, Arc<u32>> {
    let mut team = new_team(rt, alloc, 8, three_pairs(rt, shared));
    for item in 0..3u32 {
        queue(rt, &mut team.first, item, share(rt, shared));
    }
    expect_same(rt, alive(shared), 6);
    team
}

/// A worker that goes before it took leaves what was queued to the last seat, and drops what it would have asked for.
#[test]
fn unused_worker_is_dropped(rt: HostRuntime) {
    let shared = Arc::new(rt.alloc(), 7u32).expect(&rt, "a value");
    let Team {
        worker,
        first,
        second,
    } = start(&rt, rt.alloc(), &shared);
    drop(worker);
    expect_same(&rt, alive(&shared), 3);
    drop(first);
    expect_same(&rt, alive(&shared), 3);
    drop(second);
    expect_same(&rt, alive(&shared), 0);
}

/// A worker that goes last drops what its work has, what it took and has not run, and what it queued.
#[test]
fn worker_with_a_batch_is_dropped(rt: HostRuntime) {
    let shared = Arc::new(rt.alloc(), 7u32).expect(&rt, "a value");
    let Team {
        mut worker,
        first,
        second,
    } = start(&rt, rt.alloc(), &shared);
    expect_same(&rt, worker.run_one(), Ran::Item(0));
    expect_same(&rt, alive(&shared), 6);
    drop(first);
    drop(second);
    expect_same(&rt, alive(&shared), 6);
    drop(worker);
    expect_same(&rt, alive(&shared), 0);
}

/// A worker that is destroyed leaves the values that it ran, and those that came back, to its work, and none to the book.
#[test]
fn destroyed_worker_leaves_its_values_to_its_work(rt: HostRuntime) {
    let shared = Arc::new(rt.alloc(), 7u32).expect(&rt, "a value");
    let Team {
        worker,
        first: _first,
        second: _second,
    } = start(&rt, rt.alloc(), &shared);
    let (work, book) = destroy(&rt, worker, 4);
    expect_same(&rt, (work.ran.len(), work.came_back.len()), (4, 2));
    expect_same(&rt, alive(&shared), 6);
    drop(work);
    expect_same(&rt, alive(&shared), 0);
    drop(book);
    expect_same(&rt, alive(&shared), 0);
}
