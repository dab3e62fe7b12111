//! Workers that park where nothing waits, and senders that wake them only where their answer says so.
ghost use Rattle.wq_worker.specs.Resting.{HasNoneLeft};

use crate::expect::expect_same;
use crate::seats::{FIRST, WAKES, queue_item};
use crate::worker::crew::{Job, Offer, Wakes, new_manned, run_beside};
use crate::worker::team::{Fixed, Team, destroy, new_team};
use std::alloc::Global;
use std::process::Abort;
use std::sync::Wait;
use std::thread::Threads;
use wq_worker::{Ran, Worker};

/// A run of a worker with four senders of four items each, which pause before each: how often it rested, how often it was woken, and
/// how many items it ran.
fn run_once<R: Abort + Threads + Wait + Sync>(
    rt: &R,
    alloc: Global,
    on: Wakes,
) -> (u32, u32, usize) {
    let (mut worker, mut crew) = new_manned(rt, alloc, 16);
    let offer = Offer {
        own: 4,
        pauses: 7,
        on,
    };
    let (rests, wakes) = run_beside(rt, alloc, &mut worker, &mut crew, Job::Offer(offer));
    let (work, book) = destroy(rt, worker, 0);
    drop(book);
    drop(crew);
    (rests, wakes, work.order.len())
}

/// A worker that rests before it parks is woken on `wakes` alone: once a rest and once at first, not once an item. In some of the
/// runs it rests.
#[test]
fn woken_once_a_rest(rt: HostRuntime) {
    let mut rested = 0u32;
    for _ in 0..200u32 {
        let (rests, wakes, items) = run_once(&rt, rt.alloc(), Wakes::OnRest);
        expect_same(&rt, items, 16);
        assert!(rt; wakes <= rests.wrapping_add(1), "{wakes} for {rests}");
        rested = rested.wrapping_add(rests);
    }
    assert!(rt; rested > 0);
}

/// A worker that serves never rests, and runs all where it is woken on `first` alone.
#[test]
fn runs_all_where_woken_on_first(rt: HostRuntime) {
    for _ in 0..200u32 {
        let (_, _, items) = run_once(&rt, rt.alloc(), Wakes::OnFirst);
        expect_same(&rt, items, 16);
    }
}

/// Runs until nothing waits. How many executions have ended.
fn run_out<R: Abort>(rt: &R, worker: &mut Worker<Fixed>) -> u64
    ensures { HasNoneLeft worker.new.seen }
{
    worker.run_some(9);
    let answer = worker.run_one();
    assert!(rt; answer == Ran::Nothing);
    u64::try_from(worker.counts().executed).unwrap_or(u64::MAX)
}

/// Rests, and tries again, which never rests. Whether it rested.
fn rest<R: Abort>(rt: &R, worker: &mut Worker<Fixed>) -> bool
    requires { HasNoneLeft worker.old.seen }
    ensures { HasNoneLeft worker.new.seen }
{
    assert!(rt; !worker.is_closed() && !worker.is_draining());
    let rests = worker.rest();
    assert!(rt; !worker.rest());
    rests
}

/// What a worker is ready for, and when it rests: only with nothing left, and once until it takes again.
#[test]
fn ready_and_rest(rt: HostRuntime) {
    let Team {
        mut worker,
        mut first,
        second: _,
    } = new_team(&rt, rt.alloc(), 4, Fixed::new());
    expect_same(&rt, worker.ready(), None);
    expect_same(&rt, run_out(&rt, &mut worker), 0);
    assert!(rt; rest(&rt, &mut worker));
    expect_same(&rt, queue_item(&rt, &mut first, 2), WAKES);
    expect_same(&rt, worker.ready(), Some(2));
    expect_same(&rt, worker.ready(), Some(2));
    expect_same(&rt, run_out(&rt, &mut worker), 1);
    expect_same(&rt, queue_item(&rt, &mut first, 3), FIRST);
    assert!(rt; !rest(&rt, &mut worker));
    expect_same(&rt, run_out(&rt, &mut worker), 2);
    assert!(rt; rest(&rt, &mut worker));
    drop(first);
    drop(worker);
}
