//! What a worker whose items bring values is ready for, and when it rests.
ghost use Rattle.wq_worker.specs.Resting.{HasNoneLeft};

use super::worker::{Keeping, Team, new_team, queue};
use crate::expect::expect_same;
use std::process::Abort;
use wq_value_worker::{ValueFollow, ValueWorker};
use wq_worker::Ran;

/// Runs until nothing waits. How many executions have ended.
fn run_out<R: Abort>(rt: &R, worker: &mut ValueWorker<u64, Keeping<'_, R, u64>>) -> u128
    ensures { HasNoneLeft worker.new.worker.seen }
{
    worker.run_some(9);
    let answer = worker.run_one();
    assert!(rt; answer == Ran::Nothing);
    worker.counts().executed
}

/// Rests, and tries again, which never rests. Whether it rested.
fn rest<R: Abort>(rt: &R, worker: &mut ValueWorker<u64, Keeping<'_, R, u64>>) -> bool
    requires { HasNoneLeft worker.old.worker.seen }
{
    assert!(rt; !worker.is_closed() && !worker.is_draining());
    let rests = worker.rest();
    assert!(rt; !worker.rest());
    rests
}

/// A worker takes what waits and names it, and is ready for nothing else; it rests only with nothing left, and once until it takes
/// again.
#[test]
fn ready_and_rest_with_values(rt: HostRuntime) {
    let Team {
        mut worker,
        mut first,
        second: _,
    } = new_team(&rt, rt.alloc(), 4, ValueFollow::new());
    expect_same(&rt, worker.ready(), None);
    expect_same(&rt, run_out(&rt, &mut worker), 0);
    assert!(rt; rest(&rt, &mut worker));
    queue(&rt, &mut first, 2, 20);
    expect_same(&rt, worker.ready(), Some(2));
    expect_same(&rt, worker.ready(), Some(2));
    expect_same(&rt, run_out(&rt, &mut worker), 1);
    expect_same(&rt, worker.ready(), None);
    expect_same(&rt, run_out(&rt, &mut worker), 1);
    queue(&rt, &mut first, 3, 30);
    assert!(rt; !rest(&rt, &mut worker));
    expect_same(&rt, run_out(&rt, &mut worker), 2);
    assert!(rt; rest(&rt, &mut worker));
    drop(first);
    drop(worker);
}
