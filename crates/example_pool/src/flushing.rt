//! A flush of a pool's queue, in two halves: between them some worker of the pool runs the barrier.
ghost use Rattle.std.specs.Prelude.{◌≡◌, ◌<◌, [], IsTrue};
ghost use mathlib.Core.List.{IsPrefix};
ghost use Rattle.wq_live.specs.Answers.{HasFlushed};
ghost use Rattle.wq_live.specs.Known.{Sees, IsSame};
ghost use Rattle.wq_pool.specs.History.{accepted, ended};
ghost use Rattle.wq_pool.specs.Known.{IsCallerOf};
ghost use Rattle.wq_pool.specs.Numbers.{barrier_number};

use std::sync::Wait;
use std::thread::yield_now;
use wq_live::{Answer, Sender, flushed_in_halves, seen_goes_on};
use wq_pool::{Caller, PoolOf};
use wq_worker::Station;

/// Looks so many times, with a yield behind each, whether the barrier has run.
fn has_run(sender: &mut Sender, barrier: u32, looks: u32) -> bool
    requires { barrier < sender.old.layout.barriers }
    ensures seen { Sees [] 0 sender.old sender.new }
    ensures flushed { IsTrue result → HasFlushed (barrier_number sender.old.layout barrier) sender.new.seen }
{
    seen_goes_on();
    sender.legal();
    for _ in 0..looks {
        if sender.flush_done(barrier) {
            return true;
        }
        yield_now();
    }
    false
}

/// Queues a barrier of the pool's queue of this number, and looks so many times whether it has run. Where it is true, all has ended
/// that the sender knew to be accepted. Where it is false nothing is said: the barrier was not queued, has not run yet, or the pool has
/// no such queue, and then nobody was told of it.
pub fn flush<R: Wait, K: Station + Drop>(
    rt: &R,
    pool: &PoolOf<K>,
    caller: &mut Caller,
    queue: u32,
    sender: &mut Sender,
    barrier: u32,
    looks: u32,
) -> bool
    requires caller { IsCallerOf pool.now.ready caller.old }
    requires barrier { barrier < sender.old.layout.barriers }
    ensures caller { IsCallerOf pool.now.ready caller.new }
    ensures same { IsSame sender.old sender.new }
    ensures ended { IsTrue result → IsPrefix (accepted sender.old.seen) (ended sender.new.seen) }
{
    seen_goes_on();
    flushed_in_halves();
    let answer = sender.flush_begin(barrier, u32::MAX);
    if pool.wake(rt, caller, queue, answer).is_err() {
        return false;
    }
    match answer {
        Answer::Queued { .. } => has_run(sender, barrier, looks),
        Answer::Pending | Answer::Closed | Answer::Contended | Answer::Draining => false,
    }
}
