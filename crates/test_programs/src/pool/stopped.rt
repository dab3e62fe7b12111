//! A caller that stops with a turn in hand: its queue is out, and all others go on to their ends.
ghost use Rattle.std.specs.Prelude.{All};
ghost use Rattle.wq_ready.specs.Known.{IsCallerOf};

use crate::expect::expect_same;
use crate::pool::team::{
    Counting, Guest, Logging, filled, finish_out, take_last, two_filled, work_back,
};
use std::alloc::Global;
use std::process::Abort;
use std::sync::Wait;
use std::thread::{Threads, join};
use wq_pool::{Caller, NoGate, Pool, Served, Turn};

/// Three queues, with three items queued in each.
fn three_filled<R: Abort>(rt: &R, alloc: Global) -> Vec<Served<Logging>> {
    let mut queues = two_filled(rt, alloc, 3, 3);
    let (last, sender) = filled(rt, alloc, 3);
    drop(sender);
    queues.push(last).expect(rt, "memory");
    queues
}

/// Announces queue 1, picks it, and works at one of its items.
fn work_one<R: Abort + Wait>(rt: &R, pool: &Pool<Logging>, mut caller: Caller) -> Turn<Logging>
    requires { IsCallerOf pool.now.ready caller }
{
    let is_announced = pool.announce(rt, &mut caller, 1).is_ok();
    assert!(rt; is_announced);
    let turn = pool.pick(rt, &mut caller).expect(rt, "a turn");
    drop(caller);
    work_back(rt, turn, 1, &NoGate)
}

/// Two callers serve queues 0 and 2, each in a thread of its own. How many items they ran.
fn serve_others<R: Abort + Threads + Wait + Sync>(
    rt: &R,
    pool: &Pool<Logging>,
    mut callers: Vec<Caller>,
) -> u64
    requires { All (IsCallerOf pool.now.ready) callers.items }
{
    let gate = Counting::new();
    let mut first = Guest::new(pool, take_last(rt, pool, &mut callers));
    let mut second = Guest::new(pool, take_last(rt, pool, &mut callers));
    join(
        rt,
        || first.serve(rt, 0, &gate),
        || second.serve(rt, 2, &gate),
    );
    drop(second);
    drop(first);
    drop(callers);
    gate.count()
}

/// A caller stops with a turn in hand of which it has worked a part. The others serve all other queues to their ends. The queue is
/// out then, and stays out where the turn is dropped.
#[test]
fn others_end_while_a_turn_stops(rt: HostRuntime) {
    let queues = three_filled(&rt, rt.alloc());
    let (pool, mut callers) = Pool::new(rt.alloc(), queues, 3).expect(&rt, "a pool");
    let stopped = take_last(&rt, &pool, &mut callers);
    let turn = work_one(&rt, &pool, stopped);
    expect_same(&rt, serve_others(&rt, &pool, callers), 6);
    let pool = finish_out(&rt, pool, 0, 1);
    expect_same(&rt, turn.queue(), 1);
    drop(turn);
    drop(finish_out(&rt, pool, 0, 1));
}
