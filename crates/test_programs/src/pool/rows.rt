//! Worked rows of a pool, each of plain queues and of queues whose items bring values.
ghost use Rattle.std.specs.Prelude.{◌≡◌};
ghost use Rattle.wq_ready.specs.Known.{IsCallerOf};

use crate::expect::expect_same;
use crate::pool::team::{
    WAKES, all_filled, finish_all, finish_out, finish_unfinished, new_pool, two_filled, work,
};
use crate::pool::values::{Ordered, all_with_values, two_with_values};
use std::alloc::Global;
use std::process::Abort;
use std::sync::Wait;
use wq_pool::{AnnounceError, Caller, NoGate, PoolError, PoolOf, ServedOf, TurnOf};
use wq_worker::Station;

/// As many announcements wait as there are queues, whichever they are of.
fn fill<R: Abort + Wait, K: Station + Drop>(rt: &R, pool: &PoolOf<K>, caller: &mut Caller)
    requires { IsCallerOf pool.now.ready caller.old }
{
    expect_same(rt, pool.announce(rt, caller, 0), Ok(()));
    expect_same(rt, pool.announce(rt, caller, 0), Ok(()));
    expect_same(rt, pool.announce(rt, caller, 1), Err(AnnounceError::Full));
    expect_same(
        rt,
        pool.announce(rt, caller, 2),
        Err(AnnounceError::NoQueue),
    );
    expect_same(
        rt,
        pool.wake(rt, caller, 2, WAKES),
        Err(AnnounceError::NoQueue),
    );
}

/// Works at a queue to its end, and puts it back.
fn end_turn<R: Abort, K: Station + Drop>(
    rt: &R,
    pool: &PoolOf<K>,
    caller: &mut Caller,
    turn: TurnOf<K>,
)
    requires caller { IsCallerOf pool.now.ready caller.old }
    requires turn { turn.slots ≡ pool.now.slots }
    ensures { caller.new ≡ caller.old }
{
    let worked = work(rt, turn, 9, &NoGate);
    pool.put_back(caller, worked);
}

/// The pool ends within a limit, and its two queues have run these items.
pub(crate) fn check_ended<R: Abort, K: Station + Drop>(
    rt: &R,
    pool: PoolOf<K>,
    limit: u32,
    first: &[u32],
    second: &[u32],
)
where
    K::Work: Drop + Ordered,
    K::Book: Drop,
{
    let finished = pool.finish(limit).expect(rt, "all finished");
    let [(zero, _), (one, _)] = finished.as_slice() else {
        panic!(rt; "not two queues")
    };
    expect_same(rt, (zero.has_run(first), one.has_run(second)), (true, true));
    drop(finished);
}

/// Two queues are in one hand, in the order in which they were announced. They are out until they are put back.
fn take_both<R: Abort + Wait, K: Station + Drop>(rt: &R, pool: PoolOf<K>, mut caller: Caller)
where
    K::Work: Drop + Ordered,
    K::Book: Drop,
    requires { IsCallerOf pool.ready caller }
{
    expect_same(rt, pool.announce(rt, &mut caller, 1), Ok(()));
    expect_same(rt, pool.announce(rt, &mut caller, 0), Ok(()));
    let one = pool.pick(rt, &mut caller).expect(rt, "a turn");
    let other = pool.pick(rt, &mut caller).expect(rt, "a second turn");
    expect_same(rt, (one.queue(), other.queue()), (1, 0));
    assert!(rt; pool.pick(rt, &mut caller).is_none());
    let pool = finish_out(rt, pool, 9, 0);
    end_turn(rt, &pool, &mut caller, one);
    end_turn(rt, &pool, &mut caller, other);
    check_ended(rt, pool, 9, &[0, 1], &[0]);
    drop(caller);
}

/// A queue that is out is named before one with something left, which was executed up to the limit.
fn take_second<R: Abort + Wait, K: Station + Drop>(rt: &R, pool: PoolOf<K>, mut caller: Caller)
where
    K::Work: Drop,
    K::Book: Drop,
    requires { IsCallerOf pool.ready caller }
{
    pool.announce(rt, &mut caller, 1).expect(rt, "room");
    let turn = pool.pick(rt, &mut caller).expect(rt, "a turn");
    let pool = finish_out(rt, pool, 1, 1);
    end_turn(rt, &pool, &mut caller, turn);
    finish_all(rt, pool, 1, 2);
    drop(caller);
}

/// A worked row of a pool of two queues.
#[derive(Clone, Copy)]
enum Row {
    /// As many announcements wait as there are queues.
    Full,
    /// Both queues are in one hand.
    InHand,
    /// What was queued and never announced is executed at the end, so many of each queue as the limit says.
    ToTheLimit,
    /// The first queue with something left is named.
    FirstLeft,
    /// The second queue is out.
    Out,
}

/// The row over queues of either kind.
fn check<R: Abort + Wait, K: Station + Drop>(
    rt: &R,
    alloc: Global,
    row: Row,
    queues: Vec<ServedOf<K>>,
)
where
    K::Work: Drop + Ordered,
    K::Book: Drop,
{
    let (pool, mut caller) = new_pool(rt, alloc, queues);
    match row {
        Row::Full => {
            fill(rt, &pool, &mut caller);
            drop(pool);
            drop(caller);
        }
        Row::InHand => take_both(rt, pool, caller),
        Row::ToTheLimit => {
            let pool = finish_unfinished(rt, pool, 1, (0, 1));
            check_ended(rt, pool, 1, &[0, 1], &[]);
            drop(caller);
        }
        Row::FirstLeft => {
            let pool = finish_unfinished(rt, pool, 1, (0, 1));
            let pool = finish_unfinished(rt, pool, 1, (1, 1));
            finish_all(rt, pool, 1, 2);
            drop(caller);
        }
        Row::Out => take_second(rt, pool, caller),
    }
}

/// The row over plain queues and over queues whose items bring values, with so many items queued in each.
fn check_both<R: Abort + Wait>(rt: &R, alloc: Global, row: Row, first: u32, second: u32) {
    check(rt, alloc, row, two_filled(rt, alloc, first, second));
    check(rt, alloc, row, two_with_values(rt, alloc, first, second));
}

#[test]
fn announced_until_full(rt: HostRuntime) {
    check_both(&rt, rt.alloc(), Row::Full, 0, 0);
}

#[test]
fn in_hand_is_out(rt: HostRuntime) {
    check_both(&rt, rt.alloc(), Row::InHand, 2, 1);
}

#[test]
fn finish_executes_to_its_limit(rt: HostRuntime) {
    check_both(&rt, rt.alloc(), Row::ToTheLimit, 2, 0);
}

#[test]
fn first_left_is_named(rt: HostRuntime) {
    check_both(&rt, rt.alloc(), Row::FirstLeft, 2, 3);
}

#[test]
fn out_before_left(rt: HostRuntime) {
    check_both(&rt, rt.alloc(), Row::Out, 2, 0);
}

/// Why no pool of these queues is made.
fn refused<K: Station + Drop>(alloc: Global, queues: Vec<ServedOf<K>>) -> Option<PoolError> {
    PoolOf::new(alloc, queues, 1).err()
}

/// A pool has 1 to 256 queues.
#[test]
fn queues_of_a_pool(rt: HostRuntime) {
    let alloc = rt.alloc();
    let none = Some(PoolError::NoQueue);
    for (count, why) in [(0, none), (1, None), (256, None), (257, none)] {
        let plain = refused(alloc, all_filled(&rt, alloc, count, 0));
        let valued = refused(alloc, all_with_values(&rt, alloc, count, 0));
        expect_same(&rt, (count, plain, valued), (count, why, why));
    }
}
