//! Each value that a pool's queues have is dropped once: with the works of a pool that is finished, or with the last that has a
//! seat of its queue.
ghost use Rattle.wq_ready.specs.Known.{IsCallerOf};

use crate::expect::expect_same;
use crate::pool::team::{finish_out, new_pool, serve_queue, work_back};
use crate::pool::values::{Ordered, Share, Valued, empty_with_values, queue_value, share_of};
use std::alloc::Global;
use std::process::Abort;
use std::sync::{Arc, Wait};
use wq_pool::{Caller, NoGate, PoolOf, ServedOf};
use wq_values::ValueSender;
use wq_worker::Station;

/// What items 0 to 2 bring, in each of two queues.
type Shares = [Share; 3];

/// How many shares there are beside these.
fn alive(shares: &Shares) -> usize {
    let mut count = 0usize;
    for share in shares.as_slice() {
        count = count.wrapping_add(Arc::strong_count(share)).wrapping_sub(1);
    }
    count
}

/// A queue of three items, each of which brings a share, and its sender.
fn three_shares<'a, R: Abort>(
    rt: &'a R,
    alloc: Global,
    shares: &Shares,
) -> (Valued<'a, R>, ValueSender<Share>) {
    let (served, mut sender) = empty_with_values(rt, alloc, 3);
    for item in 0..3u32 {
        let Ok(share) = Arc::try_clone(&shares[item as usize]) else {
            panic!(rt; "too many")
        };
        queue_value(rt, &mut sender, item, share);
    }
    (served, sender)
}

/// What goes, and its values with it.
#[derive(Clone, Copy)]
enum Going {
    Finished,
    Pool,
    Turn,
}

/// The works of a pool that is finished have all values, which go with them.
fn finish_pool<R: Abort + Wait, K: Station + Drop>(
    rt: &R,
    pool: PoolOf<K>,
    mut caller: Caller,
    shares: &Shares,
)
where
    K::Work: Drop + Ordered,
    K::Book: Drop,
    requires { IsCallerOf pool.ready caller }
{
    serve_queue(rt, &pool, &mut caller, 1);
    let finished = pool.finish(3).expect(rt, "all finished");
    let [(zero, _), (one, _)] = finished.as_slice() else {
        panic!(rt; "not two queues")
    };
    let all = [0, 1, 2].as_slice();
    expect_same(rt, (zero.has_run(all), one.has_run(all)), (true, true));
    expect_same(rt, alive(shares), 6);
    drop(finished);
    drop(caller);
}

/// A turn at the second queue that ran one item goes, with what it ran.
fn drop_turn<R: Abort + Wait, K: Station + Drop>(
    rt: &R,
    pool: &PoolOf<K>,
    caller: &mut Caller,
    shares: &Shares,
)
    requires { IsCallerOf pool.now.ready caller.old }
{
    pool.announce(rt, caller, 1).expect(rt, "room");
    let turn = pool.pick(rt, caller).expect(rt, "a turn");
    let turn = work_back(rt, turn, 1, &NoGate);
    expect_same(rt, alive(shares), 6);
    drop(turn);
    expect_same(rt, alive(shares), 5);
}

/// A turn that goes drops what its work ran, and with the last seat of its queue what it took. The pool has the others' values.
fn leave_turn<R: Abort + Wait, K: Station + Drop, S: Drop>(
    rt: &R,
    pool: PoolOf<K>,
    mut caller: Caller,
    sender: S,
    shares: &Shares,
)
where
    K::Work: Drop,
    K::Book: Drop,
    requires { IsCallerOf pool.ready caller }
{
    drop_turn(rt, &pool, &mut caller, shares);
    drop(sender);
    expect_same(rt, alive(shares), 3);
    let pool = finish_out(rt, pool, 3, 1);
    expect_same(rt, alive(shares), 3);
    drop(pool);
    drop(caller);
}

/// A pool of two queues of three items each, and the sender of the second: what goes takes its values with it.
fn go<R: Abort + Wait, K: Station + Drop, S: Drop>(
    rt: &R,
    alloc: Global,
    going: Going,
    queues: Vec<ServedOf<K>>,
    sender: S,
    shares: &Shares,
)
where
    K::Work: Drop + Ordered,
    K::Book: Drop,
{
    let (pool, caller) = new_pool(rt, alloc, queues);
    expect_same(rt, alive(shares), 6);
    match going {
        Going::Finished => {
            finish_pool(rt, pool, caller, shares);
            expect_same(rt, alive(shares), 0);
            drop(sender);
        }
        Going::Pool => {
            drop(pool);
            expect_same(rt, alive(shares), 3);
            drop(sender);
            drop(caller);
        }
        Going::Turn => leave_turn(rt, pool, caller, sender, shares),
    }
    expect_same(rt, alive(shares), 0);
}

/// Two queues of three items each, and the sender of the second.
fn two_queues<'a, R: Abort>(
    rt: &'a R,
    alloc: Global,
    shares: &Shares,
) -> (Vec<Valued<'a, R>>, ValueSender<Share>) {
    let (one, sender) = three_shares(rt, alloc, shares);
    drop(sender);
    let (other, sender) = three_shares(rt, alloc, shares);
    let queues = Vec::from_array(alloc, [one, other]).expect(rt, "memory");
    (queues, sender)
}

fn check_going<R: Abort + Wait>(rt: &R, alloc: Global, going: Going) {
    let shares = [
        share_of(rt, alloc, 0),
        share_of(rt, alloc, 1),
        share_of(rt, alloc, 2),
    ];
    let (queues, sender) = two_queues(rt, alloc, &shares);
    go(rt, alloc, going, queues, sender, &shares);
}

#[test]
fn finished_pool_leaves_values_to_its_works(rt: HostRuntime) {
    check_going(&rt, rt.alloc(), Going::Finished);
}

/// A pool that goes drops the values of its works and of its queues, but those of a queue of which somebody has a seat.
#[test]
fn dropped_pool_drops_its_values(rt: HostRuntime) {
    check_going(&rt, rt.alloc(), Going::Pool);
}

#[test]
fn dropped_turn_drops_its_values(rt: HostRuntime) {
    check_going(&rt, rt.alloc(), Going::Turn);
}
