//! What a run of a pool serves while others queue.
use crate::looks::{LOOKS, finds};
use crate::pool::team::{
    Guest, Logging, empty, finish_all, finish_unfinished, new_pool_with_worker, run_beside,
};
use example_pool::flush;
use std::alloc::Global;
use std::process::Abort;
use std::sync::Wait;
use std::thread::Threads;
use wq_live::Sender;
use wq_pool::{NoGate, Pool, Served};

const ROUNDS: u32 = 100;

/// Two empty queues, and a sender of each.
pub(crate) struct Two {
    pub(crate) queues: Vec<Served<Logging>>,
    pub(crate) one: Sender,
    pub(crate) two: Sender,
}

/// The work of the first asks for an item below 100 where one from a number on ran.
pub(crate) fn new_two<R: Abort>(rt: &R, alloc: Global, asks_from: u32) -> Two {
    let (first, one) = empty(rt, alloc, 1, Logging::asking(asks_from));
    let (second, two) = empty(rt, alloc, 1, Logging::new());
    let queues = Vec::from_array(alloc, [first, second]).expect(rt, "memory");
    Two { queues, one, two }
}

/// Whether the barrier has run, within so many looks.
pub(crate) fn is_flushed<R: Abort>(rt: &R, sender: &mut Sender) -> bool {
    finds(LOOKS, || {
        assert!(rt; 0 < sender.layout().barriers);
        sender.flush_done(0)
    })
}

/// Queues an item and a barrier behind it, and announces the queue where that wakes it.
pub(crate) fn queue_with_barrier<R: Abort + Wait>(
    rt: &R,
    guest: &mut Guest<'_>,
    sender: &mut Sender,
    queue: u32,
    item: u32,
) {
    assert!(rt; item < sender.layout().items);
    let answer = sender.queue(rt, item);
    guest.wake(rt, queue, answer);
    assert!(rt; 0 < sender.layout().barriers);
    let answer = sender.flush_begin(0, u32::MAX);
    guest.wake(rt, queue, answer);
}

/// Queues the first item and flushes, so that it is served.
pub(crate) fn serve_again<R: Abort + Wait>(
    rt: &R,
    guest: &mut Guest<'_>,
    sender: &mut Sender,
    queue: u32,
) {
    assert!(rt; 0 < sender.layout().items);
    let answer = sender.queue(rt, 0);
    guest.wake(rt, queue, answer);
    assert!(rt; 0 < sender.layout().barriers);
    assert!(rt; flush(rt, guest.pool, &mut guest.caller, queue, sender, 0, LOOKS));
}

/// Both queues are served over and over, and stopped.
fn queue_rounds<R: Abort + Wait>(
    rt: &R,
    guest: &mut Guest<'_>,
    one: &mut Sender,
    two: &mut Sender,
) {
    for _ in 0..ROUNDS {
        serve_again(rt, guest, one, 0);
        serve_again(rt, guest, two, 1);
    }
    guest.stop(rt, 0, one);
    guest.stop(rt, 1, two);
}

/// One worker runs the pool meanwhile.
fn run_while_queued<R: Abort + Threads + Wait + Sync>(
    rt: &R,
    worker: Guest<'_>,
    mut guest: Guest<'_>,
    one: &mut Sender,
    two: &mut Sender,
) {
    run_beside(
        rt,
        worker,
        &NoGate,
        || queue_rounds(rt, &mut guest, one, two),
    );
    drop(guest);
}

/// The pool after such a run.
fn run_rounds<R: Abort + Threads + Wait + Sync>(
    rt: &R,
    alloc: Global,
    asks_from: u32,
) -> Pool<Logging> {
    let Two {
        queues,
        mut one,
        mut two,
    } = new_two(rt, alloc, asks_from);
    let (pool, caller, worker) = new_pool_with_worker(rt, alloc, queues);
    let worker = Guest::new(&pool, worker);
    run_while_queued(rt, worker, Guest::new(&pool, caller), &mut one, &mut two);
    drop(two);
    drop(one);
    pool
}

/// A run goes on where nothing is announced, after items and after barriers, and serves a queue again after each rest.
#[test]
fn served_again_after_each_rest(rt: HostRuntime) {
    let pool = run_rounds(&rt, rt.alloc(), u32::MAX);
    finish_all(&rt, pool, 0, 2);
}

/// A queue that is never empty, since its work asks for its item again and again, gives way to the other queue.
#[test]
fn restless_queue_gives_way(rt: HostRuntime) {
    let pool = run_rounds(&rt, rt.alloc(), 0);
    finish_unfinished(&rt, pool, 0, (0, 1));
}
