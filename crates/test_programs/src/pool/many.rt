//! A pool of many queues, which several workers run while several threads queue.
ghost use Rattle.std.specs.Prelude.{All};
ghost use Rattle.wq_ready.specs.Known.{IsCallerOf};

use crate::expect::expect_same;
use crate::pool::team::{Guest, Logging, new_queue, take_guests};
use std::alloc::Global;
use std::process::Abort;
use std::sync::{Mutex, Wait};
use std::thread::{Threads, for_each_mut, join};
use wq_live::{Answer, Sender};
use wq_pool::{Caller, NoGate, Pool, Served};
use wq_words::Layout;

/// More than a word has bits, so that no set of queues fits into one.
const QUEUES: u32 = 80;

const WORKERS: u32 = 4;

/// So many threads queue, each with a sender of each queue.
const THREADS: u32 = 3;

/// So many senders a queue has: one for each thread, and the worker's.
const SENDERS: u32 = 4;

/// So many items each thread queues on each queue.
const OWN: u32 = 8;

/// So many items a queue has, which are those of all threads.
const ITEMS: u32 = 24;

const RUNS: u32 = 10;

/// Empty queues, and their senders: those of a queue stand beside each other, one for each thread.
struct Queues {
    served: Vec<Served<Logging>>,
    senders: Vec<Mutex<Sender>>,
}

/// Puts the senders of a queue behind those of others, each under a lock of its own.
fn lock_each<R: Abort>(rt: &R, senders: &mut Vec<Mutex<Sender>>, own: Vec<Sender>) {
    for sender in own {
        senders.push(Mutex::new(sender)).expect(rt, "memory");
    }
}

fn new_queues<R: Abort>(rt: &R, alloc: Global) -> Queues {
    let layout = Layout::new(ITEMS, 1, SENDERS).expect(rt, "a layout");
    let (mut all, mut senders) = (Vec::new(alloc), Vec::new(alloc));
    for _ in 0..QUEUES {
        let (served, own) = new_queue(rt, alloc, layout, Logging::new());
        all.push(served).expect(rt, "memory");
        lock_each(rt, &mut senders, own);
    }
    Queues {
        served: all,
        senders,
    }
}

/// Queues an item of the queue, in as many tries as it takes.
fn queue_settled<R: Abort + Wait>(rt: &R, sender: &mut Sender, item: u32) -> Answer {
    assert!(rt; item < sender.layout().items);
    sender.queue(rt, item)
}

/// A thread queues an item on each queue, and wakes the queue where that is asked for.
fn queue_on_each<R: Abort + Wait>(
    rt: &R,
    guest: &mut Guest<'_>,
    senders: &[Mutex<Sender>],
    thread: u32,
    item: u32,
) {
    for queue in 0..QUEUES {
        let place = queue.wrapping_mul(THREADS).wrapping_add(thread);
        let sender = senders.get(place as usize).expect(rt, "a sender");
        let answer = queue_settled(rt, &mut sender.lock(rt), item);
        assert!(rt; matches!(answer, Answer::Queued { .. }));
        guest.wake(rt, queue, answer);
    }
}

/// A thread queues its own items in order.
fn queue_own<R: Abort + Wait>(
    rt: &R,
    guest: &mut Guest<'_>,
    senders: &[Mutex<Sender>],
    thread: u32,
) {
    let first = thread.wrapping_mul(OWN);
    for item in first..first.wrapping_add(OWN) {
        queue_on_each(rt, guest, senders, thread, item);
    }
}

/// The first thread's senders queue the stop items.
fn stop_each<R: Abort + Wait>(rt: &R, guest: &mut Guest<'_>, senders: &[Mutex<Sender>]) {
    for queue in 0..QUEUES {
        let place = queue.wrapping_mul(THREADS);
        let sender = senders.get(place as usize).expect(rt, "a sender");
        guest.stop(rt, queue, &mut sender.lock(rt));
    }
}

/// The threads queue their own items, and when all of them have, the stop items follow.
fn queue_all<R: Abort + Threads + Wait + Sync>(
    rt: &R,
    guests: &mut [Mutex<Guest<'_>>],
    senders: &[Mutex<Sender>],
) {
    let queue = |place: usize, guest: &mut Mutex<Guest<'_>>| {
        let thread = u32::try_from(place).unwrap_or(u32::MAX);
        queue_own(rt, guest.get_mut(), senders, thread)
    };
    for_each_mut(rt, guests, THREADS as usize, &queue);
    if let Some(guest) = guests.first_mut() {
        stop_each(rt, guest.get_mut(), senders);
    }
}

/// The workers run the pool meanwhile.
fn run_meanwhile<R: Abort + Threads + Wait + Sync>(
    rt: &R,
    pool: &Pool<Logging>,
    mut workers: Vec<Caller>,
    mut guests: Vec<Mutex<Guest<'_>>>,
    senders: &[Mutex<Sender>],
)
    requires { All (IsCallerOf pool.now.ready) workers.items }
{
    join(
        rt,
        ||
            requires { All (IsCallerOf pool.now.ready) workers.items }
        {
            pool.run(rt, workers.as_mut_slice(), &NoGate)
                .expect(rt, "threads")
        },
        || queue_all(rt, guests.as_mut_slice(), senders),
    );
    drop(guests);
    drop(workers);
}

/// Whether the items of a thread were run in their order, each once.
fn ran_in_order(order: &[u32], thread: u32) -> bool {
    let first = thread.wrapping_mul(OWN);
    let last = first.wrapping_add(OWN);
    let mut next = first;
    for &item in order {
        if item >= first && item < last {
            if item != next {
                return false;
            }
            next = next.wrapping_add(1);
        }
    }
    next == last
}

/// A queue has run the items of all threads, each thread's in its order, and no others.
fn check_order<R: Abort>(rt: &R, order: &[u32]) {
    expect_same(rt, order.len(), ITEMS as usize);
    for thread in 0..THREADS {
        assert!(rt; ran_in_order(order, thread));
    }
}

/// Each queue has run so.
fn check_orders<R: Abort>(rt: &R, pool: Pool<Logging>) {
    let finished = pool.finish(0).expect(rt, "all finished");
    expect_same(rt, finished.len(), QUEUES as usize);
    for (work, _) in finished.as_slice() {
        check_order(rt, work.order.as_slice());
    }
    drop(finished);
}

/// Each of many queues is run to its end by few workers, with all that was queued on it in each sender's order, and nothing is left
/// for the end of the pool.
#[test]
fn many_queues_run_to_their_ends(rt: HostRuntime) {
    for _run in 0..RUNS {
        let Queues { served, senders } = new_queues(&rt, rt.alloc());
        let count = WORKERS.wrapping_add(THREADS);
        let (pool, mut callers) = Pool::new(rt.alloc(), served, count).expect(&rt, "a pool");
        let guests = take_guests(&rt, rt.alloc(), &pool, &mut callers, THREADS);
        run_meanwhile(&rt, &pool, callers, guests, senders.as_slice());
        check_orders(&rt, pool);
        drop(senders);
    }
}
