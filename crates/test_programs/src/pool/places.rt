//! What a run of a pool serves, and how long a wake waits, while all places of the ready queue are taken.
use crate::expect::expect_same;
use crate::looks::has_come;
use crate::pool::serving::{Two, new_two};
use crate::pool::team::{
    Guest, Logging, empty, finish_all, finish_unfinished, new_pool_with_worker, queue_item,
    run_beside, serve_queue, work,
};
use std::alloc::Global;
use std::process::Abort;
use std::sync::Wait;
use std::sync::atomic::AtomicU64;
use std::sync::atomic::Ordering::SeqCst;
use std::thread::{Threads, join, yield_now};
use wq_live::{Answer, Sender};
use wq_pool::{Gate, NoGate, Served};

/// So often a run meets another thread that takes each place.
const CROWDED_ROUNDS: u32 = 50;

/// So often at most a thread announces a queue while another is to be served: some seconds.
const ANNOUNCEMENTS: u32 = 400_000_000;

/// So often a thread yields to one that waits for a place.
const YIELDS: u32 = 1000;

/// Before each item it waits until the other thread has taken the last place.
#[derive(Drop)]
struct Doorway {
    begun: AtomicU64,
    taken: AtomicU64,
    late: AtomicU64,
}

impl Doorway {
    fn new() -> Doorway {
        Doorway {
            begun: AtomicU64::new(0),
            taken: AtomicU64::new(0),
            late: AtomicU64::new(0),
        }
    }
}

impl Gate for Doorway {
    fn before(&self, queue: u32, item: u32) {
        let _ = (queue, item);
        self.begun.store(1, SeqCst);
        if !has_come(&self.taken) {
            self.late.store(1, SeqCst);
        }
    }

    fn after(&self, queue: u32, item: u32) {
        let _ = (queue, item);
    }
}

/// While an item of the first queue runs, one is queued on the second, which is announced a second time.
fn take_places<R: Abort + Wait>(
    rt: &R,
    guest: &mut Guest<'_>,
    sender: &mut Sender,
    doorway: &Doorway,
) {
    assert!(rt; has_come(&doorway.begun));
    let answer = queue_item(rt, sender, 0);
    sender.request_stop(1);
    guest.wake(rt, 1, answer);
    doorway.taken.store(1, SeqCst);
}

/// One worker runs the pool, of which both queues are announced.
fn run_restless<R: Abort + Threads + Wait + Sync>(
    rt: &R,
    worker: Guest<'_>,
    mut guest: Guest<'_>,
    sender: &mut Sender,
) {
    guest.announce_all(rt, 2);
    let doorway = Doorway::new();
    run_beside(
        rt,
        worker,
        &doorway,
        || take_places(rt, &mut guest, sender, &doorway),
    );
    drop(guest);
    expect_same(rt, doorway.late.load(SeqCst), 0);
}

/// A queue whose work asks for its item again and again gives way to the other where its announcement finds no place.
#[test]
fn restless_queue_gives_way_where_no_place_is_free(rt: HostRuntime) {
    let Two {
        queues,
        mut one,
        mut two,
    } = new_two(&rt, rt.alloc(), 0);
    queue_item(&rt, &mut one, 0);
    one.request_stop(1);
    let (pool, caller, worker) = new_pool_with_worker(&rt, rt.alloc(), queues);
    let worker = Guest::new(&pool, worker);
    run_restless(&rt, worker, Guest::new(&pool, caller), &mut two);
    drop(finish_unfinished(&rt, pool, 0, (0, 1)));
    drop(two);
    drop(one);
}

/// Whether an item of the second queue has ended.
#[derive(Drop)]
struct Second {
    ended: AtomicU64,
}

impl Gate for Second {
    fn before(&self, queue: u32, item: u32) {
        let _ = (queue, item);
    }

    fn after(&self, queue: u32, item: u32) {
        let _ = item;
        if queue == 1 {
            self.ended.store(1, SeqCst);
        }
    }
}

/// Announces the first queue over and over, until an item of the second has ended. The test fails where none does meanwhile.
fn announce_on<R: Abort + Wait>(rt: &R, guest: &mut Guest<'_>, second: &Second) {
    for _ in 0..ANNOUNCEMENTS {
        if second.ended.load(SeqCst) > 0 {
            return;
        }
        let _ = guest.announce(rt, 0);
    }
    panic!(rt; "no item of the second queue has ended")
}

/// One worker runs the pool, of which both queues are announced, while another thread takes each place that gets free.
fn run_crowded<R: Abort + Threads + Wait + Sync>(rt: &R, worker: Guest<'_>, mut guest: Guest<'_>) {
    guest.announce_all(rt, 2);
    let second = Second {
        ended: AtomicU64::new(0),
    };
    run_beside(rt, worker, &second, || announce_on(rt, &mut guest, &second));
    drop(guest);
}

/// The same where others announce all the time, and take the room that was made for it: it gives way while they do.
#[test]
fn restless_queue_gives_way_to_others_places(rt: HostRuntime) {
    for _round in 0..CROWDED_ROUNDS {
        let Two {
            queues,
            mut one,
            mut two,
        } = new_two(&rt, rt.alloc(), 0);
        queue_item(&rt, &mut one, 0);
        one.request_stop(1);
        queue_item(&rt, &mut two, 0);
        two.request_stop(1);
        let (pool, caller, worker) = new_pool_with_worker(&rt, rt.alloc(), queues);
        run_crowded(&rt, Guest::new(&pool, worker), Guest::new(&pool, caller));
        drop(finish_unfinished(&rt, pool, 0, (0, 1)));
        drop(two);
        drop(one);
    }
}

/// Three queues with their stop items queued, the last with many items behind it, and a sender of each of the others.
struct Three {
    queues: Vec<Served<Logging>>,
    one: Sender,
    two: Sender,
}

fn new_three<R: Abort>(rt: &R, alloc: Global) -> Three {
    let Two {
        mut queues,
        mut one,
        mut two,
    } = new_two(rt, alloc, u32::MAX);
    one.request_stop(1);
    two.request_stop(1);
    let (last, mut three) = empty(rt, alloc, 3000, Logging::new());
    three.request_stop(1);
    for item in 0..3000u32 {
        queue_item(rt, &mut three, item);
    }
    drop(three);
    queues.push(last).expect(rt, "memory");
    Three { queues, one, two }
}

/// While an item of the last queue runs, one is queued on each of the others, and the second is announced once more.
fn take_all_places<R: Abort + Wait>(
    rt: &R,
    guest: &mut Guest<'_>,
    one: &mut Sender,
    two: &mut Sender,
    doorway: &Doorway,
) {
    assert!(rt; has_come(&doorway.begun));
    let answer = queue_item(rt, one, 0);
    guest.wake(rt, 0, answer);
    let answer = queue_item(rt, two, 0);
    guest.wake(rt, 1, answer);
    assert!(rt; guest.announce(rt, 1));
    doorway.taken.store(1, SeqCst);
}

/// Works at what is announced until nothing is, and answers how many announcements there were, of nine at most.
fn serve_announced<R: Abort + Wait>(rt: &R, guest: &mut Guest<'_>) -> u32 {
    for served in 0..9u32 {
        let Some(turn) = guest.pool.pick(rt, &mut guest.caller) else {
            return served;
        };
        let worked = work(rt, turn, 9999, &NoGate);
        guest.pool.put_back(&mut guest.caller, worked);
    }
    9
}

/// One worker runs the pool, of which the last queue alone has not run its stop item. Answers how many announcements are found then.
fn run_last<R: Abort + Threads + Wait + Sync>(
    rt: &R,
    worker: Guest<'_>,
    mut guest: Guest<'_>,
    one: &mut Sender,
    two: &mut Sender,
) -> u32 {
    assert!(rt; guest.announce(rt, 2));
    let doorway = Doorway::new();
    run_beside(
        rt,
        worker,
        &doorway,
        || take_all_places(rt, &mut guest, one, two, &doorway),
    );
    expect_same(rt, doorway.late.load(SeqCst), 0);
    let served = serve_announced(rt, &mut guest);
    drop(guest);
    served
}

/// A run that ends while no place is free leaves each queue announced, once, of which something is left.
#[test]
fn run_announces_what_it_leaves_where_no_place_is_free(rt: HostRuntime) {
    let Three {
        queues,
        mut one,
        mut two,
    } = new_three(&rt, rt.alloc());
    let (pool, mut caller, worker) = new_pool_with_worker(&rt, rt.alloc(), queues);
    serve_queue(&rt, &pool, &mut caller, 0);
    serve_queue(&rt, &pool, &mut caller, 1);
    let worker = Guest::new(&pool, worker);
    let served = run_last(&rt, worker, Guest::new(&pool, caller), &mut one, &mut two);
    expect_same(&rt, served, 3);
    finish_all(&rt, pool, 0, 3);
    drop(two);
    drop(one);
}

/// Whether one who wakes a queue has come to that, and is through with it.
#[derive(Drop)]
struct Waking {
    begun: AtomicU64,
    ended: AtomicU64,
}

/// Queues an item, which wakes the queue.
fn queue_and_wake<R: Abort + Wait>(
    rt: &R,
    guest: &mut Guest<'_>,
    sender: &mut Sender,
    waking: &Waking,
) {
    let answer = queue_item(rt, sender, 0);
    assert!(rt; matches!(answer, Answer::Queued { wakes: true, .. }));
    waking.begun.store(1, SeqCst);
    guest.wake(rt, 0, answer);
    waking.ended.store(1, SeqCst);
}

/// Picks a queue, works at it to its end and puts it back.
fn serve_next<R: Abort + Wait>(rt: &R, guest: &mut Guest<'_>) {
    let turn = guest.pool.pick(rt, &mut guest.caller).expect(rt, "a turn");
    let worked = work(rt, turn, 9, &NoGate);
    guest.pool.put_back(&mut guest.caller, worked);
}

/// Once the other has waited for a place, the queue that has it is served, and then the one that the other announced.
fn serve_before_and_after<R: Abort + Wait>(rt: &R, guest: &mut Guest<'_>, waking: &Waking) {
    assert!(rt; has_come(&waking.begun));
    for _ in 0..YIELDS {
        yield_now();
    }
    expect_same(rt, waking.ended.load(SeqCst), 0);
    serve_next(rt, guest);
    assert!(rt; has_come(&waking.ended));
    serve_next(rt, guest);
}

/// The only queue of the pool waits already while another thread wakes it.
fn wake_beside<R: Abort + Threads + Wait + Sync>(
    rt: &R,
    mut guest: Guest<'_>,
    mut other: Guest<'_>,
    sender: &mut Sender,
) {
    assert!(rt; guest.announce(rt, 0));
    let waking = Waking {
        begun: AtomicU64::new(0),
        ended: AtomicU64::new(0),
    };
    join(
        rt,
        || queue_and_wake(rt, &mut other, sender, &waking),
        || serve_before_and_after(rt, &mut guest, &waking),
    );
    drop(other);
    drop(guest);
}

/// A wake waits while all places are taken, and takes the first that gets free.
#[test]
fn wake_waits_for_a_place(rt: HostRuntime) {
    let (queue, mut sender) = empty(&rt, rt.alloc(), 1, Logging::new());
    let queues = Vec::from_array(rt.alloc(), [queue]).expect(&rt, "memory");
    let (pool, caller, other) = new_pool_with_worker(&rt, rt.alloc(), queues);
    let guest = Guest::new(&pool, caller);
    wake_beside(&rt, guest, Guest::new(&pool, other), &mut sender);
    finish_all(&rt, pool, 0, 1);
    drop(sender);
}
