//! Drains that resume the queue.
ghost use Rattle.std.specs.Prelude.{◌≡◌};

use crate::expect::expect_same;
use crate::seats::{FIRST, QUEUED, WAKES, queue_item};
use crate::worker::crew::{Crew, Job, balance_crew, new_manned, queue_waiting, run_beside};
use crate::worker::steps::{Step, play};
use crate::worker::team::{Fixed, destroy, destroy_having_run, new_team};
use std::alloc::Global;
use std::process::Abort;
use std::sync::Wait;
use std::sync::atomic::AtomicU64;
use std::sync::atomic::Ordering::SeqCst;
use std::thread::{Threads, yield_now};
use wq_live::{Answer, Sender};
use wq_worker::{Drained, Ran, Worker};

/// How many items of its own each of four senders queues.
const OWN: u32 = 16;

/// Item 0 asks for item 1.
const GOES_ON: &[Step] = &[
    Step::Queue(0, WAKES),
    Step::Drain(1, Drained::TooLong { left: 1 }),
    Step::IsDraining(true),
    Step::Queue(2, Answer::Draining),
    Step::Drain(1, Drained::Empty),
    Step::IsDraining(false),
    Step::Queue(2, FIRST),
    Step::Drain(0, Drained::TooLong { left: 1 }),
    Step::Drain(9, Drained::Empty),
];

/// A drain that comes to its limit leaves the queue draining, and what is queued is answered so. The next one goes on, and resumes
/// the queue once nothing is left.
#[test]
fn drain_goes_on_and_resumes(rt: HostRuntime) {
    let mut work = Fixed::new();
    work.next = Some(1);
    let mut team = new_team(&rt, rt.alloc(), 4, work);
    play(&rt, &mut team.worker, &mut team.first, GOES_ON);
    destroy_having_run(&rt, team.worker, 0, &[0, 1, 2]);
    let counts = team.first.counts();
    expect_same(&rt, (counts.queued, counts.draining), (2, 1));
    drop(team.first);
    drop(team.second);
}

const ENDS: &[Step] = &[
    Step::Queue(0, WAKES),
    Step::Queue(1, QUEUED),
    Step::Drain(0, Drained::TooLong { left: 2 }),
    Step::Run(Ran::Item(0)),
];

/// A step of a worker whose queue drains executes what waits. A destroy closes such a queue.
#[test]
fn destroy_ends_a_drain(rt: HostRuntime) {
    let mut team = new_team(&rt, rt.alloc(), 4, Fixed::new());
    play(&rt, &mut team.worker, &mut team.first, ENDS);
    destroy_having_run(&rt, team.worker, 1, &[0, 1]);
    expect_same(&rt, queue_item(&rt, &mut team.first, 2), Answer::Closed);
    drop(team.first);
    drop(team.second);
}

/// Three drains in vain, of five executions each.
const ENDLESS: &[Step] = &[
    Step::Queue(0, WAKES),
    Step::Drain(5, Drained::TooLong { left: 1 }),
    Step::IsDraining(true),
    Step::Queue(2, Answer::Draining),
    Step::Drain(5, Drained::TooLong { left: 1 }),
    Step::IsDraining(true),
    Step::Queue(2, Answer::Draining),
    Step::Drain(5, Drained::TooLong { left: 1 }),
    Step::IsDraining(true),
    Step::Queue(2, Answer::Draining),
];

/// A destroy comes to its limit, and gives the worker back with the queue closed.
fn destroy_in_vain<R: Abort>(rt: &R, worker: Worker<Fixed>, sender: &mut Sender) -> Worker<Fixed> {
    let Err(unfinished) = worker.destroy(5) else {
        panic!(rt; "a drain that ended")
    };
    expect_same(rt, unfinished.left, 1);
    assert!(rt; unfinished.worker.is_closed());
    expect_same(rt, queue_item(rt, sender, 2), Answer::Closed);
    unfinished.worker
}

/// A drain that never ends, since what it runs asks for itself, answers at its limit each time. A destroy gives such a worker back
/// again and again, with the queue closed.
#[test]
fn endless_drain_is_given_back(rt: HostRuntime) {
    let mut work = Fixed::new();
    work.next = Some(0);
    let mut team = new_team(&rt, rt.alloc(), 4, work);
    play(&rt, &mut team.worker, &mut team.first, ENDLESS);
    let worker = destroy_in_vain(&rt, team.worker, &mut team.first);
    destroy_in_vain(&rt, worker, &mut team.first);
    drop(team.first);
    drop(team.second);
}

/// Queues an item over and over, until it is queued. How often it was answered that the queue drains.
fn queue_through<R: Abort + Wait>(rt: &R, sender: &mut Sender, item: u32) -> u32
    ensures { sender.new.queue ≡ sender.old.queue }
{
    let mut drains = 0u32;
    for _ in rt.forever() {
        let answer = queue_waiting(rt, sender, item);
        if answer != Answer::Draining {
            assert!(rt; matches!(answer, Answer::Queued { .. }));
            return drains;
        }
        drains = drains.wrapping_add(1);
        yield_now();
    }
    unreachable!()
}

/// Queues the sender's own items in order, each until it is through. The first queueing meets the drain that waits for it. How often
/// it was answered that the queue drains.
pub(crate) fn queue_own<R: Abort + Wait>(rt: &R, sender: &mut Sender, met: &AtomicU64) -> u32
    ensures { sender.new.queue ≡ sender.old.queue }
{
    let first = sender.number().wrapping_mul(OWN);
    expect_same(rt, queue_waiting(rt, sender, first), Answer::Draining);
    met.fetch_add(1, SeqCst);
    let mut drains = 1u32;
    for item in first..first.wrapping_add(OWN) {
        drains = drains.wrapping_add(queue_through(rt, sender, item));
    }
    drains
}

/// Drains, by up to two executions a call once each sender has met the drain, until as many have ended as are queued.
pub(crate) fn drain_until_through<R: Wait>(rt: &R, worker: &mut Worker<Fixed>, met: &AtomicU64)
    ensures { worker.new.queue ≡ worker.old.queue }
{
    for _ in rt.forever() {
        if met.load(SeqCst) < 4 {
            yield_now();
            continue;
        }
        worker.drain(2);
        if worker.counts().executed > u128::from(OWN) * 4 {
            return;
        }
    }
    unreachable!()
}

/// Begins a drain that comes to its limit at once, with the stop item left, and goes on with it while four senders queue in threads.
/// How often they were answered that the queue drains.
fn drain_beside<R: Abort + Threads + Wait + Sync>(
    rt: &R,
    alloc: Global,
    worker: &mut Worker<Fixed>,
    crew: &mut Crew,
) -> u32
    ensures worker { worker.new.queue ≡ worker.old.queue }
    ensures pairs { (crew.new.first.queue ≡ crew.old.first.queue) × (crew.new.second.queue ≡ crew.old.second.queue)
        × (crew.new.third.queue ≡ crew.old.third.queue) × (crew.new.fourth.queue ≡ crew.old.fourth.queue) }
    ensures last { crew.new.last.queue ≡ crew.old.last.queue }
{
    expect_same(rt, crew.last.request_stop(1), WAKES);
    expect_same(rt, worker.drain(0), Drained::TooLong { left: 1 });
    let (_, drains) = run_beside(rt, alloc, worker, crew, Job::Through);
    drains
}

/// Whether each of four senders' items ran, once each and in order.
fn ran_in_order(order: &[u32]) -> bool {
    let mut next = [0, OWN, OWN * 2, OWN * 3];
    for &item in order {
        let place = usize::try_from(item / OWN).unwrap_or(usize::MAX);
        match next.get_mut(place) {
            Some(number) if *number == item => *number += 1,
            _ => return false,
        }
    }
    next == [OWN, OWN * 2, OWN * 3, OWN * 4]
}

/// Four senders queue from threads of their own, each item until it is through, while the worker drains and resumes. Each meets one
/// drain at least.
fn run_once<R: Abort + Threads + Wait + Sync>(rt: &R, alloc: Global) {
    let (mut worker, mut crew) = new_manned(rt, alloc, OWN * 4);
    let drains = drain_beside(rt, alloc, &mut worker, &mut crew);
    assert!(rt; !worker.is_draining());
    let (work, mut book) = destroy(rt, worker, 0);
    assert!(rt; ran_in_order(work.order.as_slice()));
    let totals = balance_crew(rt, alloc, &mut book, &mut crew);
    expect_same(rt, (totals.queued, totals.executed), (65, 65));
    expect_same(
        rt,
        (totals.draining, totals.closed),
        (u128::from(drains), 0),
    );
    assert!(rt; drains >= 4, "{drains}");
    drop(book);
    drop(crew);
}

#[test]
fn senders_get_through_drains(rt: HostRuntime) {
    for _ in 0..50u32 {
        run_once(&rt, rt.alloc());
    }
}
