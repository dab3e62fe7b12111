//! A worker whose items bring values, as it serves in a thread of its own, and as it runs up to a limit.
ghost use Rattle.std.specs.Prelude.{◌≡◌};

use super::worker::{
    Keeping, Step, TWO_BACK, Team, destroy, four_pairs, new_team, play_out, queue,
};
use crate::expect::expect_same;
use crate::seats::FIRST;
use crate::worker::team::new_parker;
use crossbeam_utils::sync::{Parker, Unparker};
use std::alloc::Global;
use std::hint::spin_loop;
use std::process::Abort;
use std::sync::Wait;
use std::thread::{Threads, join_mut};
use wq_live::{Answer, Spins};
use wq_value_worker::{ValueFollow, ValueWork, ValueWorker};
use wq_values::{ValueAnswer, ValueSender};

/// How many items of its own each of two senders queues.
const OWN: u32 = 64;

/// What an item brings.
fn value_of(item: u32) -> u64 {
    u64::from(item).wrapping_mul(3)
}

/// Queues an item with its value, and wakes the worker where the list was empty: a worker that serves never rests, so `wakes` says
/// nothing of it.
fn queue_waking<R: Abort + Wait>(
    rt: &R,
    sender: &mut ValueSender<u64>,
    item: u32,
    unparker: &Unparker,
)
    ensures { sender.new.known.queue ≡ sender.old.known.queue }
{
    assert!(rt; item < sender.layout().items);
    match sender.queue_value_wait(rt, item, value_of(item)) {
        ValueAnswer::Queued { first, .. } => {
            if first {
                unparker.unpark();
            }
        }
        _ => panic!(rt; "item {item}"),
    }
}

/// A pause in which the worker comes to park.
fn pause_long() {
    for _ in 0..20_000u32 {
        spin_loop();
    }
}

/// Queues the sender's own items in order, with a longer pause before each eighth.
fn queue_own<R: Abort + Wait>(rt: &R, sender: &mut ValueSender<u64>, unparker: &Unparker)
    ensures { sender.new.known.queue ≡ sender.old.known.queue }
{
    let from = sender.number().wrapping_mul(OWN);
    for item in from..from.wrapping_add(OWN) {
        if item % 8 == 0 {
            pause_long();
        }
        queue_waking(rt, sender, item, unparker);
    }
}

/// Two senders queue their own items in threads, and then one of them the stop item.
fn queue_and_stop<R: Abort + Threads + Wait + Sync>(
    rt: &R,
    first: &mut ValueSender<u64>,
    second: &mut ValueSender<u64>,
    unparker: &Unparker,
)
    ensures { (first.new.known.queue ≡ first.old.known.queue) × (second.new.known.queue ≡ second.old.known.queue) }
{
    join_mut(
        rt,
        &mut || queue_own(rt, first, unparker),
        &mut || queue_own(rt, second, unparker),
    );
    if let Answer::Queued { first: true, .. } = second.request_stop(u32::MAX) {
        unparker.unpark();
    }
}

fn serve<R: Abort + Wait, V: Drop, W: ValueWork<V>>(
    rt: &R,
    worker: &mut ValueWorker<V, W>,
    parker: &mut Parker,
)
    ensures { worker.new.worker.queue ≡ worker.old.worker.queue }
{
    assert!(rt; !worker.is_closed() && !worker.is_draining());
    worker.serve(rt, parker);
}

/// The worker serves in a thread beside its senders.
fn serve_beside<R: Abort + Threads + Wait + Sync, W: ValueWork<u64> + Send>(
    rt: &R,
    alloc: Global,
    worker: &mut ValueWorker<u64, W>,
    first: &mut ValueSender<u64>,
    second: &mut ValueSender<u64>,
)
    ensures { worker.new.worker.queue ≡ worker.old.worker.queue }
{
    let (mut parker, unparker) = new_parker(rt, alloc);
    join_mut(
        rt,
        &mut || serve(rt, worker, &mut parker),
        &mut || queue_and_stop(rt, first, second, &unparker),
    );
}

/// Each item ran with its value, and each sender's in their order.
fn expect_in_order<R: Abort>(rt: &R, ran: &[(u32, u64)]) {
    let mut next = (0u32, OWN);
    for &(item, value) in ran {
        expect_same(rt, (item, value), (item, value_of(item)));
        if item < OWN {
            expect_same(rt, item, next.0);
            next.0 = next.0.wrapping_add(1);
        } else {
            expect_same(rt, item, next.1);
            next.1 = next.1.wrapping_add(1);
        }
    }
    expect_same(rt, next, (OWN, OWN * 2));
}

/// A worker that has served is destroyed with nothing left.
fn check_served<R: Abort>(rt: &R, worker: ValueWorker<u64, Keeping<'_, R, u64>>) {
    expect_same(rt, worker.counts().executed, 129);
    let (work, book) = destroy(rt, worker, 0);
    expect_in_order(rt, work.ran.as_slice());
    expect_same(rt, work.came_back.len(), 0);
    drop(work);
    drop(book);
}

fn serve_once<R: Abort + Threads + Wait + Sync>(rt: &R, alloc: Global, spins: Spins) {
    let Team {
        mut worker,
        mut first,
        mut second,
    } = new_team(rt, alloc, OWN * 2, ValueFollow::new());
    worker.set_spins(spins);
    serve_beside(rt, alloc, &mut worker, &mut first, &mut second);
    check_served(rt, worker);
    drop(second);
    drop(first);
}

/// A worker that serves runs all that two senders queue in threads, each item with its value, is woken where it has parked, and ends
/// with the stop item, in each of 20 runs.
#[test]
fn served_worker_runs_values_and_ends(rt: HostRuntime) {
    let spins = Spins::measured(&rt).expect(&rt, "a clock that answers");
    for run in 0..20u32 {
        let is_measured = run % 2 == 0;
        let chosen = if is_measured { spins } else { Spins::default() };
        serve_once(&rt, rt.alloc(), chosen);
    }
}

/// After one execution.
const GOES_ON: &[Step] = &[
    Step::Counts(1),
    Step::RunSome(9, 3),
    Step::RunSome(9, 0),
    Step::Stop(FIRST),
    Step::First(3, 30),
    Step::RunSome(9, 1),
    Step::Counts(5),
];

/// What runs in all.
const RAN: &[(u32, u64)] = &[(0, 7), (2, 20), (5, 50), (4, 40), (3, 30)];

/// A call runs up to its limit, or until nothing waits, or the stop item ran, and the next one goes on. The counts are those of the
/// worker's own seats. A sender that the worker met goes on too.
#[test]
fn runs_up_to_a_limit(rt: HostRuntime) {
    let Team {
        mut worker,
        mut first,
        mut second,
    } = new_team(&rt, rt.alloc(), 8, four_pairs(&rt));
    queue(&rt, &mut first, 0, 7);
    queue(&rt, &mut second, 2, 20);
    expect_same(&rt, worker.run_some(0), 0);
    expect_same(&rt, worker.run_some(1), 1);
    worker.meet(&mut first);
    let team = Team {
        worker,
        first,
        second,
    };
    play_out(&rt, team, GOES_ON, 1, RAN, TWO_BACK);
}
