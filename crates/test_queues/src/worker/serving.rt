//! A worker that serves in a thread, and parks where nothing waits.
use crate::expect::expect_same;
use crate::seats::queue_item;
use crate::worker::team::{Fixed, Team, is_pending, new_parker, new_team, serve, stop};
use crossbeam_utils::sync::Unparker;
use std::alloc::Global;
use std::process::Abort;
use std::sync::Wait;
use std::thread::{Threads, join, sleep, yield_now};
use std::time::{Clock, Duration};
use wq_live::{Answer, Sender};

/// What a sender does beside a worker that serves.
#[derive(Clone, Copy)]
enum Beside {
    Late,
    Unseen,
    Barriers,
}

fn is_queued(answer: Answer) -> bool {
    matches!(answer, Answer::Queued { .. })
}

/// Queues an item after a while, and then the stop item. Whether each was queued.
fn queue_late<R: Abort>(rt: &R, sender: &mut Sender, unparker: &Unparker) -> (bool, bool) {
    for _ in 0..1000u32 {
        yield_now();
    }
    let answer = queue_item(rt, sender, 1);
    unparker.unpark();
    (is_queued(answer), is_queued(stop(sender, unparker)))
}

/// What a sender does, and whether it saw what it is to see.
fn send<R: Abort + Clock>(
    rt: &R,
    sender: &mut Sender,
    unparker: &Unparker,
    what: Beside,
) -> (bool, bool) {
    match what {
        Beside::Late => queue_late(rt, sender, unparker),
        Beside::Unseen => {
            let answer = stop_unseen(rt, sender, unparker);
            (answer == Answer::Pending, true)
        }
        Beside::Barriers => look_behind_barriers(rt, sender, unparker),
    }
}

/// The worker serves, and its first sender does so beside it.
fn serve_beside<R: Abort + Clock + Threads + Wait + Sync>(
    rt: &R,
    alloc: Global,
    team: &mut Team<Fixed>,
    what: Beside,
) -> (bool, bool) {
    let (mut parker, unparker) = new_parker(rt, alloc);
    let (_, seen) = join(
        rt,
        || serve(rt, &mut team.worker, &mut parker),
        || send(rt, &mut team.first, &unparker, what),
    );
    seen
}

/// A worker that serves parks where nothing waits, is unparked, and ends with the stop item.
#[test]
fn served_worker_is_unparked(rt: HostRuntime) {
    let mut team = new_team(&rt, rt.alloc(), 4, Fixed::new());
    let queued = serve_beside(&rt, rt.alloc(), &mut team, Beside::Late);
    expect_same(&rt, queued, (true, true));
    expect_same(&rt, team.worker.counts().executed, 2);
    drop(team);
}

/// Has an item run, and then queues the stop item and unparks nobody. Answers what a second stop request found a while later:
/// the stop item pending, or executed and queued anew.
fn stop_unseen<R: Abort + Clock>(rt: &R, sender: &mut Sender, unparker: &Unparker) -> Answer {
    queue_item(rt, sender, 1);
    unparker.unpark();
    for _ in 0..5000u32 {
        if !is_pending(rt, sender, 1) {
            break;
        }
        sleep(rt, Duration::from_millis(1));
    }
    assert!(rt; !is_pending(rt, sender, 1));
    sleep(rt, Duration::from_millis(50));
    sender.request_stop(u32::MAX);
    sleep(rt, Duration::from_millis(200));
    stop(sender, unparker)
}

/// Whether a worker that serves does not see a stop item before it is unparked.
fn parks<R: Abort + Clock + Threads + Wait + Sync>(rt: &R, alloc: Global) -> bool {
    let mut team = new_team(rt, alloc, 4, Fixed::new());
    serve_beside(rt, alloc, &mut team, Beside::Unseen).0
}

/// A worker that serves is parked where nothing waits: it does not see the stop item until it is unparked. Where the machine is
/// busy the worker may come to its look late, so there are five turns.
#[test]
fn served_worker_parks(rt: HostRuntime) {
    let mut has_parked = false;
    for _ in 0..5u32 {
        has_parked = has_parked || parks(&rt, rt.alloc());
    }
    assert!(rt; has_parked, "it went on where nothing waited");
}

/// Looks until the item is no longer pending, for ten seconds at least.
fn is_begun<R: Abort + Clock>(rt: &R, sender: &mut Sender, item: u32) -> bool {
    for _ in 0..10_000u32 {
        if !is_pending(rt, sender, item) {
            return true;
        }
        sleep(rt, Duration::from_millis(1));
    }
    false
}

/// Looks for an item that stands behind a barrier. Then queues the barrier and another item to a worker that has parked by now, if
/// the machine is not too busy, unparks it once and looks again. The stop item ends it.
fn look_behind_barriers<R: Abort + Clock>(
    rt: &R,
    sender: &mut Sender,
    unparker: &Unparker,
) -> (bool, bool) {
    let found = is_begun(rt, sender, 1);
    sleep(rt, Duration::from_millis(50));
    assert!(rt; 0 < sender.layout().barriers);
    sender.flush_begin(0, u32::MAX);
    assert!(rt; 2 < sender.layout().items);
    sender.queue_tries(2, u32::MAX);
    unparker.unpark();
    let woken = is_begun(rt, sender, 2);
    stop(sender, unparker);
    (found, woken)
}

/// A worker that serves goes on behind a barrier: an item that waits there needs no wake-up of its own, whether the worker finds
/// both as it begins to serve, or is unparked for both.
#[test]
fn served_worker_goes_on_behind_a_barrier(rt: HostRuntime) {
    let mut team = new_team(&rt, rt.alloc(), 4, Fixed::new());
    assert!(rt; 0 < team.second.layout().barriers);
    team.second.flush_begin(0, 1);
    queue_item(&rt, &mut team.second, 1);
    let begun = serve_beside(&rt, rt.alloc(), &mut team, Beside::Barriers);
    expect_same(&rt, begun, (true, true));
    expect_same(&rt, team.worker.counts().executed, 5);
    drop(team);
}
