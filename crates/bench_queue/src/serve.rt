//! A worker that serves in this thread, and senders in threads of their own that wake it.
ghost use Rattle.wq_worker.specs.Resting.{HasNoneLeft};

use crate::benchmark::Load;
use crate::host::Host;
use crate::pace::Pace;
use crate::posts::{PushCounts, UnparkPolicy, join_all, set_spins, start};
use crate::refusal::Refusal;
use crate::run_counter::{RunCounter, shown};
use crossbeam_utils::sync::Parker;
use std::sync::{Arc, Wait};
use wq_worker::{Ran, Worker};

/// Parks where nothing waits, and rests before where that is wanted: something that was pushed keeps it from both.
fn park<R: Wait>(rt: &R, worker: &mut Worker<RunCounter>, parker: &Parker, pace: Pace)
    requires { HasNoneLeft worker.old.seen }
{
    if pace != Pace::Resting || worker.is_closed() || worker.is_draining() || worker.rest() {
        parker.park(rt);
    }
}

/// Executes until the stop item ran: `serve`, or what a loop without patience does.
pub fn serve<R: Wait>(rt: &R, worker: &mut Worker<RunCounter>, parker: &Parker, pace: Pace) {
    if pace == Pace::Patient {
        if !worker.is_closed() && !worker.is_draining() {
            worker.serve(rt, parker);
        }
        return;
    }
    for _ in rt.forever() {
        match worker.run_one() {
            Ran::Stop => return,
            Ran::Nothing => park(rt, worker, parker, pace),
            _ => {}
        }
    }
}

/// Closes the queue and executes what is left of it, so that no sender waits for an item that would be pending for ever. How
/// many items ran in all.
fn finish(worker: Worker<RunCounter>) -> Result<u64, Refusal> {
    match worker.destroy(u32::MAX) {
        Ok((work, _book)) => Ok(work.count()),
        Err(_unfinished) => Err(Refusal::Unfinished),
    }
}

/// Serves while the senders queue, until so many items ran, and then closes the queue and executes the rest, which ends them.
/// How many items ran, and what the senders did.
pub fn run<R: Host>(rt: &R, load: Load) -> Result<(u64, PushCounts), Refusal> {
    let shown = shown(rt.alloc())?;
    let work = RunCounter::new(load.total.max(1), Arc::try_clone(&shown)?);
    let (mut worker, mut senders) = Worker::build(rt.alloc(), load.layout(1)?, work, 1)?;
    worker.set_spins(load.spins);
    set_spins(&mut senders, load.spins);
    let parker = Parker::new(rt.alloc())?;
    let policy = if load.pace == Pace::Resting {
        UnparkPolicy::Wakes
    } else {
        UnparkPolicy::First
    };
    let threads = start(rt, senders, load.slice, policy, parker.unparker(), &shown)?;
    serve(rt, &mut worker, &parker, load.pace);
    let items = finish(worker);
    let counts = join_all(rt, threads);
    Ok((items?, counts))
}
