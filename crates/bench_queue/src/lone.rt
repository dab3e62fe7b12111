//! One item at a time, queued to a worker that serves in another thread and has nothing else to do.
use crate::host::Host;
use crate::pace::Pace;
use crate::posts::{offer, pause};
use crate::refusal::Refusal;
use crate::run_counter::{RunCounter, shown};
use crate::serve::serve;
use crossbeam_utils::sync::{Parker, Unparker};
use std::alloc::Global;
use std::hint::spin_loop;
use std::sync::Arc;
use std::sync::atomic::{AtomicU64, Ordering};
use std::thread::{Scope, scope, scope_env};
use std::time::{Duration, Instant};
use wq_live::{Answer, Sender};
use wq_words::Layout;
use wq_worker::Worker;

/// The sender of an item, and what it needs to wake the worker and to see that the item ran.
#[derive(Drop)]
struct Ringer {
    sender: Sender,
    unparker: Unparker,
    shown: Arc<AtomicU64, Global>,
}

impl Ringer {
    /// Queues the item and waits until the worker has run so many in all. How long that took.
    fn ring<R: Host>(&mut self, rt: &R, runs: u64) -> Result<Duration, Refusal> {
        let start = Instant::now(rt)?;
        if let Answer::Queued { first: true, .. } = offer(&mut self.sender, 0, pause) {
            self.unparker.unpark();
        }
        for _ in 0..u64::MAX {
            if self.shown.load(Ordering::SeqCst) >= runs {
                break;
            }
            spin_loop();
        }
        Ok(start.elapsed(rt)?)
    }

    /// The times of all rounds, in nanoseconds.
    fn ring_often<R: Host>(
        &mut self,
        rt: &R,
        rounds: u32,
        gap: Duration,
    ) -> Result<Vec<u128>, Refusal> {
        let mut times = Vec::new(rt.alloc());
        for round in 0..rounds {
            pass(rt, gap)?;
            let time = self.ring(rt, u64::from(round) + 1)?;
            times.push(time.as_nanos())?;
        }
        Ok(times)
    }

    /// Queues the stop item.
    fn stop(&mut self) {
        self.sender.request_stop(u32::MAX);
        self.unparker.unpark();
    }
}

/// Passes so much time, without the system's help.
fn pass<R: Host>(rt: &R, gap: Duration) -> Result<(), Refusal> {
    let start = Instant::now(rt)?;
    for _ in 0..u64::MAX {
        if start.elapsed(rt)? >= gap {
            break;
        }
        spin_loop();
    }
    Ok(())
}

/// A worker of one item, and who rings it.
fn pair(alloc: Global, unparker: Unparker) -> Result<(Worker<RunCounter>, Ringer), Refusal> {
    let shown = shown(alloc)?;
    let work = RunCounter::new(1, Arc::try_clone(&shown)?);
    let (worker, mut senders) = Worker::build(alloc, Layout::new(1, 1, 2)?, work, 1)?;
    let sender = senders.pop().ok_or(Refusal::Memory)?;
    let ringer = Ringer {
        sender,
        unparker,
        shown,
    };
    Ok((worker, ringer))
}

/// The times of all rounds, in nanoseconds, while the worker serves in a thread of its own. Without that thread no item would run, so
/// none is queued.
fn ring_beside<'s, E, R: Host>(
    scope: &Scope<'s, E>,
    rt: &'s R,
    mut worker: Worker<RunCounter>,
    parker: Parker,
    mut ringer: Ringer,
    rounds: u32,
    gap: Duration,
    pace: Pace,
) -> Result<Vec<u128>, Refusal> {
    let serving = scope
        .spawn(move || serve(rt, &mut worker, &parker, pace))
        .ok()
        .ok_or(Refusal::NoThread)?;
    let times = ringer.ring_often(rt, rounds, gap);
    ringer.stop();
    serving.join(rt);
    times
}

/// The times of all rounds, in nanoseconds, from the least on.
pub fn measure<R: Host>(
    rt: &R,
    rounds: u32,
    gap: Duration,
    pace: Pace,
) -> Result<Vec<u128>, Refusal> {
    let parker = Parker::new(rt.alloc())?;
    let (worker, ringer) = pair(rt.alloc(), parker.unparker().clone()?)?;
    let mut times = scope(scope_env(), rt, |scope| -> Result<Vec<u128>, Refusal> {
        ring_beside(scope, rt, worker, parker, ringer, rounds, gap, pace)
    })?;
    times.sort_unstable();
    Ok(times)
}
