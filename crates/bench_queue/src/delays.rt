//! A delay table: its items are armed, moved and cancelled, and armed again and let go tick by tick, in rounds.
ghost use Rattle.std.specs.Prelude.{◌≡◌, [], IfOk};

use crate::host::Host;
use crate::owner::execute_batch;
use crate::refusal::Refusal;
use std::alloc::Global;
use std::time::{Duration, Instant};
use wq_delay::Delay;
use wq_live::{Owner, Sender, build};
use wq_words::Layout;

// How many items are due at one tick.
const A_TICK: u32 = 16;

/// How long arming, moving, cancelling and letting go took.
#[derive(Clone, Copy)]
pub struct Times {
    pub arm: Duration,
    pub replace: Duration,
    pub cancel: Duration,
    pub let_go: Duration,
}

impl Times {
    fn and(self, more: Times) -> Times {
        Times {
            arm: self.arm.saturating_add(more.arm),
            replace: self.replace.saturating_add(more.replace),
            cancel: self.cancel.saturating_add(more.cancel),
            let_go: self.let_go.saturating_add(more.let_go),
        }
    }
}

/// The owner and the sender of a new queue of so many items.
pub fn seats(alloc: Global, items: u32) -> Result<(Owner, Sender), Refusal>
    ensures { IfOk result (λ seats. seats.1.seen ≡ []) }
{
    let (owner, mut senders) = build(alloc, Layout::new(items, 1, 1)?)?;
    match senders.pop() {
        Some(sender) => Ok((owner, sender)),
        None => Err(Refusal::Memory),
    }
}

// A tick for an item, among so many.
fn due(item: u32, step: u64, ticks: u64) -> u64 {
    let place = u64::from(item).wrapping_mul(step);
    place.checked_rem(ticks).unwrap_or(0).saturating_add(1)
}

fn arm_all(delay: &mut Delay, ticks: u64) {
    for item in 0..delay.layout().items {
        if item < delay.layout().items {
            let _ = delay.arm(item, due(item, 7, ticks), 1);
        }
    }
}

fn move_all(delay: &mut Delay, ticks: u64) {
    for item in 0..delay.layout().items {
        if item < delay.layout().items {
            let _ = delay.modify(item, due(item, 11, ticks), 1);
        }
    }
}

fn cancel_all(delay: &mut Delay) {
    for item in 0..delay.layout().items {
        if item < delay.layout().items {
            let _ = delay.cancel(item);
        }
    }
}

// Lets all go, tick by tick.
fn let_go(delay: &mut Delay, tick: u64, ticks: u64) {
    for after in 0..ticks {
        let _ = delay.advance(tick.saturating_add(after).saturating_add(1), 1);
    }
}

// How long each call took in a round that begins at a tick, over all items.
fn time_round<R: Host>(rt: &R, delay: &mut Delay, tick: u64, ticks: u64) -> Result<Times, Refusal> {
    let start = Instant::now(rt)?;
    arm_all(delay, ticks);
    let armed = Instant::now(rt)?;
    move_all(delay, ticks);
    let moved = Instant::now(rt)?;
    cancel_all(delay);
    let cancelled = Instant::now(rt)?;
    arm_all(delay, ticks);
    let again = Instant::now(rt)?;
    let_go(delay, tick, ticks);
    Ok(Times {
        arm: armed.duration_since(start),
        replace: moved.duration_since(armed),
        cancel: cancelled.duration_since(moved),
        let_go: again.elapsed(rt)?,
    })
}

// How long each call took in so many rounds. Each executes what it let go.
fn time_rounds<R: Host>(
    rt: &R,
    owner: &mut Owner,
    delay: &mut Delay,
    rounds: u32,
    ticks: u64,
) -> Result<Times, Refusal> {
    let none = Duration::ZERO;
    let mut times = Times {
        arm: none,
        replace: none,
        cancel: none,
        let_go: none,
    };
    for round in 0..rounds {
        let tick = u64::from(round).saturating_mul(ticks);
        times = times.and(time_round(rt, delay, tick, ticks)?);
        execute_batch(owner, u64::MAX);
    }
    Ok(times)
}

/// How long each call took in so many rounds over so many items.
pub fn measure<R: Host>(rt: &R, items: u32, rounds: u32) -> Result<Times, Refusal> {
    let ticks = u64::from((items / A_TICK).max(1));
    let (mut owner, sender) = seats(rt.alloc(), items)?;
    let mut delay = Delay::new(rt.alloc(), sender, 0).map_err(|_| Refusal::Memory)?;
    time_rounds(rt, &mut owner, &mut delay, rounds, ticks)
}
