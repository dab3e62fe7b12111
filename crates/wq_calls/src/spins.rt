//! How long a seat gives way to the others.
ghost use Rattle.std.specs.Prelude.{◌≤◌, IfOk};

use std::hint::spin_loop;
use std::io;
use std::time::{Clock, Instant};

/// How long the `spin_loop`s of a `Spins` are to take, in nanoseconds.
const NANOS: u128 = 750;

// How many `spin_loop`s are timed, and how often: the least time is the one in which no other work came between.
const TIMED: u32 = 512;

const TIMES: u32 = 8;

/// How many `spin_loop`s a seat passes where it gives way to the others. A sender that lost an exchange passes twice as many,
/// then four times, then eight times as many: the sender that won keeps the line of the head meanwhile and wins again, so that
/// the line moves once for many pushes. A worker that serves passes them once after a short take, so that the next one finds
/// more. Pauses that begin with one `spin_loop` cost twice the time with three senders of 256 items each. It is time alone: no
/// clause speaks of it.
#[derive(Clone, Copy, PartialEq, Eq, Debug)]
pub struct Spins {
    /// How many.
    pub count: u32,
}

/// 128 `spin_loop`s, which pass in three quarters of a microsecond where each takes 6 nanoseconds. Some processors take 45 for
/// one: there, and wherever it is not known, `measured` finds out.
impl Default for Spins {
    fn default() -> Spins {
        Spins { count: 128 }
    }
}

impl Spins {
    /// As many `spin_loop`s as pass in three quarters of a microsecond, from 8 to 512. It takes some 30 microseconds to find
    /// out, some 200 where a `spin_loop` takes 45 nanoseconds, once for all seats of a machine. The error is the clock's.
    pub fn measured(clock: &impl Clock) -> io::Result<Spins>
        ensures bounds { IfOk result (λ p. (8 ≤ p.count) × (p.count ≤ 512)) }
    {
        let mut least = u128::MAX;
        for _ in 0..TIMES {
            let start = Instant::now(clock)?;
            pass(TIMED);
            least = least.min(start.elapsed(clock)?.as_nanos());
        }
        let count = NANOS * u128::from(TIMED) / least.max(1);
        Ok(Spins {
            count: u32::try_from(count).unwrap_or(u32::MAX).clamp(8, 512),
        })
    }

    /// Passes them.
    pub fn pass(self) {
        pass(self.count);
    }
}

fn pass(count: u32) {
    for _ in 0..count {
        spin_loop();
    }
}

/// The pauses of a sender that loses one exchange after another: twice as long, then four times, then eight times.
#[derive(Drop)]
pub(crate) struct Pauses {
    next: u32,
    most: u32,
}

impl Pauses {
    pub(crate) fn new(first: Spins) -> Pauses {
        Pauses {
            next: first.count.saturating_mul(2),
            most: first.count.saturating_mul(8),
        }
    }

    pub(crate) fn pass(&mut self) {
        pass(self.next);
        self.next = self.next.saturating_mul(2).min(self.most);
    }
}
