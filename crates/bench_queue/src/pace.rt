//! How the owner, or a worker, goes from one take to the next.
use std::hint::spin_loop;
use wq_live::Spins;
use wq_worker::SHORT_TAKE;

/// With patience or without, and whether it rests before it parks.
#[derive(Clone, Copy, PartialEq, Eq)]
pub enum Pace {
    /// Some time passes after a short take, as `Worker::serve` has it.
    Patient,
    /// The next take comes at once.
    Eager,
    /// The next take comes at once, and a worker that finds nothing rests before it parks, so that its senders wake it on
    /// `wakes` alone.
    Resting,
}

impl Pace {
    /// Passes a pause after a short take of so many numbers, or none.
    pub fn after_take(self, count: u64, spins: Spins) {
        if self == Pace::Patient && count < u64::from(SHORT_TAKE) {
            spins.pass();
        } else if count == 0 {
            spin_loop();
        }
    }
}
