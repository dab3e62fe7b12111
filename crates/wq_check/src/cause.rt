//! Why an event or a mark may not come.

use thiserror::Error;

/// What the events before an event say against it, or the marks before a mark: the first that fits.
#[derive(Clone, Copy, Debug, PartialEq, Eq, Error)]
pub enum Cause {
    /// The PENDING bit of the number is set; of a mark, the number waits already.
    #[error("pending")]
    Pending,
    /// The PENDING bit of the number is clear.
    #[error("idle")]
    Idle,
    /// The sender does not hold the number.
    #[error("not held")]
    NotHeld,
    /// The queue is closed.
    #[error("closed")]
    Closed,
    /// The queue drains.
    #[error("draining")]
    Draining,
    /// The queue does not drain.
    #[error("not draining")]
    NotDraining,
    /// No drain has begun.
    #[error("never drained")]
    NeverDrained,
    /// The queue neither is closed nor drains; of a number given back because the queue was closed, it is not closed.
    #[error("open")]
    Open,
    /// This number runs.
    #[error("runs {0}")]
    Runs(u32),
    /// No number runs.
    #[error("nothing runs")]
    NothingRuns,
    /// The number does not wait: it was not accepted, or has begun since.
    #[error("not waiting")]
    NotWaiting,
    /// This number is the next to begin.
    #[error("next {0}")]
    Next(u32),
    /// Something accepted has not ended.
    #[error("not ended")]
    NotEnded,
}

/// Why an event is not allowed, the first of these that fits.
#[derive(Clone, Copy, Debug, PartialEq, Eq, Error)]
pub enum EventError {
    /// The sender is none of the queue's.
    #[error("no seat of the queue")]
    NoSeat,
    /// The number is none of the queue's, or is chained and no item.
    #[error("no number of the queue, or chained and no item")]
    NoItem,
    /// The events before do not allow it, for this cause.
    #[error("not allowed: {0}")]
    NotAllowed(Cause),
}

/// Why a mark is not allowed, the first of these that fits.
#[derive(Clone, Copy, Debug, PartialEq, Eq, Error)]
pub enum MarkError {
    /// The number is no item of the queue.
    #[error("no item of the queue")]
    NoItem,
    /// The marks before do not allow it, for this cause.
    #[error("not allowed: {0}")]
    NotAllowed(Cause),
}
