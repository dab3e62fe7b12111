//! Why a call of a seat was refused.

use thiserror::Error;
use wq_words::LayoutError;

/// Why a call was refused. Nothing has changed then.
#[derive(Clone, Copy, Debug, PartialEq, Eq, Error)]
pub enum SeatError {
    /// The seat is no sender's.
    #[error("the seat is no sender's")]
    NotSender,
    /// The seat is no owner's.
    #[error("the seat is no owner's")]
    NotOwner,
    /// The number is no item of the queue.
    #[error("no item of the queue")]
    NoItem,
    /// The number is no barrier of the queue.
    #[error("no barrier of the queue")]
    NoBarrier,
    /// No try was allowed.
    #[error("no try was allowed")]
    NoTries,
    /// The queue is closed.
    #[error("the queue is closed")]
    Closed,
    /// The queue drains.
    #[error("the queue drains")]
    Draining,
    /// The queue does not drain.
    #[error("the queue does not drain")]
    NotDraining,
    /// The queue is open.
    #[error("the queue is open")]
    Open,
    /// A number that was taken has not begun.
    #[error("a number that was taken has not begun")]
    SomeWait,
    /// All that was taken has begun.
    #[error("all that was taken has begun")]
    NoneWaits,
    /// A number runs.
    #[error("a number runs")]
    Running,
    /// No number runs.
    #[error("no number runs")]
    NoneRuns,
    /// The seat is not vacant.
    #[error("the seat is not vacant")]
    InUse,
    /// All senders of the queue were handed out.
    #[error("all senders of the queue were handed out")]
    NoSender,
    /// The queue has not run to its end.
    #[error("the queue has not run to its end")]
    NotDone,
    /// No memory could be had.
    #[error("memory")]
    Memory,
    /// The size is out of its limits.
    #[error("{0}")]
    Layout(LayoutError),
}
