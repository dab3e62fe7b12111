//! Why the machine makes no step.
use thiserror::Error;

/// Why a step was not made, the first of these that fits. The machine is then as it was.
#[derive(Clone, Copy, Debug, PartialEq, Eq, Error)]
pub enum StepError {
    /// The seat is none of the queue's, or the step is not one of its kinds.
    #[error("no step of a seat of the queue")]
    NoSeat,
    /// A number is none of the queue's, or is chained and no item.
    #[error("no number of the queue, or chained and no item")]
    NoItem,
    /// The machine does not allow the step as it is.
    #[error("not enabled")]
    NotEnabled,
    /// No memory could be had.
    #[error("memory")]
    Memory,
}
