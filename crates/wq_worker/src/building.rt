//! Why a worker was not made.
use std::fmt;
use thiserror::Error;
use wq_live::BuildError;

/// Memory was refused to a new queue, and the work of its worker is given back.
#[derive(Drop, Error)]
#[error("{error}")]
pub struct Unbuilt<W> {
    /// The work, as it was handed in.
    pub work: W,
    /// Why there is no queue.
    pub error: BuildError,
}

impl<W> fmt::Debug for Unbuilt<W> {
    fn fmt<O: fmt::Write>(&self, f: &mut fmt::Formatter<O>) -> fmt::Result {
        f.debug_struct("Unbuilt")
            .field("error", &self.error)
            .finish_non_exhaustive()
    }
}
