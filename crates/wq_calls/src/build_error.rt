//! Why a queue is not made.
use std::alloc::AllocError;
use thiserror::Error;

/// Why a queue was not made.
#[derive(Clone, Copy, Debug, PartialEq, Eq, Error)]
pub enum BuildError {
    /// No memory could be had.
    #[error("memory")]
    Memory,
}

impl From<AllocError> for BuildError {
    fn from(_error: AllocError) -> BuildError {
        BuildError::Memory
    }
}
