//! Why the logs were not written.
use crate::writer::Writer;
use std::alloc::AllocError;
use thiserror::Error;
use wq_worker::Unbuilt;

/// Why the logs were not written to their end.
#[derive(Clone, Copy, Debug, PartialEq, Eq, Error)]
pub enum LogError {
    /// No memory could be had.
    #[error("no memory")]
    Memory,
    /// No thread could be had for the workers.
    #[error("no thread")]
    Thread,
    /// This log's queue was not in the pool when all workers had ended.
    #[error("the queue {queue} is out")]
    Out { queue: u32 },
}

impl From<AllocError> for LogError {
    fn from(_error: AllocError) -> LogError {
        LogError::Memory
    }
}

impl From<Unbuilt<Writer>> for LogError {
    fn from(_unbuilt: Unbuilt<Writer>) -> LogError {
        LogError::Memory
    }
}
