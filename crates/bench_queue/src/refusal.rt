//! Why nothing was measured.
use std::alloc::{AllocError, AllocFailed};
use std::io;
use thiserror::Error;
use wq_live::BuildError;
use wq_pool::PoolError;
use wq_words::LayoutError;
use wq_worker::{Unbuilt, Work};

/// Why nothing was measured.
#[derive(Debug, Drop, Error)]
pub enum Refusal {
    /// Another count of words, a word that is no number, a pace that what is measured has not, or a pool without a worker or a sender.
    #[error("usage: bench_queue [eager] SENDERS SLICE TOTAL | [eager | resting] serve SENDERS SLICE TOTAL | \
        [eager] lone ROUNDS MICROS | [eager] values BYTES SENDERS SLICE TOTAL | delays ITEMS ROUNDS | large ITEMS | \
        pool QUEUES WORKERS SENDERS TOTAL | events N | marks N")]
    Words,
    /// More senders or items than a queue has.
    #[error("load: {0}")]
    Limits(#[from] LayoutError),
    /// No queue or more than a pool has, or memory for the pool.
    #[error("pool: {0}")]
    Pool(#[from] PoolError),
    /// A pool that could not be taken apart, or a worker whose destroy came to its limit.
    #[error("a queue has not run to its end")]
    Unfinished,
    /// The counts of a worker's senders do not add up to what was executed.
    #[error("the ledgers do not balance")]
    Unbalanced,
    /// What a checker is told is legal, and it says that it is not.
    #[error("not legal")]
    NotLegal,
    /// Memory for the queue, or for a checker.
    #[error("memory")]
    Memory,
    /// A thread could not be made.
    #[error("no thread")]
    NoThread,
    /// The system's clock gave no time, `/proc/self/statm` could not be read, or nothing could be printed.
    #[error("{0}")]
    System(#[from] io::Error),
}

impl Refusal {
    /// The status that the program ends with.
    pub fn status(&self) -> u8 {
        match self {
            Refusal::Words | Refusal::Limits(_) | Refusal::Pool(PoolError::NoQueue) => 2,
            _ => 3,
        }
    }
}

impl From<AllocError> for Refusal {
    fn from(_: AllocError) -> Refusal {
        Refusal::Memory
    }
}

impl<T: Drop> From<AllocFailed<T>> for Refusal {
    fn from(_: AllocFailed<T>) -> Refusal {
        Refusal::Memory
    }
}

impl<W: Work + Drop> From<Unbuilt<W>> for Refusal {
    fn from(_: Unbuilt<W>) -> Refusal {
        Refusal::Memory
    }
}

impl From<BuildError> for Refusal {
    fn from(_: BuildError) -> Refusal {
        Refusal::Memory
    }
}
