//! What is left of a queue that is shut.
ghost use Rattle.std.specs.Prelude.{◌≡◌, ◌+◌, length};
ghost use Rattle.wq_words.specs.History.{accepted, ended, IsShut};
ghost use Rattle.wq_words.specs.Legal.{IsLegal};

use std::fmt;
use thiserror::Error;
use wq_calls::Paired;

/// What a drain answers (`drain_workqueue`).
#[derive(Clone, Copy, Debug, PartialEq, Eq)]
pub enum Drained {
    /// All that was accepted has ended.
    Empty,
    /// After as many executions as the limit, so many numbers are accepted and have not ended.
    TooLong { left: u32 },
}

/// A worker that could not be taken apart: its queue is closed, and so many numbers are accepted and have not ended.
#[derive(Drop, Error)]
#[error("{left} numbers are accepted and have not ended")]
pub struct Unfinished<K> {
    /// The worker, whose queue is closed.
    pub worker: K,
    /// How many numbers are accepted and have not ended.
    pub left: u32,
}

impl<K> fmt::Debug for Unfinished<K> {
    fn fmt<O: fmt::Write>(&self, f: &mut fmt::Formatter<O>) -> fmt::Result {
        f.debug_struct("Unfinished")
            .field("left", &self.left)
            .finish_non_exhaustive()
    }
}

/// How many numbers are accepted and have not ended.
pub fn left_of<P: Paired>(pair: &P) -> u32
    requires legal { IsLegal (P.known pair.now).layout (P.known pair.now).seen }
    requires shut { IsShut (P.known pair.now).seen }
    ensures left { result + length (ended (P.known pair.now).seen) ≡ length (accepted (P.known pair.now).seen) }
{
    if let Some(_number) = pair.running() {
        return pair.waiting() + 1;
    }
    pair.waiting()
}
