//! What the calls of a delay table answer.
ghost use Rattle.std.specs.Prelude.{◌≡◌};
ghost use Rattle.wq_words.specs.Armed.{armed_of, modified_of, modified_of_posted};

use std::fmt;
use thiserror::Error;
use wq_live::Sender;
use wq_words::{Answer, Armed, Modified, Posted};

// An arming with a delay of 0 is a queueing.
pub(crate) fn armed_of(answer: Answer) -> Armed
    ensures { result ≡ armed_of answer }
{
    match answer {
        Answer::Queued { first, wakes } => Armed::Queued { first, wakes },
        Answer::Pending => Armed::Pending,
        Answer::Closed => Armed::Closed,
        Answer::Contended => Armed::Contended,
        Answer::Draining => Armed::Draining,
    }
}

// A modification of an item that is not on the table is an arming.
pub(crate) fn modified_of(armed: Armed) -> Modified
    ensures { result ≡ modified_of armed }
{
    match armed {
        Armed::Queued { .. } | Armed::OnTable => Modified::WasIdle,
        Armed::Pending => Modified::Pending,
        Armed::Closed => Modified::Closed,
        Armed::Contended => Modified::Contended,
        Armed::Draining => Modified::Draining,
        Armed::TooFar => Modified::TooFar,
        Armed::Memory => Modified::Memory,
    }
}

// A modification with a delay of 0 of an item on the table is a push.
pub(crate) fn modified_of_posted(posted: Posted) -> Modified
    ensures { result ≡ modified_of_posted posted }
{
    match posted {
        Posted::Queued { .. } => Modified::Moved,
        Posted::Closed => Modified::Closed,
        Posted::Contended => Modified::Contended,
        Posted::Draining => Modified::Draining,
    }
}

/// What an advance did.
#[derive(Clone, Copy, Debug, PartialEq, Eq)]
pub struct Advance {
    /// How many due items were queued.
    pub pushed: u32,
    /// How many due items were given back because the queue is closed.
    pub refused: u32,
    /// How many items are left on the table.
    pub waiting: u32,
}

/// An advance to a tick before the present one.
#[derive(Clone, Copy, Debug, PartialEq, Eq, Error)]
#[error("the tick is before the present one")]
pub struct Backwards;

/// Memory was refused to a new delay table, which gives its sender back.
#[derive(Drop, Error)]
#[error("memory")]
pub struct NoRoom {
    /// The sender, as it was handed in.
    pub sender: Sender,
}

impl fmt::Debug for NoRoom {
    fn fmt<O: fmt::Write>(&self, f: &mut fmt::Formatter<O>) -> fmt::Result {
        f.debug_struct("NoRoom").finish_non_exhaustive()
    }
}
