//! What ends the program without its result.
ghost use Rattle.std.specs.Prelude.{◌≡◌};
ghost use Rattle.wq_subcommand.specs.Failure.{status_of, of_read_error, of_parse_error};
ghost use Rattle.wq_subcommand.specs.declared.failure.Failure.TheVariants.{Memory};

use crate::status::{FAILED, NO_MEMORY};
use std::alloc::AllocError;
use std::fmt::Display;
use std::io;
use thiserror::Error;
use wq_meaning::RunError;
use wq_text::{ParseError, ScriptError};

/// Why a result was not written. The text is what standard error says. An error of reading words, a file or a stream is want
/// of memory or says that it is unreadable. What a text is refused for is said as the reader of its language says it: of a
/// script, a schedule or a recording where nothing else is named.
#[derive(Debug, Drop, Error)]
#[error_bound(E: Display)]
pub enum Failure<E = ScriptError> {
    /// The text is none of its language, for this.
    #[error(transparent)]
    Refused(E),
    /// The file could not be read.
    #[error("file: Unreadable")]
    Unreadable,
    /// The result could not be written.
    #[error("output: Unwritable")]
    Unwritable,
    /// Want of memory, or of a thread.
    #[error("memory")]
    Memory,
}

impl<E> Failure<E> {
    /// The exit status: 3 for want of memory or of a thread, else 1.
    pub fn status(&self) -> u8
        ensures status { result ≡ status_of self.now }
    {
        match self {
            Failure::Memory => NO_MEMORY,
            Failure::Refused(_) | Failure::Unreadable | Failure::Unwritable => FAILED,
        }
    }
}

impl<E> From<io::Error> for Failure<E> {
    ghost from_gives = { λ error failure. failure ≡ of_read_error error };

    fn from(error: io::Error) -> Failure<E> {
        match error.kind() {
            io::ErrorKind::OutOfMemory => Failure::Memory,
            _ => Failure::Unreadable,
        }
    }
}

impl From<ParseError> for Failure {
    ghost from_gives = { λ error failure. failure ≡ of_parse_error error };

    fn from(error: ParseError) -> Failure {
        match error {
            ParseError::Refused(refusal) => Failure::Refused(refusal),
            ParseError::Memory => Failure::Memory,
        }
    }
}

impl From<RunError> for Failure {
    ghost from_gives = { λ _ failure. failure ≡ Memory };

    fn from(_: RunError) -> Failure {
        Failure::Memory
    }
}

impl<E> From<AllocError> for Failure<E> {
    ghost from_gives = { λ _ failure. failure ≡ Memory };

    fn from(_: AllocError) -> Failure<E> {
        Failure::Memory
    }
}
