//! Why nothing is said of a recording.
ghost use Rattle.std.specs.Prelude.{◌≡◌};
ghost use Rattle.wq_recording.specs.declared.error.CheckError.TheVariants.{Read, Text};
ghost use Rattle.wq_text.specs.declared.fault.ParseError.TheVariants.{Memory};

use std::alloc::AllocError;
use std::io;
use thiserror::Error;
use wq_text::ParseError;

/// Why nothing is said of a recording.
#[derive(Debug, Drop, Error)]
pub enum CheckError {
    /// The reader failed, or, with the kind `OutOfMemory`, memory for a line's bytes was refused. With the kind `TimedOut` it may
    /// be that 2^64 - 2 lines decided nothing, or that one line took 2^64 - 1 reads.
    #[error(transparent)]
    Read(io::Error),
    /// The text is refused at its first faulty line, or memory for a line's words, the checker or the finding was.
    #[error(transparent)]
    Text(ParseError),
}

impl From<io::Error> for CheckError {
    ghost from_gives = { λ error why. why ≡ Read error };

    fn from(error: io::Error) -> CheckError {
        CheckError::Read(error)
    }
}

impl From<ParseError> for CheckError {
    ghost from_gives = { λ error why. why ≡ Text error };

    fn from(error: ParseError) -> CheckError {
        CheckError::Text(error)
    }
}

impl From<AllocError> for CheckError {
    ghost from_gives = { λ _ why. why ≡ Text Memory };

    fn from(_: AllocError) -> CheckError {
        CheckError::Text(ParseError::Memory)
    }
}
