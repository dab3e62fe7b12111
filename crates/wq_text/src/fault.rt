//! Why a text is refused.
ghost use Rattle.std.specs.Prelude.{◌≡◌};
ghost use Rattle.wq_text.specs.declared.fault.LineError.TheVariants.{Memory};

use std::alloc::AllocError;
use std::fmt;
use thiserror::Error;

/// What is wrong with a line, in the order in which it is tested. It is written as it is named.
#[derive(Clone, Copy, Debug, PartialEq, Eq)]
pub enum FaultKind {
    /// A script or a schedule over 1,048,576 bytes, or a line of a recording over 4,096.
    Size,
    /// The first line names no version of the language.
    Version,
    /// The last line does not end with LF.
    Cut,
    /// A byte outside 32 to 126.
    Bytes,
    /// A space at the beginning or at the end, or two together.
    Space,
    /// The first word begins no line of the language; in a schedule or a history the second is missing or names no step or
    /// event, or the last no cause.
    Word,
    /// A header line out of its place, or another line or the end of the text in its place.
    Header,
    /// Too few or too many words.
    Count,
    /// A word that is no number, and names none that may stand there.
    Number,
    /// None, or more than the version of the language has: 4,096 in version 1 of scripts and schedules, else 65,536.
    Items,
    /// None, or more than the language has: 62 in a script, 64 in a schedule or a history.
    Senders,
    /// Not 1 to 16 barriers.
    Barriers,
    /// No sender of the text.
    Sender,
    /// No item of the text.
    Item,
    /// No barrier of the text.
    Barrier,
    /// A number of executions that is 0 or above 65,536.
    Limit,
}

impl fmt::Display for FaultKind {
    fn fmt<W: fmt::Write>(&self, f: &mut fmt::Formatter<W>) -> fmt::Result {
        write!(f, "{self:?}")
    }
}

/// The first faulty line, counted from 1, and the first thing that is wrong with it.
#[derive(Clone, Copy, Debug, PartialEq, Eq, Error)]
#[error("line {line}: {kind}")]
pub struct ScriptError {
    /// The line, counted from 1.
    pub line: u64,
    /// The first thing that is wrong with it.
    pub kind: FaultKind,
}

/// Why a text could not be read.
#[derive(Debug, Drop, Error)]
pub enum ParseError {
    /// The allocator gave no memory.
    #[error("memory")]
    Memory,
    /// The text is not of its language.
    #[error(transparent)]
    Refused(ScriptError),
}

/// Why a line could not be read.
#[derive(Debug, Drop, Error)]
pub enum LineError {
    /// The allocator gave no memory.
    #[error("memory")]
    Memory,
    /// This is the first thing that is wrong with it.
    #[error("{0}")]
    Fault(FaultKind),
}

impl From<AllocError> for LineError {
    ghost from_gives = { λ _ e. e ≡ Memory };

    fn from(_e: AllocError) -> LineError {
        LineError::Memory
    }
}

impl From<AllocError> for ParseError {
    ghost use Rattle.wq_text.specs.declared.fault.ParseError.TheVariants as parse_errors;

    ghost from_gives = { λ _ e. e ≡ parse_errors.Memory };

    fn from(_e: AllocError) -> ParseError {
        ParseError::Memory
    }
}
