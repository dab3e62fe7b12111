//! What clients hand over.

/// A line of a log, with its line feed.
pub type Line = Vec<u8>;

/// Which log a line is for.
#[derive(Clone, Copy, Debug, PartialEq, Eq)]
pub enum Log {
    /// The log of accesses.
    Access,
    /// The log of errors.
    Errors,
}

/// A line, and the log that it is for.
#[derive(Drop)]
pub struct Message {
    /// The log that it is for.
    pub log: Log,
    /// The line.
    pub line: Line,
}
