//! The exit statuses of the program.

/// The result was written, or help or the version was asked for. Of a recording: it is legal and, if asked for drained, nothing
/// is left.
pub const WRITTEN: u8 = 0;

/// The text was refused, the file could not be read, or the output could not be written.
pub const FAILED: u8 = 1;

/// The command line was refused.
pub const WRONG_WORDS: u8 = 2;

/// Memory, or a thread, could not be had.
pub const NO_MEMORY: u8 = 3;

/// The recording is not legal, or drained was asked for and something is left.
pub const NOT_LEGAL: u8 = 4;
