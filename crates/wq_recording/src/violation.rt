//! Where the first event of a recording stands that is not legal.
use wq_check::Cause;

/// The line of a recording, counted from 1, with the first event that is not legal, and what is said against it.
#[derive(Clone, Copy, Debug, PartialEq, Eq)]
pub struct Violation {
    /// The line, counted from 1.
    pub line: u64,
    /// Why its event may not come.
    pub cause: Cause,
}
