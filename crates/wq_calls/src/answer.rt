//! What the owner of a queue answers at its end.

/// A queue that is closed and has run to the end.
#[derive(Clone, Copy, Debug, PartialEq, Eq)]
pub struct Done {
    /// How many executions have ended, at most `2^64 - 1`.
    pub ended: u64,
}
