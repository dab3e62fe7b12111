//! What a seat has counted of its own events. A count stops at `2^64 - 1`.

/// A sender's queueings by their answers.
#[derive(Clone, Copy, Debug, PartialEq, Eq)]
pub struct SenderCounts {
    /// Pushed.
    pub queued: u64,
    /// Found pending.
    pub pending: u64,
    /// Given back because the queue was closed.
    pub closed: u64,
    /// Given back because the queue was draining.
    pub draining: u64,
    /// Given back because other seats changed the list at each try.
    pub contended: u64,
}

/// The owner's executions, and what it chained to them.
#[derive(Clone, Copy, Debug, PartialEq, Eq)]
pub struct OwnerCounts {
    /// Chained while the queue took no push.
    pub chained: u64,
    /// Found pending by a chaining.
    pub chain_busy: u64,
    /// Executions that ended.
    pub ended: u64,
}
