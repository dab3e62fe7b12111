//! What happens to a ready queue.

/// What one call adds to the history of a ready queue. The caller comes first, the queue last. Contracts alone see it.
#[derive(Clone, Copy, Debug, PartialEq, Eq)]
pub enum ReadyEvent {
    /// The caller put the queue behind all that wait.
    Announce(u32, u32),
    /// The caller took the queue that had waited longest.
    Pick(u32, u32),
}
