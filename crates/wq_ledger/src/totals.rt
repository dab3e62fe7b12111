//! The counts of a queue's seats, summed.
ghost use Rattle.std.specs.Prelude.{◌≡◌, ◌^◌, ◌<◌};
ghost use Rattle.wq_ledger.specs.Totals.{totals_of, none, with_sender, with_owner, HasRoom, HasGrown};

use wq_live::{OwnerCounts, SenderCounts};

/// The queueings of some senders by their answers, and the owner's executions.
#[derive(Clone, Copy, Debug, PartialEq, Eq)]
pub struct Totals {
    /// Queued by a sender.
    pub queued: u128,
    /// Chained by the owner while the queue took no push.
    pub chained: u128,
    /// Executions that ended.
    pub executed: u128,
    /// Found pending, by a sender or by the owner's chaining.
    pub pending: u128,
    /// Given back because the queue was closed.
    pub closed: u128,
    /// Given back because the queue was draining.
    pub draining: u128,
    /// Given back because other seats changed the list at each try.
    pub contended: u128,
}

impl Totals {
    /// The counts of one sender and of the owner.
    pub fn of(sender: SenderCounts, owner: OwnerCounts) -> Totals
        ensures sums { result ≡ totals_of sender owner }
    {
        Totals {
            queued: u128::from(sender.queued),
            chained: u128::from(owner.chained),
            executed: u128::from(owner.ended),
            pending: u128::from(sender.pending) + u128::from(owner.chain_busy),
            closed: u128::from(sender.closed),
            draining: u128::from(sender.draining),
            contended: u128::from(sender.contended),
        }
    }

    pub(crate) fn none() -> Totals
        ensures { result ≡ none }
    {
        Totals {
            queued: 0,
            chained: 0,
            executed: 0,
            pending: 0,
            closed: 0,
            draining: 0,
            contended: 0,
        }
    }

    // With one sender more.
    pub(crate) fn with(self, counts: SenderCounts) -> Totals
        requires { HasRoom self }
        ensures sums { result ≡ with_sender counts self }
        ensures room { HasGrown self result }
    {
        Totals {
            queued: self.queued + u128::from(counts.queued),
            chained: self.chained,
            executed: self.executed,
            pending: self.pending + u128::from(counts.pending),
            closed: self.closed + u128::from(counts.closed),
            draining: self.draining + u128::from(counts.draining),
            contended: self.contended + u128::from(counts.contended),
        }
    }

    // With the owner's counts.
    pub(crate) fn with_owner(self, counts: OwnerCounts) -> Totals
        requires { self.pending < 2 ^ 127 }
        ensures { result ≡ with_owner counts self }
    {
        Totals {
            queued: self.queued,
            chained: u128::from(counts.chained),
            executed: u128::from(counts.ended),
            pending: self.pending + u128::from(counts.chain_busy),
            closed: self.closed,
            draining: self.draining,
            contended: self.contended,
        }
    }
}
