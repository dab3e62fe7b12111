//! An ordered workqueue that threads share: senders queue numbers without a lock, and one owner takes and executes them.
#![tactic(auto)]

mod bare;
mod making;
mod owner;
mod pair;
mod paired;
mod sender;

pub use making::build;
pub use owner::Owner;
pub use pair::Pair;
pub use sender::Sender;
pub use wq_calls::{
    BuildError, Done, OwnerCounts, SenderCounts, Spins, accepted_adds_up, chained_is_accepted,
    closed_is_closed, counts_are_own, counts_stay, executions_grow, flushed_in_halves, held_stays,
    no_longer_held, own_events_between, own_events_grow, own_events_stay, own_is_accepted,
    owner_stays, pending_was_pending, posted_is_accepted, queued_is_accepted, seen_goes_on,
    unheld_stays,
};
pub use wq_words::{Answer, Posted};
