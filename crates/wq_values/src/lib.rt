//! An ordered workqueue whose items bring values: senders queue a value with each item, without a lock, and one owner takes and
//! executes the items, each with what its own queueing brought.
#![tactic(auto)]

mod making;
mod paired;
mod value_owner;
mod value_pair;
mod value_sender;

pub use making::build_values;
pub use value_owner::ValueOwner;
pub use value_pair::ValuePair;
pub use value_sender::ValueSender;
pub use wq_calls::{
    BuildError, Done, OwnerCounts, SenderCounts, Spins, ValueAnswer, accepted_adds_up,
    chained_brings, chained_is_accepted, closed_is_closed, counts_are_own, counts_stay,
    executions_grow, flushed_in_halves, own_events_between, own_events_grow, own_events_stay,
    own_is_accepted, own_values_match, own_values_stay, owner_stays, owner_values_stay,
    pending_was_pending, queued_brings, queued_brings_nothing, queued_is_accepted, seen_goes_on,
    values_add_up,
};
pub use wq_words::Answer;
