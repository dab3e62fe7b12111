//! What the seats of a queue do, by whichever part of a chair a seat has: a sender's queueings, the owner's takes and executions,
//! each with or without values. `wq_live` and `wq_values` give each seat to one caller.
#![tactic(auto)]

mod answer;
mod build_error;
mod counts;
mod laws;
mod owner_seat;
mod paired;
mod row;
mod sent;
mod spins;
mod trying;
mod value_answer;
mod valued;

pub use answer::Done;
pub use build_error::BuildError;
pub use counts::{OwnerCounts, SenderCounts};
pub use laws::{
    accepted_adds_up, chained_brings, chained_is_accepted, closed_is_closed, counts_are_own,
    counts_stay, executions_grow, flushed_in_halves, held_stays, no_longer_held,
    own_events_between, own_events_grow, own_events_stay, own_is_accepted, own_values_match,
    own_values_stay, owner_stays, owner_values_stay, pending_was_pending, posted_is_accepted,
    queued_brings, queued_brings_nothing, queued_is_accepted, seen_goes_on, unheld_stays,
    values_add_up,
};
pub use owner_seat::{OwnerSeat, Phase};
pub use paired::Paired;
pub use row::Row;
pub use sent::{Sent, find_closed, hold_number, queue_number, queue_waiting, try_tries};
pub use spins::Spins;
pub use value_answer::ValueAnswer;
pub use valued::{queue_value, queue_value_wait};
