//! A race of live threads on one queue: senders that each queue items of their own, and one worker that serves.
#![tactic(auto)]

mod outcome;
mod race;
mod run_counter;
mod team;
mod threads;

pub use outcome::{Outcome, enter, enter_all, queued_by};
pub use race::{
    RaceError, ServesQueue, Serving, queue_all, queue_item, queue_stop, run_plan, run_team, stop,
};
pub use run_counter::RunCounter;
pub use team::Team;
pub use threads::join_wanted;
