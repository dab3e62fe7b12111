//! The machine of an ordered workqueue in memory, one atomic step at a time, and schedules replayed on it.
#![tactic(auto)]

mod keeper;
mod machine;
mod refusal;
mod schedule;

pub use keeper::Keeper;
pub use machine::Core;
pub use refusal::StepError;
pub use schedule::{ReplayError, replay, replay_on};
