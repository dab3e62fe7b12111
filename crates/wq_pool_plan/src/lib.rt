//! A race of live threads on several queues: senders that each queue items of their own on every queue, and a pool of workers
//! that serves them. And the main of `wqrun live`: a plan's bytes in, the line of its outcome out.
#![tactic(auto)]

mod live;
mod outcome;
mod race;
mod sending;
mod teams;

pub use live::live_main;
pub use race::{Raced, run_live, run_teams};
pub use teams::Group;
