//! Two threads that queue items with messages, and an owner that is handed them beside it, as a user of the library writes it; and
//! a worker that adds up the values of its items, call by call. Both stand on public contracts alone.
#![tactic(auto)]

mod adder;
mod executing;
mod queueing;
mod running;
mod summed;

pub use adder::Adder;
pub use executing::OwnerOutcome;
pub use queueing::{Stopped, Told};
pub use running::{Met, run};
pub use summed::{Summed, Unsummed, run_summed};
