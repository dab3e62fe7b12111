//! Three threads that queue on one queue, and an owner that executes beside them what they queued, as a user of the library writes
//! it: it stands on public contracts alone.
#![tactic(auto)]

mod executing;
mod one_worker;
mod queueing;
mod running;
mod served;
mod waking;

pub use one_worker::{RunList, queue_and_destroy};
pub use queueing::Told;
pub use running::{Met, run};
pub use served::{Destroyed, Unserved, run_served};
