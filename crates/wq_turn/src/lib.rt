//! What a thread does with one worker while it has its queue in hand: it works on until nothing is left to do, or drains the
//! queue and takes it apart. It knows of no other queue, of no slots and of no ready queue.
#![tactic(auto)]

mod gate;
mod noted;
mod runner;
mod served;
mod worker_id;

pub use gate::{Gate, NoGate};
pub use runner::Runner;
pub use served::{Served, ServedOf};
pub use worker_id::WorkerId;
