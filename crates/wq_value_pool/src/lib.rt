//! Pools of workers whose items bring values: those of `wq_pool`, with each item's execution handed what its own queueing brought.
#![tactic(auto)]

mod alias;
mod laws;

pub use alias::{ValuePool, ValuePoolFault, ValueServed, ValueTurn, ValueWorked};
pub use laws::{brought_goes_on, nothing_is_queued};
pub use wq_pool::{AnnounceError, Caller, Gate, NoGate, PoolError};
