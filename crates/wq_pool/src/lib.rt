//! A pool: many queues, each with its worker, served by several threads, one queue by one thread at a time.
#![tactic(auto)]

mod alias;
mod finish;
mod laws;
mod pool;
mod run;
mod slots;
mod turn;

pub use alias::{Pool, PoolFault, Turn, Worked};
pub use finish::PoolFaultOf;
pub use laws::nothing_is_queued;
pub use pool::{PoolError, PoolOf};
pub use turn::{TurnOf, WorkedOf};
pub use wq_ready::{AnnounceError, Caller};
pub use wq_turn::{Gate, NoGate, Served, ServedOf};
