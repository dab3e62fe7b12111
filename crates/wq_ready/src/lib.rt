//! The ready queue of a pool of workers: callers announce queues and pick them, first in first out, and each caller knows one
//! history of what all of them did.
#![tactic(auto)]

mod caller;
mod event;
mod laws;
mod ready_queue;
mod rule;
mod size;

pub use caller::Caller;
pub use event::ReadyEvent;
pub use laws::{alone, first_in_first_out};
pub use ready_queue::{AnnounceError, ReadyQueue};
pub use size::Size;
