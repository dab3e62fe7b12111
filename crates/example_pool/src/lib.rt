//! Two queues, whose senders queue in threads of their own, and a pool of two workers that runs both, as a user of the library
//! writes it: it stands on public contracts alone.
#![tactic(auto)]

mod flushing;
mod pool;
mod queueing;
mod work;

pub use flushing::flush;
pub use pool::{Ended, Unended, run};
pub use queueing::Told;
pub use work::RunList;
