//! Two logs, whose lines clients in threads of their own queue, and a pool of two workers that writes both, as a user of the library
//! writes it: it stands on public contracts alone.
#![tactic(auto)]

mod clients;
mod ending;
mod error;
mod logs;
mod message;
mod sending;
mod writer;

pub use ending::Written;
pub use error::LogError;
pub use logs::write;
pub use message::{Line, Log, Message};
