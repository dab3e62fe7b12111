//! The machine of an ordered workqueue: the words of its table, what each seat keeps in private, and what one atomic step is.
#![tactic(auto)]

mod laws;
pub mod place;
mod step;

pub use laws::{chain_and_batch, each_step_keeps_sound, first_push};
pub use step::{Private, Reply, Seat, Step};
