//! One worker of an ordered workqueue whose items bring values: as that of `wq_worker`, with a function that is handed the value
//! which each item's own queueing brought.
#![tactic(auto)]

mod laws;
mod value_book;
mod value_follow;
mod value_steps;
mod value_work;
mod value_worker;

pub use laws::{pairs_have_values, steps_go_on};
pub use value_book::ValueBook;
pub use value_follow::ValueFollow;
pub use value_work::ValueWork;
pub use value_worker::ValueWorker;
pub use wq_ledger::{Ledger, Totals, Unbalanced};
pub use wq_worker::{Drained, Ran, Unbuilt, Unfinished, nothing_is_asked};
