//! One worker of an ordered workqueue: it owns the queue and a sender, and runs a function on each item in the queued order
//! (`alloc_ordered_workqueue`).
#![tactic(auto)]

mod building;
mod drained;
mod laws;
mod patience;
mod ran;
mod serving;
mod station;
mod steps;
mod work;
mod worker;

pub use building::Unbuilt;
pub use drained::{Drained, Unfinished, left_of};
pub use laws::nothing_is_asked;
pub use patience::SHORT_TAKE;
pub use ran::Ran;
pub use serving::{close_where_unclosed, drain, run_out, run_some, serve};
pub use station::Station;
pub use steps::{end_running, is_shut, rest, take_next};
pub use work::{Follow, Work};
pub use worker::Worker;
pub use wq_ledger::{Book, Ledger, Totals, Unbalanced};
