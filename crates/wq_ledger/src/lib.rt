//! The ledgers of a queue that has run to its end: what each of its senders has counted, the book that they stand in, and their sums.
#![tactic(auto)]

mod balance;
mod book;
mod totals;

pub use balance::{Unbalanced, sum_all};
pub use book::{Book, Ledger};
pub use totals::Totals;
