//! Histories as rows of numbers, as a program that is not proved writes them down, and their check.
#![tactic(auto)]

mod checking;
mod code;
mod row;

pub use checking::{RowError, RowsError, check_rows};
pub use code::check_code;
pub use row::{EventRow, event_of};
