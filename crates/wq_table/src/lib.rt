//! The words of a queue as threads share them: the rule of their table, and each atomic step of a seat.
#![tactic(auto)]

mod chair;
mod making;
mod table;
mod values;

pub use chair::Chair;
pub use making::chairs;
pub use table::{First, Part, Second, Stage, WhichPart};
pub use values::ValuePart;
