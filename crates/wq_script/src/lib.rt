//! Scripts of commands and schedules of steps, from their texts to the bytes of their reports. A script is run by a queue that
//! threads could share, a schedule by the machine of steps. What both say is defined in `wq_meaning`, their texts in `wq_text`.
#![tactic(auto)]

mod engine;
mod executing;
mod lists;
mod output;
mod seats;
mod tally;

pub use output::run;
pub use wq_meaning::{RunError, one_output, ordered_tables, run_steps};
pub use wq_text::{
    Command, FaultKind, Follow, ParseError, Schedule, Script, ScriptError, parse, parse_steps,
    reads_decimals,
};
