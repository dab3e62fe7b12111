//! Texts of scripts and of schedules: from the bytes of a text to its commands or its steps, or to its first faulty line
//! with the first fault on it. Each language has two versions; the first line of a text says which it is in.
#![tactic(auto)]

mod arguments;
mod command;
mod fault;
mod header;
mod keyword;
mod line;
mod schedule;
mod schedule_text;
mod script;
mod script_text;
mod text;
mod turn;
mod word;

pub use arguments::{item, no_word, one_word};
pub use command::{Command, Follow};
pub use fault::{FaultKind, LineError, ParseError, ScriptError};
pub use header::{Awaited, Most};
pub use line::{Language, read_line};
pub use schedule::Schedule;
pub use schedule_text::parse_steps;
pub use script::{MOST_SCRIPT_SENDERS, Script};
pub use script_text::parse;
pub use text::{MOST_BYTES, layout_at_end};
pub use turn::{number_of_queue, seat_and_number, why_of, without_first, without_last};
pub use word::reads_decimals;
