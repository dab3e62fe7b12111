//! Recordings of ordered workqueues as texts: histories and traces, read a line at a time and judged as they come.
#![tactic(auto)]

mod checking;
mod count_text;
mod error;
mod finding;
mod history;
mod history_checked;
mod history_text;
mod history_words;
mod judging;
mod laws;
mod line_events;
mod lines;
mod one_item;
mod recording;
mod trace;
mod trace_checked;
mod verdict_text;
mod violation;

pub use checking::check;
pub use error::CheckError;
pub use finding::Finding;
pub use history_text::{record_history, record_steps};
pub use laws::{histories_read_back, one_verdict};
pub use violation::Violation;
