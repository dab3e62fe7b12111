//! Recorded histories and traces of ordered workqueues, checked in one pass, an event or a mark at a time.
#![tactic(auto)]

mod cause;
mod checker;
mod counts;
mod laws;
mod mark;
mod mark_counts;
mod queue;
mod seen_queue;
mod trace_checker;

pub use cause::{Cause, EventError, MarkError};
pub use checker::Checker;
pub use counts::{Counts, Report};
pub use laws::traces_show_histories;
pub use mark::Mark;
pub use mark_counts::{MarkCounts, TraceReport};
pub use trace_checker::TraceChecker;
