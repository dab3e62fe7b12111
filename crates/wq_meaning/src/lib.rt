//! What scripts of commands and schedules of steps say: their meaning as definitions, and the texts of what is answered.
//! Scripts are run by `wq_script`, over the words that threads could share; schedules are run here, by the machine of steps.
#![tactic(auto)]

mod answer;
mod error;
mod lines;
mod order;
mod replies;
mod report;
mod schedule_history;
mod schedule_output;

pub use answer::{answer_text, armed_text, modified_text, write_close};
pub use error::RunError;
pub use lines::{advance_word, either, write_left, write_line, write_named, write_row};
pub use order::ordered_tables;
pub use replies::why_text;
pub use report::{ReportCounts, write_count};
pub use schedule_history::steps_history;
pub use schedule_output::{one_output, run_steps};
