//! Items that are queued at a later tick (`queue_delayed_work` of Linux).
#![tactic(auto)]

mod answer;
mod delay;
mod rings;
mod timetable;

pub use answer::{Advance, Backwards, NoRoom};
pub use delay::Delay;
pub use wq_words::{Armed, Modified};
