//! The words of an ordered workqueue: its numbers, its head word, its histories of events, and what its calls answer.
#![tactic(auto)]

mod answer;
mod counts;
mod event;
mod head;
mod history;
mod laws;
mod layout;
mod numbers;

pub use answer::{Answer, Armed, Modified, Posted};
pub use event::{Event, Why};
pub use head::{BUSY, Head};
pub use history::{HistoryError, HistoryFault, check_history};
pub use laws::{
    headline, one_keeper, one_runs, one_wakes, pending_and_closed, pending_list, values_are_legal,
};
pub use layout::{Layout, LayoutError, MOST_BARRIERS, MOST_ITEMS, MOST_SENDERS, MOST_TEXT_ITEMS};
