//! The language of histories.
ghost use Rattle.wq_recording.specs.History.{IsOf, history_grammar};

use crate::history_words::{HistoryWord, history_word_of, line_events};
use crate::line_events::LineEvents;
use wq_text::{Language, LineError, Most, without_first};
use wq_words::{Layout, MOST_ITEMS, MOST_SENDERS};

// The lines of a history, each of two events at most.
pub(crate) struct HistoryLanguage;

impl Language for HistoryLanguage {
    type Name = HistoryWord;

    type Asked = LineEvents;

    ghost grammar = { history_grammar };

    ghost fits = { IsOf };

    fn is_version(line: &[u8]) -> bool {
        line == b"history 1".as_slice()
    }

    fn names_seats() -> bool {
        true
    }

    fn most() -> Most {
        Most {
            items: MOST_ITEMS,
            senders: MOST_SENDERS,
        }
    }

    fn name(first: &str, others: &[&str]) -> Option<HistoryWord> {
        history_word_of(first, others)
    }

    fn ask(
        layout: Layout,
        name: HistoryWord,
        first: &str,
        others: &[&str],
    ) -> Result<LineEvents, LineError> {
        line_events(layout, name, first, without_first(others))
    }
}
