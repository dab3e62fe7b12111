//! The language of traces.
ghost use Rattle.std.specs.Prelude.{◌≡◌, map, IfOk};
ghost use Rattle.wq_text.specs.Fault.{LineGives};
ghost use Rattle.wq_recording.specs.Trace.{IsMarkOf, sight_of, mark_gives, trace_grammar};

use crate::one_item::one_item;
use wq_check::Mark;
use wq_text::{Language, LineError, Most};
use wq_words::{Layout, MOST_ITEMS};

// What a line shows, without its item.
#[derive(Clone, Copy)]
pub(crate) enum Sight {
    Queue,
    Start,
    End,
}

// What a line shows, by its first word.
#[tactic(auto, unfolding(crate::specs::Trace::sight_of))]
fn sight_of(word: &str) -> Option<Sight>
    ensures { result ≡ sight_of word.now }
{
    match word {
        "queue" => Some(Sight::Queue),
        "start" => Some(Sight::Start),
        "end" => Some(Sight::End),
        _ => None,
    }
}

// The mark of a line, from the words behind its first.
#[tactic(auto, unfolding(crate::specs::Trace::mark_gives))]
fn mark(layout: Layout, sight: Sight, words: &[&str]) -> Result<Mark, LineError>
    ensures exact { LineGives result (mark_gives layout sight (map (λ w. w.now) words.now)) }
    ensures of { IfOk result (IsMarkOf layout) }
{
    let number = one_item(layout, words)?;
    match sight {
        Sight::Queue => Ok(Mark::Queue(number)),
        Sight::Start => Ok(Mark::Start(number)),
        Sight::End => Ok(Mark::End(number)),
    }
}

// The lines of a trace, each a mark at most.
pub(crate) struct TraceLanguage;

impl Language for TraceLanguage {
    type Name = Sight;

    type Asked = Mark;

    ghost grammar = { trace_grammar };

    ghost fits = { IsMarkOf };

    fn is_version(line: &[u8]) -> bool {
        line == b"trace 1".as_slice()
    }

    fn names_seats() -> bool {
        false
    }

    fn most() -> Most {
        Most {
            items: MOST_ITEMS,
            senders: 1,
        }
    }

    fn name(first: &str, _others: &[&str]) -> Option<Sight> {
        sight_of(first)
    }

    fn ask(layout: Layout, name: Sight, _first: &str, others: &[&str]) -> Result<Mark, LineError> {
        mark(layout, name, others)
    }
}
