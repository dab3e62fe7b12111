//! The words of a history, and the events that they tell.
ghost use Rattle.std.specs.Prelude.{◌≡◌, map, IfOk};
ghost use Rattle.wq_text.specs.Fault.{LineGives};
ghost use Rattle.wq_recording.specs.History.{alone, both, IsOf, owners_word, senders_word, history_word_at, numbers_give, line_events_of, events_given};

use crate::line_events::LineEvents;
use crate::one_item::one_item;
use wq_text::{
    LineError, no_word, number_of_queue, one_word, seat_and_number, why_of, without_last,
};
use wq_words::{Event, Layout, Why};

// What a line tells, without its seat and number.
#[derive(Clone, Copy)]
pub(crate) enum HistoryWord {
    Hold,
    Busy,
    Push,
    Back(Why),
    Queue,
    Refused,
    Take,
    Close,
    Drain,
    Resume,
    Begin,
    End,
    Chain,
    ChainBusy,
    Rest,
}

#[tactic(auto, unfolding(crate::specs::History::owners_word))]
fn owners_word(word: &str) -> Option<HistoryWord>
    ensures { result ≡ owners_word word.now }
{
    match word {
        "take" => Some(HistoryWord::Take),
        "close" => Some(HistoryWord::Close),
        "drain" => Some(HistoryWord::Drain),
        "resume" => Some(HistoryWord::Resume),
        "begin" => Some(HistoryWord::Begin),
        "end" => Some(HistoryWord::End),
        "chain" => Some(HistoryWord::Chain),
        "busy" => Some(HistoryWord::ChainBusy),
        "rest" => Some(HistoryWord::Rest),
        _ => None,
    }
}

#[tactic(auto, unfolding(crate::specs::History::senders_word))]
fn senders_word(word: &str, last: &str) -> Option<HistoryWord>
    ensures { result ≡ senders_word word.now last.now }
{
    match word {
        "hold" => Some(HistoryWord::Hold),
        "busy" => Some(HistoryWord::Busy),
        "push" => Some(HistoryWord::Push),
        "back" => Some(HistoryWord::Back(why_of(last)?)),
        "queue" => Some(HistoryWord::Queue),
        "refused" => Some(HistoryWord::Refused),
        _ => None,
    }
}

// What the words of a line tell, of which two at least have to stand there.
pub(crate) fn history_word_of(first: &str, others: &[&str]) -> Option<HistoryWord>
    ensures { result ≡ history_word_at first.now (map (λ w. w.now) others.now) }
{
    if others.is_empty() {
        return None;
    }
    if first == "o" {
        owners_word(others[0])
    } else {
        senders_word(others[0], others[others.len() - 1])
    }
}

fn alone(event: Event) -> LineEvents
    ensures { result ≡ alone event }
{
    LineEvents {
        first: event,
        second: None,
    }
}

fn both(first: Event, second: Event) -> LineEvents
    ensures { result ≡ both first second }
{
    LineEvents {
        first,
        second: Some(second),
    }
}

// The seat and the number that the words of a line give: 0 where the line has none.
#[tactic(auto, unfolding(crate::specs::History::numbers_give, crate::specs::History::line_events_of))]
fn numbers_of(
    layout: Layout,
    word: HistoryWord,
    first: &str,
    words: &[&str],
) -> Result<(u32, u32), LineError>
    ensures exact { LineGives result (numbers_give layout word first.now (map (λ w. w.now) words.now)) }
    ensures of { IfOk result (λ n. IsOf layout (line_events_of word n.0 n.1)) }
{
    match word {
        HistoryWord::Hold
        | HistoryWord::Busy
        | HistoryWord::Push
        | HistoryWord::Queue
        | HistoryWord::Refused => { seat_and_number(layout, first, words) }
        HistoryWord::Back(_) => seat_and_number(layout, first, without_last(words)),
        HistoryWord::Take
        | HistoryWord::Close
        | HistoryWord::Drain
        | HistoryWord::Resume
        | HistoryWord::Rest => {
            no_word(words)?;
            Ok((0, 0))
        }
        HistoryWord::Begin | HistoryWord::End => {
            let word = one_word(words)?;
            Ok((0, number_of_queue(layout, word)?))
        }
        HistoryWord::Chain | HistoryWord::ChainBusy => Ok((0, one_item(layout, words)?)),
    }
}

// The events that a line tells of a seat and a number.
#[tactic(auto, unfolding(crate::specs::History::line_events_of))]
fn line_events_of(word: HistoryWord, sender: u32, number: u32) -> LineEvents
    ensures { result ≡ line_events_of word sender number }
{
    match word {
        HistoryWord::Hold => alone(Event::Hold(sender, number)),
        HistoryWord::Busy => alone(Event::Busy(sender, number)),
        HistoryWord::Push => alone(Event::Push(sender, number)),
        HistoryWord::Back(why) => alone(Event::Back(sender, number, why)),
        HistoryWord::Queue => both(Event::Hold(sender, number), Event::Push(sender, number)),
        HistoryWord::Refused => both(
            Event::Hold(sender, number),
            Event::Back(sender, number, Why::Closed),
        ),
        HistoryWord::Take => alone(Event::Take),
        HistoryWord::Close => alone(Event::Close),
        HistoryWord::Drain => alone(Event::Drain),
        HistoryWord::Resume => alone(Event::Resume),
        HistoryWord::Begin => alone(Event::Begin(number)),
        HistoryWord::End => alone(Event::End(number)),
        HistoryWord::Chain => alone(Event::Chain(number)),
        HistoryWord::ChainBusy => alone(Event::ChainBusy(number)),
        HistoryWord::Rest => alone(Event::Rest),
    }
}

// The events of a line, from its first word and the words behind the second.
pub(crate) fn line_events(
    layout: Layout,
    word: HistoryWord,
    first: &str,
    words: &[&str],
) -> Result<LineEvents, LineError>
    ensures exact { LineGives result (events_given layout word first.now (map (λ w. w.now) words.now)) }
    ensures of { IfOk result (IsOf layout) }
{
    let (sender, number) = numbers_of(layout, word, first, words)?;
    Ok(line_events_of(word, sender, number))
}
