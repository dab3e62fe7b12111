//! From the bytes of a text to its schedule.
ghost use Rattle.std.specs.Prelude.{IfOk};
ghost use Rattle.wq_words.specs.Limits.{most_senders};
ghost use Rattle.wq_text.specs.Fault.{IfRefused};
ghost use Rattle.wq_text.specs.Schedule.{schedule_layout, turns_of};
ghost use Rattle.wq_text.specs.Sound.{AreSound};
ghost use Rattle.wq_text.specs.Text.{Spells, IsRefusal, HasOneOutcome};
ghost use Rattle.wq_text.specs.Turn.{schedule_grammar, schedule_grammar_2, schedule_lines};
ghost use Rattle.wq_text.specs.Turns.{PlacedIn};

use crate::fault::{LineError, ParseError};
use crate::header::Most;
use crate::line::Language;
use crate::schedule::Schedule;
use crate::text::{is_of, read};
use crate::turn::{Action, action_of, action_of_2, turn, without_first};
use std::alloc::Global;
use wq_core::{Seat, Step};
use wq_words::{Layout, MOST_ITEMS, MOST_SENDERS, MOST_TEXT_ITEMS};

// The lines of a schedule, each a turn at most.
struct Turns;

impl Language for Turns {
    type Name = Action;

    type Asked = (Seat, Step);

    ghost grammar = { schedule_grammar };

    ghost fits = { PlacedIn };

    fn is_version(line: &[u8]) -> bool {
        line == b"steps 1".as_slice()
    }

    fn names_seats() -> bool {
        true
    }

    fn most() -> Most {
        Most {
            items: MOST_TEXT_ITEMS,
            senders: MOST_SENDERS,
        }
    }

    fn name(first: &str, others: &[&str]) -> Option<Action> {
        action_of(first, others)
    }

    fn ask(
        layout: Layout,
        name: Action,
        first: &str,
        others: &[&str],
    ) -> Result<(Seat, Step), LineError> {
        turn(layout, name, first, without_first(others))
    }
}

// The same in version 2.
struct Turns2;

impl Language for Turns2 {
    type Name = Action;

    type Asked = (Seat, Step);

    ghost grammar = { schedule_grammar_2 };

    ghost fits = { PlacedIn };

    fn is_version(line: &[u8]) -> bool {
        line == b"steps 2".as_slice()
    }

    fn names_seats() -> bool {
        true
    }

    fn most() -> Most {
        Most {
            items: MOST_ITEMS,
            senders: MOST_SENDERS,
        }
    }

    fn name(first: &str, others: &[&str]) -> Option<Action> {
        action_of_2(first, others)
    }

    fn ask(
        layout: Layout,
        name: Action,
        first: &str,
        others: &[&str],
    ) -> Result<(Seat, Step), LineError> {
        turn(layout, name, first, without_first(others))
    }
}

// What a schedule of either version asks for.
fn read_schedule(alloc: Global, text: &[u8]) -> Result<(Layout, Vec<(Seat, Step)>), ParseError>
    ensures spells { IfOk result (λ x. Spells (schedule_lines text.now) text.now x.0 x.1.items) }
    ensures refused { IfRefused result (IsRefusal (schedule_lines text.now) text.now) }
    ensures sound { IfOk result (λ x. AreSound most_senders PlacedIn x.0 x.1.items) }
{
    if is_of::<Turns2>(text) {
        read::<Turns2>(alloc, text)
    } else {
        read::<Turns>(alloc, text)
    }
}

/// The schedule that a text of at most 1,048,576 bytes spells, of the version that its first line names (docs/FORMATS.md). No
/// text is spelled in two ways, refused for two faults, or both.
///
/// # Errors
/// `Refused` with the first faulty line and the first fault on it, or `Memory`.
pub fn parse_steps(alloc: Global, text: &[u8]) -> Result<Schedule, ParseError>
    ensures spells { IfOk result (λ schedule. Spells (schedule_lines text.now) text.now (schedule_layout schedule) (turns_of schedule)) }
    ensures refused { IfRefused result (IsRefusal (schedule_lines text.now) text.now) }
    ensures one { HasOneOutcome (schedule_lines text.now) text.now }
{
    let (layout, turns) = read_schedule(alloc, text)?;
    Ok(Schedule::new(layout, turns))
}
