//! From the bytes of a text to its script.
ghost use Rattle.std.specs.Prelude.{◌≤◌, length, IfOk};
ghost use Rattle.wq_text.specs.Fault.{IfRefused};
ghost use Rattle.wq_text.specs.Fits.{Fits};
ghost use Rattle.wq_text.specs.Keyword.{script_grammar, script_grammar_2, script_lines};
ghost use Rattle.wq_text.specs.TextLimits.{most_bytes, most_script_senders};
ghost use Rattle.wq_text.specs.Script.{layout_of, commands_of};
ghost use Rattle.wq_text.specs.Sound.{AreSound};
ghost use Rattle.wq_text.specs.Text.{Spells, IsRefusal, HasOneOutcome};

use crate::command::Command;
use crate::fault::{LineError, ParseError};
use crate::header::Most;
use crate::keyword::{Keyword, command, keyword_of, keyword_of_2};
use crate::line::Language;
use crate::script::{MOST_SCRIPT_SENDERS, Script};
use crate::text::{is_of, read};
use std::alloc::Global;
use wq_words::{Layout, MOST_ITEMS, MOST_TEXT_ITEMS};

// The lines of a script, each a command at most.
struct Commands;

impl Language for Commands {
    type Name = Keyword;

    type Asked = Command;

    ghost grammar = { script_grammar };

    ghost fits = { Fits };

    fn is_version(line: &[u8]) -> bool {
        line == b"wq 1".as_slice()
    }

    fn names_seats() -> bool {
        true
    }

    fn most() -> Most {
        Most {
            items: MOST_TEXT_ITEMS,
            senders: MOST_SCRIPT_SENDERS,
        }
    }

    fn name(first: &str, _others: &[&str]) -> Option<Keyword> {
        keyword_of(first)
    }

    fn ask(
        layout: Layout,
        name: Keyword,
        _first: &str,
        others: &[&str],
    ) -> Result<Command, LineError> {
        command(layout, name, others)
    }
}

// The same in version 2.
struct Commands2;

impl Language for Commands2 {
    type Name = Keyword;

    type Asked = Command;

    ghost grammar = { script_grammar_2 };

    ghost fits = { Fits };

    fn is_version(line: &[u8]) -> bool {
        line == b"wq 2".as_slice()
    }

    fn names_seats() -> bool {
        true
    }

    fn most() -> Most {
        Most {
            items: MOST_ITEMS,
            senders: MOST_SCRIPT_SENDERS,
        }
    }

    fn name(first: &str, _others: &[&str]) -> Option<Keyword> {
        keyword_of_2(first)
    }

    fn ask(
        layout: Layout,
        name: Keyword,
        _first: &str,
        others: &[&str],
    ) -> Result<Command, LineError> {
        command(layout, name, others)
    }
}

// What a script of either version asks for.
fn read_script(alloc: Global, text: &[u8]) -> Result<(Layout, Vec<Command>), ParseError>
    ensures spells { IfOk result (λ x. Spells (script_lines text.now) text.now x.0 x.1.items) }
    ensures refused { IfRefused result (IsRefusal (script_lines text.now) text.now) }
    ensures sound { IfOk result (λ x. AreSound most_script_senders Fits x.0 x.1.items) }
    ensures few { IfOk result (λ x. length x.1.items ≤ most_bytes) }
{
    if is_of::<Commands2>(text) {
        read::<Commands2>(alloc, text)
    } else {
        read::<Commands>(alloc, text)
    }
}

/// The script that a text of at most 1,048,576 bytes spells, of the version that its first line names (docs/FORMATS.md). No
/// text is spelled in two ways, refused for two faults, or both.
///
/// # Errors
/// `Refused` with the first faulty line and the first fault on it, or `Memory`.
pub fn parse(alloc: Global, text: &[u8]) -> Result<Script, ParseError>
    ensures spells { IfOk result (λ script. Spells (script_lines text.now) text.now (layout_of script) (commands_of script)) }
    ensures refused { IfRefused result (IsRefusal (script_lines text.now) text.now) }
    ensures one { HasOneOutcome (script_lines text.now) text.now }
{
    let (layout, commands) = read_script(alloc, text)?;
    Ok(Script::new(layout, commands))
}
