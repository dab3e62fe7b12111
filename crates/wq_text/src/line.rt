//! One line of a text, of either kind.
ghost use Rattle.std.specs.Prelude.{◌≡◌, map, true, false, MatchOption, IfOk};
ghost use Rattle.std.specs.List.{list_all};
ghost use Rattle.std.specs.Str.{bytes_eq};
ghost use Rattle.wq_words.specs.declared.layout.Layout.{Layout};
ghost use Rattle.wq_text.specs.Word.{is_plain, is_word};
ghost use Rattle.wq_text.specs.Fault.{LineGives};
ghost use Rattle.wq_text.specs.Line.{Grammar, asking_line, by_first_word, words_give, plain_line_gives, line_gives};
ghost use Rattle.wq_text.specs.Sound.{KeepsSound};

use crate::fault::{FaultKind, LineError};
use crate::header::{Awaited, Most, header_line, is_header};
use crate::word::{few_words, words_of};
use std::alloc::Global;
use wq_words::Layout;

/// What one kind of text has of its own: its first line, and what its lines ask for behind the header.
pub trait Language {
    /// What a line names: a command, or a kind of step.
    type Name: Drop;

    /// What it asks for.
    type Asked: Drop;

    ghost grammar: { Grammar Self.Name Self.Asked };

    // What may be asked of a queue.
    ghost fits: { Layout → Self.Asked → Type 0 };

    /// Whether it is the first line.
    fn is_version(line: &[u8]) -> bool
        ensures { result ≡ bytes_eq line.now grammar.version };

    /// Whether the header names senders and, if wanted, barriers behind the items.
    fn names_seats() -> bool
        ensures { result ≡ grammar.names_seats };

    /// How many items and senders there may be.
    fn most() -> Most
        ensures { result ≡ grammar.most };

    /// What the first word and the others name.
    fn name(first: &str, others: &[&str]) -> Option<Self::Name>
        ensures { result ≡ grammar.names first.now (map (λ w. w.now) others.now) };

    /// What they ask of the queue.
    fn ask(
        layout: Layout,
        name: Self::Name,
        first: &str,
        others: &[&str],
    ) -> Result<Self::Asked, LineError>
        ensures exact { LineGives result (grammar.asks layout name first.now (map (λ w. w.now) others.now)) }
        ensures fits { IfOk result (fits layout) };
}

// A line that is none of the header.
fn asking_line<L: Language>(
    awaited: Awaited,
    first: &str,
    others: &[&str],
) -> Result<(Awaited, Option<L::Asked>), LineError>
    ensures exact { LineGives result (asking_line L.grammar awaited first.now (map (λ w. w.now) others.now)) }
    ensures sound { IfOk result (λ given. KeepsSound L.grammar.most.senders L.fits awaited given.0 given.1) }
{
    let Some(name) = L::name(first, others) else {
        return Err(LineError::Fault(FaultKind::Word));
    };
    let Some(layout) = awaited.layout() else {
        return Err(LineError::Fault(FaultKind::Header));
    };
    let asked = L::ask(layout, name, first, others)?;
    Ok((Awaited::Commands(layout), Some(asked)))
}

// A line of the header, or one behind it.
fn first_word_line<L: Language>(
    awaited: Awaited,
    first: &str,
    others: &[&str],
) -> Result<(Awaited, Option<L::Asked>), LineError>
    ensures exact { LineGives result (by_first_word L.grammar awaited first.now (map (λ w. w.now) others.now)) }
    ensures sound { IfOk result (λ given. KeepsSound L.grammar.most.senders L.fits awaited given.0 given.1) }
{
    if is_header(first) {
        let next = header_line(L::names_seats(), L::most(), awaited, first, others)?;
        return Ok((next, None));
    }
    asking_line::<L>(awaited, first, others)
}

// Whether each word has bytes.
fn are_words(words: &[&str]) -> bool
    ensures { result ≡ list_all (λ w. is_word w.now) words.now }
{
    words.iter().all(|word| !word.is_empty())
}

// A line of words.
fn words_line<L: Language>(
    awaited: Awaited,
    words: &[&str],
) -> Result<(Awaited, Option<L::Asked>), LineError>
    ensures exact { LineGives result (words_give L.grammar awaited (map (λ w. w.now) words.now)) }
    ensures sound { IfOk result (λ given. KeepsSound L.grammar.most.senders L.fits awaited given.0 given.1) }
{
    if !are_words(words) {
        return Err(LineError::Fault(FaultKind::Space));
    }
    let Some((first, others)) = words.split_first() else {
        return Err(LineError::Fault(FaultKind::Word));
    };
    first_word_line::<L>(awaited, first, others)
}

// Whether each byte of a line is plain.
fn is_plain_line(line: &[u8]) -> bool
    ensures { result ≡ list_all is_plain line.now }
{
    line.iter().all(|byte| 32 <= *byte && *byte <= 126)
}

// A line as text, where each byte is plain.
fn plain_text(line: &[u8]) -> Option<&str>
    ensures { MatchOption result (list_all is_plain line.now ≡ false) (λ text. (list_all is_plain line.now ≡ true) × (text.now ≡ line.now)) }
{
    if is_plain_line(line) {
        str::from_utf8(line).ok()
    } else {
        None
    }
}

// A line that is not passed over.
#[tactic(auto, unfolding(crate::specs::Line::plain_line_gives))]
fn plain_line<L: Language>(
    alloc: Global,
    awaited: Awaited,
    line: &[u8],
) -> Result<(Awaited, Option<L::Asked>), LineError>
    ensures exact { LineGives result (plain_line_gives L.grammar awaited line.now) }
    ensures sound { IfOk result (λ given. KeepsSound L.grammar.most.senders L.fits awaited given.0 given.1) }
{
    let Some(text) = plain_text(line) else {
        return Err(LineError::Fault(FaultKind::Bytes));
    };
    if let Some(words) = few_words(alloc, text) {
        return words_line::<L>(awaited, &words);
    }
    let words = words_of(alloc, text)?;
    words_line::<L>(awaited, &words)
}

/// Which line is awaited behind this one, and what this one asks for.
///
/// # Errors
/// `Fault` with the first thing that is wrong with the line, in the order of `FaultKind`, or `Memory` where memory for its words was
/// refused.
#[tactic(auto, using(crate::proofs::Sound::keeps_none, crate::proofs::Sound::keeps_version))]
pub fn read_line<L: Language>(
    alloc: Global,
    awaited: Awaited,
    line: &[u8],
) -> Result<(Awaited, Option<L::Asked>), LineError>
    ensures exact { LineGives result (line_gives L.grammar awaited line.now) }
    ensures sound { IfOk result (λ given. KeepsSound L.grammar.most.senders L.fits awaited given.0 given.1) }
{
    match awaited {
        Awaited::Version => {
            if L::is_version(line) {
                Ok((Awaited::Items, None))
            } else {
                Err(LineError::Fault(FaultKind::Version))
            }
        }
        _ => {
            if line.is_empty() || line[0] == b'#' {
                Ok((awaited, None))
            } else {
                plain_line::<L>(alloc, awaited, line)
            }
        }
    }
}
