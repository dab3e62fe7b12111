//! From the bytes of a text to what its lines ask for.
ghost use Rattle.std.specs.Prelude.{◌≡◌, ◌≢◌, ◌+◌, ◌<◌, ◌≤◌, ◌++◌, ◌∷◌, [], Ok, Err, OnOk, IfOk, MatchOption, Some, length, position, ◌==◌};
ghost use Rattle.std.specs.Option.{option_to_list};
ghost use Rattle.wq_text.specs.Fault.{IfRefused};
ghost use Rattle.wq_text.specs.Header.{layout_at};
ghost use Rattle.wq_text.specs.TextLimits.{most_bytes};
ghost use Rattle.wq_text.specs.Line.{line_gives};
ghost use Rattle.wq_text.specs.Text.{Spells, IsRefusal, end_fault};
ghost use Rattle.wq_text.specs.Sound.{KeepsSound, AreSound};
ghost use Rattle.wq_text.specs.Version.{begins_with_line};
ghost use Rattle.wq_text.specs.Word.{parts};

use crate::fault::{FaultKind, LineError, ParseError, ScriptError};
use crate::header::Awaited;
use crate::line::{Language, read_line};
use std::alloc::{AllocError, Global};
use wq_words::Layout;

/// How many bytes a script or a schedule may have.
pub const MOST_BYTES: usize = 1_048_576;

fn refused(line: u64, kind: FaultKind) -> ParseError
    ensures { result ≡ ParseError.Refused (record { line = line; kind = kind }) }
{
    ParseError::Refused(ScriptError { line, kind })
}

// Where the first LF stands.
fn line_end(text: &[u8]) -> Option<usize>
    ensures { result ≡ position (λ b. b == 10) text.now }
{
    text.iter().position(|byte| *byte == b'\n')
}

// The first line of a text, and what follows its LF.
fn cut_line(text: &[u8]) -> Option<(&[u8], &[u8])>
    ensures { MatchOption result (parts text.now ≡ text.now ∷ []) (λ c. (parts text.now ≡ c.0.now ∷ parts c.1.now) × (length c.1.now < length text.now)) }
{
    match line_end(text) {
        None => None,
        Some(end) => Some((&text[..end], &text[end + 1..])),
    }
}

// Whether a text begins with the first line of this language.
pub(crate) fn is_of<L: Language>(text: &[u8]) -> bool
    ensures { result ≡ begins_with_line L.grammar.version text.now }
{
    match cut_line(text) {
        Some((line, _)) => L::is_version(line),
        None => L::is_version(text),
    }
}

// What line `number` gives.
fn numbered_line<L: Language>(
    alloc: Global,
    number: u64,
    awaited: Awaited,
    line: &[u8],
) -> Result<(Awaited, Option<L::Asked>), ParseError>
    ensures gives { IfOk result (λ given. line_gives L.grammar awaited line.now ≡ Ok given) }
    ensures refused { IfRefused result (λ e. (e.line ≡ number) × (line_gives L.grammar awaited line.now ≡ Err e.kind)) }
    ensures sound { IfOk result (λ given. KeepsSound L.grammar.most.senders L.fits awaited given.0 given.1) }
{
    match read_line::<L>(alloc, awaited, line) {
        Ok(given) => Ok(given),
        Err(LineError::Memory) => Err(ParseError::Memory),
        Err(LineError::Fault(kind)) => Err(refused(number, kind)),
    }
}

fn add<A: Drop>(asked: &mut Vec<A>, one: Option<A>) -> Result<(), AllocError>
    ensures added { OnOk result (asked.new.items ≡ asked.old.items ++ option_to_list one) }
    ensures few { OnOk result (length asked.new.items ≤ length asked.old.items + 1) }
{
    if let Some(one) = one {
        asked.push(one)?;
    }
    Ok(())
}

/// The layout, at the end of a text before line `number`.
///
/// # Errors
/// `Refused` with that line: `Version` where no line has come yet, `Header` where the items or the senders are not named yet.
/// Never `Memory`.
pub fn layout_at_end(number: u64, awaited: Awaited) -> Result<Layout, ParseError>
    ensures whole { IfOk result (λ layout. layout_at awaited ≡ Some layout) }
    ensures refused { IfRefused result (λ e. (e.line ≡ number) × (end_fault awaited ≡ Some e.kind)) }
    ensures memory { result ≢ Err ParseError.Memory }
{
    match awaited {
        Awaited::Version => Err(refused(number, FaultKind::Version)),
        Awaited::Items | Awaited::Senders(_) => Err(refused(number, FaultKind::Header)),
        Awaited::Barriers(layout) | Awaited::Commands(layout) => Ok(layout),
    }
}

// The layout that a text names, and what its lines ask for.
pub(crate) fn read<L: Language>(
    alloc: Global,
    text: &[u8],
) -> Result<(Layout, Vec<L::Asked>), ParseError>
    ensures spells { IfOk result (λ x. Spells (line_gives L.grammar) text.now x.0 x.1.items) }
    ensures refused { IfRefused result (IsRefusal (line_gives L.grammar) text.now) }
    ensures sound { IfOk result (λ x. AreSound L.grammar.most.senders L.fits x.0 x.1.items) }
    ensures few { IfOk result (λ x. length x.1.items ≤ most_bytes) }
{
    if text.len() > MOST_BYTES {
        return Err(refused(1, FaultKind::Size));
    }
    let mut awaited = Awaited::Version;
    let mut asked = Vec::new(alloc);
    let mut number = 1u64;
    let mut rest = text;
    while let Some((line, after)) = cut_line(rest) {
        let (next, one) = numbered_line::<L>(alloc, number, awaited, line)?;
        add(&mut asked, one)?;
        awaited = next;
        number += 1;
        rest = after;
    }
    if !rest.is_empty() {
        return Err(refused(number, FaultKind::Cut));
    }
    let layout = layout_at_end(number, awaited)?;
    Ok((layout, asked))
}
