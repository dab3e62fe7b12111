//! From the lines of a recording to what is said of it.
ghost use Rattle.std.specs.Prelude.{◌≡◌, [], ℕ, List, Option, None, Some, Ok, IfOk, IfErr, IfSome, IsSomeAnd};
ghost use Rattle.std.specs.Io.KnownBytes.{Consumes};
ghost use Rattle.wq_text.specs.declared.fault.ParseError.TheVariants.{Memory, Refused};
ghost use Rattle.wq_text.specs.declared.header.Awaited.{Awaited as AwaitedLine};
ghost use Rattle.wq_text.specs.declared.header.Awaited.TheVariants.{Commands};
ghost use Rattle.wq_text.specs.Fault.{LineFailsAs};
ghost use Rattle.wq_text.specs.Header.{layout_at};
ghost use Rattle.wq_text.specs.Line.{line_gives};
ghost use Rattle.wq_text.specs.Sound.{SoundAt};
ghost use Rattle.wq_words.specs.declared.layout.Layout.{Layout as Numbers};
ghost use Rattle.wq_recording.specs.declared.error.CheckError.TheVariants.{Text};
ghost use Rattle.wq_recording.specs.Lines.{IsLineRead};
ghost use Rattle.wq_recording.specs.Checking.{IsReadThrough, IsReadToFault};
ghost use Rattle.wq_recording.specs.Judging.{HasTold, IsMadeAt, ComesTo, IfTextRefused, refusal_of};
ghost use Rattle.wq_recording.specs.Verdict.{recording_line, last_fault, IsRefusedText};
ghost use Rattle.wq_recording.specs.VerdictText.{verdict_of, SaysOf, Finds};

use crate::error::CheckError;
use crate::finding::Finding;
use crate::lines::{LineOrRest, MOST_LINE_BYTES, line_or_rest, next_line};
use crate::recording::Recording;
use crate::verdict_text::found;
use crate::violation::Violation;
use std::alloc::{AllocError, Global};
use std::io;
use std::io::{BufRead, ErrorKind};
use wq_check::Cause;
use wq_text::{Awaited, FaultKind, LineError, ParseError, ScriptError, layout_at_end, read_line};
use wq_words::Layout;

// What a line without a fault comes to.
#[derive(Drop)]
pub(crate) enum LineOutcome {
    // What is awaited behind it.
    On(Awaited),
    // Its first event that is not legal has this cause; the checker was told those before.
    Violation(Layout, Cause),
}

// Tells a checker of this layout what is asked for.
fn tell_asked<L: Recording>(
    layout: Layout,
    checker: &mut L::Checker,
    asked: L::Asked,
) -> LineOutcome
    requires made { L.layout_of checker.old ≡ layout }
    requires fits { L.fits layout asked }
    ensures { ComesTo L.rules L.layout_of L.is_after (Commands layout) (Some checker.old) (Some asked) result (Some checker.new) }
{
    match L::tell(checker, asked) {
        Ok(()) => LineOutcome::On(Awaited::Commands(layout)),
        Err(cause) => LineOutcome::Violation(layout, cause),
    }
}

// Tells what a line asks for, behind which `next` is awaited; the checker is made where there is none yet.
fn tell<L: Recording>(
    alloc: Global,
    next: Awaited,
    checker: &mut Option<L::Checker>,
    asked: Option<L::Asked>,
) -> Result<LineOutcome, AllocError>
    requires made { IsMadeAt L.layout_of next checker.old }
    requires fits { IfSome asked (λ a. (layout : Numbers) × (next ≡ Commands layout) × L.fits layout a) }
    ensures { IfOk result (λ told. ComesTo L.rules L.layout_of L.is_after next checker.old asked told checker.new) }
{
    let Some(asked) = asked else {
        return Ok(LineOutcome::On(next));
    };
    let Awaited::Commands(layout) = next else {
        unreachable!();
    };
    match checker {
        Some(checker) => Ok(tell_asked::<L>(layout, checker, asked)),
        None => {
            let checker = checker.insert(L::checker(alloc, layout)?);
            Ok(tell_asked::<L>(layout, checker, asked))
        }
    }
}

// What a line comes to.
fn tell_line<L: Recording>(
    alloc: Global,
    awaited: Awaited,
    checker: &mut Option<L::Checker>,
    line: &[u8],
) -> Result<LineOutcome, LineError>
    requires sound { SoundAt L.grammar.most.senders L.fits awaited [] }
    requires made { IsMadeAt L.layout_of awaited checker.old }
    ensures told { IfOk result (λ told. (next : AwaitedLine) × (one : Option L.Asked) × (line_gives L.grammar awaited line.now ≡ Ok (next, one))
        × SoundAt L.grammar.most.senders L.fits next [] × ComesTo L.rules L.layout_of L.is_after next checker.old one told checker.new) }
    ensures fault { IfErr result (λ e. LineFailsAs e (line_gives L.grammar awaited line.now)) }
{
    let (next, asked) = read_line::<L>(alloc, awaited, line)?;
    let told = tell::<L>(alloc, next, checker, asked)?;
    Ok(told)
}

fn refused(line: u64, kind: FaultKind) -> CheckError
    ensures { result ≡ Text (Refused (record { line = line; kind = kind })) }
{
    CheckError::Text(ParseError::Refused(ScriptError { line, kind }))
}

// Why this line could not be read.
fn refusal(line: u64, error: LineError) -> CheckError
    ensures { result ≡ Text (refusal_of line error) }
{
    match error {
        LineError::Memory => CheckError::Text(ParseError::Memory),
        LineError::Fault(kind) => refused(line, kind),
    }
}

// What is said of the events that were told, none where there is no checker yet, and of the violation behind them.
fn found_so_far<L: Recording>(
    alloc: Global,
    layout: Layout,
    checker: &Option<L::Checker>,
    violation: Option<Violation>,
) -> Result<Finding, CheckError>
    ensures says { IfOk result (λ finding. (h : List L.Event) → HasTold L.is_after checker.now h → SaysOf L.rules (verdict_of layout h violation) finding) }
    ensures violation { IfOk result (λ finding. finding.violation ≡ violation) }
    ensures memory { IfErr result (λ error. error ≡ Text Memory) }
{
    match checker {
        Some(checker) => found::<L>(alloc, layout, checker, violation),
        None => {
            let checker = L::checker(alloc, layout)?;
            found::<L>(alloc, layout, &checker, violation)
        }
    }
}

// What is said where no LF comes behind the line before line `number`.
fn last<L: Recording>(
    alloc: Global,
    number: u64,
    awaited: Awaited,
    checker: &Option<L::Checker>,
    rest: &[u8],
) -> Result<Finding, CheckError>
    requires { IsMadeAt L.layout_of awaited checker.now }
    ensures whole { IfOk result (λ _. rest.now ≡ []) }
    ensures violation { IfOk result (λ finding. finding.violation ≡ None) }
    ensures found { IfOk result (λ finding. (layout : Numbers) × (layout_at awaited ≡ Some layout) × ((h : List L.Event) → HasTold L.is_after checker.now h
        → L.rules.IsLegal layout h × SaysOf L.rules (verdict_of layout h None) finding)) }
    ensures refused { IfErr result (λ error. IfTextRefused error (λ e. (e.line ≡ number) × (last_fault awaited rest.now ≡ Some e.kind))) }
{
    if rest.len() > MOST_LINE_BYTES {
        return Err(refused(number, FaultKind::Size));
    }
    if !rest.is_empty() {
        return Err(refused(number, FaultKind::Cut));
    }
    let layout = layout_at_end(number, awaited)?;
    found_so_far::<L>(alloc, layout, checker, None)
}

/// What is said of a recording of which this line was read.
pub(crate) fn judge<L: Recording, B: BufRead>(
    alloc: Global,
    reader: &mut B,
    line: &mut Vec<u8>,
) -> Result<Finding, CheckError>
    ensures found { (known : Option (List ℕ)) → Consumes known (B.remaining reader.old) line.old.items
        → IsLineRead line.old.items known (B.remaining reader.old)
        → IfOk result (λ finding. IfSome known (λ text. Finds (recording_line L.grammar) L.rules text finding
        × IsSomeAnd (B.remaining reader.new) (IsReadThrough finding.violation text))) }
    ensures refused { (known : Option (List ℕ)) → Consumes known (B.remaining reader.old) line.old.items
        → IsLineRead line.old.items known (B.remaining reader.old)
        → IfErr result (λ error. IfSome known (λ text. IfTextRefused error (λ e. IsRefusedText (recording_line L.grammar) L.rules text e
        × IsSomeAnd (B.remaining reader.new) (IsReadToFault e text)))) }
{
    let mut awaited = Awaited::Version;
    let mut checker: Option<L::Checker> = None;
    for number in 1..u64::MAX {
        let text = match line_or_rest(line) {
            LineOrRest::Line(text) => text,
            LineOrRest::Rest(rest) => return last::<L>(alloc, number, awaited, &checker, rest),
        };
        let told = match tell_line::<L>(alloc, awaited, &mut checker, text) {
            Ok(told) => told,
            Err(error) => return Err(refusal(number, error)),
        };
        match told {
            LineOutcome::On(next) => awaited = next,
            LineOutcome::Violation(layout, cause) => {
                let violation = Violation {
                    line: number,
                    cause,
                };
                return found_so_far::<L>(alloc, layout, &checker, Some(violation));
            }
        }
        next_line(reader, line)?;
    }
    Err(CheckError::Read(io::Error::from(ErrorKind::TimedOut)))
}
