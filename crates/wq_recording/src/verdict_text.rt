//! How a verdict is written.
ghost use Rattle.std.specs.Prelude.{◌≡◌, ◌++◌, ℕ, List, codes, IfOk, IfErr, OnOk, string_bytes};
ghost use Rattle.wq_words.specs.Counting.{capped};
ghost use Rattle.wq_meaning.specs.Report.{line};
ghost use Rattle.wq_text.specs.declared.fault.ParseError.TheVariants.{Memory};
ghost use Rattle.wq_recording.specs.declared.error.CheckError.TheVariants.{Text};
ghost use Rattle.wq_recording.specs.VerdictText.{cause_text, verdict_head, verdict_of, verdict_text, SaysOf};

use crate::error::CheckError;
use crate::finding::Finding;
use crate::recording::Recording;
use crate::violation::Violation;
use std::alloc::{AllocError, Global};
use wq_check::Cause;
use wq_meaning::{write_count, write_line, write_named, write_row};
use wq_words::Layout;

fn write_cause(layout: &Layout, cause: Cause, out: &mut String) -> Result<(), AllocError>
    ensures { OnOk result (string_bytes out.new ≡ string_bytes out.old ++ cause_text layout.now cause) }
{
    match cause {
        Cause::Pending => out.push_str("pending"),
        Cause::Idle => out.push_str("idle"),
        Cause::NotHeld => out.push_str("not held"),
        Cause::Closed => out.push_str("closed"),
        Cause::Draining => out.push_str("draining"),
        Cause::NotDraining => out.push_str("not draining"),
        Cause::NeverDrained => out.push_str("never drained"),
        Cause::Open => out.push_str("open"),
        Cause::Runs(number) => write_named(layout, "runs", number, out),
        Cause::NothingRuns => out.push_str("nothing runs"),
        Cause::NotWaiting => out.push_str("not waiting"),
        Cause::Next(number) => write_named(layout, "next", number, out),
        Cause::NotEnded => out.push_str("not ended"),
    }
}

// Writes the line of a cause.
fn write_cause_line(layout: &Layout, cause: Cause, out: &mut String) -> Result<(), AllocError>
    ensures { OnOk result (string_bytes out.new ≡ string_bytes out.old ++ line (codes "cause " ++ cause_text layout.now cause)) }
{
    out.push_str("cause ")?;
    write_cause(layout, cause, out)?;
    out.push_str("\n")
}

// Writes whether all is legal, and else the line, the number of the event behind so many, and its cause.
fn write_head(
    word: &str,
    layout: &Layout,
    told_count: u64,
    violation: Option<Violation>,
    out: &mut String,
) -> Result<(), AllocError>
    ensures { (n : ℕ) → told_count ≡ capped n → OnOk result (string_bytes out.new ≡ string_bytes out.old ++ verdict_head word.now layout.now n violation) }
{
    match violation {
        None => write_line("legal", out),
        Some(violation) => {
            write_line("not legal", out)?;
            write_count("line", violation.line, out)?;
            write_count(word, told_count.saturating_add(1), out)?;
            write_cause_line(layout, violation.cause, out)
        }
    }
}

// The numbers that are left undone, in order.
fn left_numbers<L: Recording>(alloc: Global, checker: &L::Checker) -> Result<Vec<u32>, AllocError>
    ensures left { IfOk result (λ numbers. (h : List L.Event) → L.is_after checker.now h → numbers.items ≡ L.rules.left h) }
{
    let count = L::left_count(checker);
    let mut numbers = Vec::with_capacity(alloc, count)?;
    for place in 0..count {
        if let Some(number) = L::left_at(checker, place) {
            numbers.push_reserved(number);
        }
    }
    Ok(numbers)
}

// Writes what is said of the events that were told, which all are legal, and of the violation behind them.
fn write_verdict<L: Recording>(
    alloc: Global,
    layout: &Layout,
    checker: &L::Checker,
    violation: Option<Violation>,
    out: &mut String,
) -> Result<(), AllocError>
    ensures { OnOk result ((h : List L.Event) → L.is_after checker.now h
        → string_bytes out.new ≡ string_bytes out.old ++ verdict_text L.rules (verdict_of layout.now h violation)) }
{
    write_head(L::word(), layout, L::told_count(checker), violation, out)?;
    L::write_counts(checker, out)?;
    let numbers = left_numbers::<L>(alloc, checker)?;
    write_row(layout, "left", &numbers, out)
}

/// What is said of the events that were told, which all are legal, and of the violation behind them.
pub(crate) fn found<L: Recording>(
    alloc: Global,
    layout: Layout,
    checker: &L::Checker,
    violation: Option<Violation>,
) -> Result<Finding, CheckError>
    ensures says { IfOk result (λ finding. (h : List L.Event) → L.is_after checker.now h → SaysOf L.rules (verdict_of layout h violation) finding) }
    ensures violation { IfOk result (λ finding. finding.violation ≡ violation) }
    ensures memory { IfErr result (λ error. error ≡ Text Memory) }
{
    let mut out = String::new(alloc);
    write_verdict::<L>(alloc, &layout, checker, violation, &mut out)?;
    Ok(Finding {
        text: out.into_bytes(),
        violation,
        is_legal: violation.is_none(),
        left: L::left_count(checker),
    })
}
