//! What is said of a recording of either kind.
ghost use Rattle.std.specs.Prelude.{◌≡◌, ◌∷◌, ◌++◌, [], ℕ, List, false, codes, IfOk, IfErr, IfSome, IsSomeAnd};
ghost use Rattle.std.specs.Str.{bytes_eq};
ghost use Rattle.wq_recording.specs.Lines.{EndsWithLf};
ghost use Rattle.wq_recording.specs.Judging.{IfTextRefused};
ghost use Rattle.wq_recording.specs.Checking.{IsFoundOf, IsRefusedFor, IsReadThrough, IsReadToFault};

use crate::error::CheckError;
use crate::finding::Finding;
use crate::history::HistoryLanguage;
use crate::judging::judge;
use crate::lines::{LineOrRest, line_or_rest, next_line};
use crate::trace::TraceLanguage;
use std::alloc::Global;
use std::io::BufRead;
use wq_text::Language;

// Whether a first line that was read is that of a trace.
fn is_trace(line: &[u8]) -> bool
    ensures whole { (text : List ℕ) → line.now ≡ text ++ 10 ∷ [] → result ≡ bytes_eq text (codes "trace 1") }
    ensures rest { ¬ EndsWithLf line.now → result ≡ false }
{
    match line_or_rest(line) {
        LineOrRest::Line(text) => TraceLanguage::is_version(text),
        LineOrRest::Rest(_) => false,
    }
}

/// Reads a recording, a trace where its first line is `trace 1` and else a history, up to the line that decides, and says what
/// is found (docs/FORMATS.md). Takes no more memory than the header of the recording and one line ask for. No text has two
/// verdicts, and nothing behind the line that decides changes one (`one_verdict`).
///
/// # Errors
/// `Text` with the first faulty line and the first fault on it, behind which nothing was read, or with `Memory` where memory for
/// a line's words, the checker or the finding was refused. `Read` where the reader failed before a line decided, or, with the
/// kind `OutOfMemory`, memory for a line's bytes was refused.
pub fn check<B: BufRead>(alloc: Global, reader: &mut B) -> Result<Finding, CheckError>
    ensures found { IfOk result (λ finding. IfSome (B.remaining reader.old) (λ text. IsFoundOf text finding)) }
    ensures refused { IfErr result (λ error. IfSome (B.remaining reader.old) (λ text. IfTextRefused error (IsRefusedFor text))) }
    ensures read { IfOk result (λ finding. IfSome (B.remaining reader.old)
        (λ text. IsSomeAnd (B.remaining reader.new) (IsReadThrough finding.violation text))) }
    ensures stops { IfErr result (λ error. IfSome (B.remaining reader.old)
        (λ text. IfTextRefused error (λ e. IsSomeAnd (B.remaining reader.new) (IsReadToFault e text)))) }
{
    let mut line = Vec::new(alloc);
    next_line(reader, &mut line)?;
    if is_trace(&line) {
        judge::<TraceLanguage, B>(alloc, reader, &mut line)
    } else {
        judge::<HistoryLanguage, B>(alloc, reader, &mut line)
    }
}
