//! How the answers of calls read.
ghost use Rattle.std.specs.Prelude.{◌≡◌, ◌≢◌, ◌++◌, OnOk, string_bytes};
ghost use Rattle.wq_words.specs.declared.answer.Answer.TheVariants as answer_variants;
ghost use Rattle.wq_words.specs.declared.answer.Armed.TheVariants as armed_variants;
ghost use Rattle.wq_words.specs.declared.answer.Modified.TheVariants as modified_variants;
ghost use Rattle.wq_meaning.specs.Answer.{answer_text, armed_text, modified_text, close_text};
ghost use Rattle.wq_meaning.specs.Report.{line};

use crate::lines::write_line;
use std::alloc::AllocError;
use wq_words::{Answer, Armed, Modified};

/// What a queueing answers, without the line's end. A script's queueing is never contended: no other seat steps meanwhile.
pub fn answer_text(answer: Answer) -> &'static str
    requires alone { answer ≢ answer_variants.Contended }
    ensures text { result.now ≡ answer_text answer }
{
    match answer {
        Answer::Queued { first: true, .. } => "true first",
        Answer::Queued { first: false, .. } => "true",
        Answer::Pending => "false pending",
        Answer::Closed => "false closed",
        Answer::Draining => "false draining",
        Answer::Contended => unreachable!(),
    }
}

/// What an arming answers, without the line's end. A script's arming is never contended, and want of memory has no text.
pub fn armed_text(armed: Armed) -> &'static str
    requires alone { armed ≢ armed_variants.Contended }
    requires memory { armed ≢ armed_variants.Memory }
    ensures text { result.now ≡ armed_text armed }
{
    match armed {
        Armed::Queued { first, wakes } => answer_text(Answer::Queued { first, wakes }),
        Armed::OnTable => "on table",
        Armed::Pending => answer_text(Answer::Pending),
        Armed::Closed => answer_text(Answer::Closed),
        Armed::Draining => answer_text(Answer::Draining),
        Armed::TooFar => "false too far",
        Armed::Contended | Armed::Memory => unreachable!(),
    }
}

/// What a modification answers, without the line's end. A script's modification is never contended, and want of memory has
/// no text.
pub fn modified_text(modified: Modified) -> &'static str
    requires alone { modified ≢ modified_variants.Contended }
    requires memory { modified ≢ modified_variants.Memory }
    ensures text { result.now ≡ modified_text modified }
{
    match modified {
        Modified::WasIdle => "was idle",
        Modified::Moved => "moved",
        Modified::Pending => "pending",
        Modified::Closed => "closed",
        Modified::Draining => "draining",
        Modified::TooFar => "too far",
        Modified::Contended | Modified::Memory => unreachable!(),
    }
}

/// Writes what a close answers: how many it took, or that the queue was closed before.
///
/// # Errors
/// Memory for `out` was refused, which may have a part of the text then.
pub fn write_close(taken: Option<u64>, out: &mut String) -> Result<(), AllocError>
    ensures written { OnOk result (string_bytes out.new ≡ string_bytes out.old ++ line (close_text taken)) }
{
    match taken {
        None => write_line("already closed", out),
        Some(taken) => writeln!(out, "closed {taken}"),
    }
}
