//! How the steps of a schedule read.
ghost use Rattle.std.specs.Prelude.{◌≡◌, ◌++◌, OnOk, string_bytes};
ghost use Rattle.wq_meaning.specs.Replies.{head_text, reply_text, why_text, said_again, made_text};
ghost use Rattle.wq_meaning.specs.Report.{line};

use crate::lines::{either, write_name, write_named};
use std::alloc::AllocError;
use wq_core::{Reply, Step};
use wq_words::{Head, Layout, Why};

fn write_head(layout: &Layout, head: Head, out: &mut String) -> Result<(), AllocError>
    ensures { OnOk result (string_bytes out.new ≡ string_bytes out.old ++ head_text layout.now head) }
{
    match head {
        Head::Empty => out.push_str("empty"),
        Head::Item(number) => write_named(layout, "item", number, out),
        Head::Closed => out.push_str("closed"),
        Head::Draining => out.push_str("draining"),
    }
}

/// Writes a word and what was taken.
fn write_taken(layout: &Layout, word: &str, head: Head, out: &mut String) -> Result<(), AllocError>
    ensures { OnOk result (string_bytes out.new ≡ string_bytes out.old ++ (word.now ++ head_text layout.now head)) }
{
    out.push_str(word)?;
    write_head(layout, head, out)
}

/// Writes what a step is answered.
fn write_reply(layout: &Layout, reply: Reply, out: &mut String) -> Result<(), AllocError>
    ensures { OnOk result (string_bytes out.new ≡ string_bytes out.old ++ reply_text layout.now reply) }
{
    match reply {
        Reply::Held => out.push_str("held"),
        Reply::Busy | Reply::ChainBusy => out.push_str("busy"),
        Reply::Looked(head) => write_head(layout, head, out),
        Reply::Linked => out.push_str("linked"),
        Reply::Pushed { first, .. } => out.push_str(either(first, "pushed first", "pushed")),
        Reply::Lost => out.push_str("lost"),
        Reply::GivenBack => out.push_str("back"),
        Reply::Pending => out.push_str("pending"),
        Reply::Idle => out.push_str("idle"),
        Reply::Took(head) => write_taken(layout, "took ", head, out),
        Reply::Closed(head) => write_taken(layout, "closed ", head, out),
        Reply::Drained(head) => write_taken(layout, "drained ", head, out),
        Reply::Resumed => out.push_str("resumed"),
        Reply::Walked(None) => out.push_str("end"),
        Reply::Walked(Some(number)) => write_named(layout, "next", number, out),
        Reply::Began(number) => write_named(layout, "began", number, out),
        Reply::Ended(number) => write_named(layout, "ended", number, out),
        Reply::Chained => out.push_str("chained"),
        Reply::Turned => out.push_str("turned"),
        Reply::Rested => out.push_str("rested"),
    }
}

/// Why a number was given back, as a word behind a space.
pub fn why_text(cause: Why) -> &'static str
    ensures text { result.now ≡ why_text cause }
{
    match cause {
        Why::Closed => " closed",
        Why::Contended => " contended",
        Why::Cancelled => " cancelled",
        Why::Draining => " draining",
    }
}

/// Writes what the line says again of the step.
fn write_again(
    layout: &Layout,
    step: Step,
    reply: Reply,
    out: &mut String,
) -> Result<(), AllocError>
    ensures { OnOk result (string_bytes out.new ≡ string_bytes out.old ++ said_again layout.now step reply) }
{
    match (step, reply) {
        (Step::Back(_, cause), _) => out.push_str(why_text(cause)),
        (Step::Chain(number), Reply::Chained) => write_name(layout, number, out),
        _ => Ok(()),
    }
}

// Writes the line of a step that was made.
pub(crate) fn write_made(
    layout: &Layout,
    step: Step,
    reply: Reply,
    out: &mut String,
) -> Result<(), AllocError>
    ensures written { OnOk result (string_bytes out.new ≡ string_bytes out.old ++ line (made_text layout.now step reply)) }
{
    write_reply(layout, reply, out)?;
    write_again(layout, step, reply, out)?;
    out.push_str("\n")
}
