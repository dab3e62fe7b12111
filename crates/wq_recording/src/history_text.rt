//! How a history is written as a recording.
ghost use Rattle.std.specs.Prelude.{◌≡◌, ◌++◌, IfOk, OnOk, codes, string_bytes};
ghost use Rattle.wq_words.specs.declared.event.Event.TheVariants.{Back};
ghost use Rattle.wq_meaning.specs.Report.{line, count_line};
ghost use Rattle.wq_recording.specs.HistoryText.{sender_text, event_text, event_lines, header_text, history_text, IsRecordingOf};
ghost use Rattle.wq_text.specs.Schedule.{schedule_layout, turns_of};

use std::alloc::{AllocError, Global};
use wq_meaning::{steps_history, why_text, write_count, write_line, write_named};
use wq_text::Schedule;
use wq_words::{Event, Layout, Why};

// Writes what a sender does with a number.
fn write_senders(
    layout: &Layout,
    sender: u32,
    word: &str,
    number: u32,
    out: &mut String,
) -> Result<(), AllocError>
    ensures { OnOk result (string_bytes out.new ≡ string_bytes out.old ++ sender_text layout.now sender word.now number) }
{
    write!(out, "{sender}")?;
    write_named(layout, word, number, out)
}

// Writes that a sender gives a number back, and why.
fn write_back(
    layout: &Layout,
    sender: u32,
    number: u32,
    why: Why,
    out: &mut String,
) -> Result<(), AllocError>
    ensures { OnOk result (string_bytes out.new ≡ string_bytes out.old ++ event_text layout.now (Back sender number why)) }
{
    write_senders(layout, sender, " back", number, out)?;
    out.push_str(why_text(why))
}

// Writes the words of an event's line.
fn write_event(layout: &Layout, event: Event, out: &mut String) -> Result<(), AllocError>
    ensures { OnOk result (string_bytes out.new ≡ string_bytes out.old ++ event_text layout.now event) }
{
    match event {
        Event::Hold(sender, number) => write_senders(layout, sender, " hold", number, out),
        Event::Busy(sender, number) => write_senders(layout, sender, " busy", number, out),
        Event::Push(sender, number) => write_senders(layout, sender, " push", number, out),
        Event::Back(sender, number, why) => write_back(layout, sender, number, why, out),
        Event::Take => out.push_str("o take"),
        Event::Close => out.push_str("o close"),
        Event::Drain => out.push_str("o drain"),
        Event::Resume => out.push_str("o resume"),
        Event::Begin(number) => write_named(layout, "o begin", number, out),
        Event::End(number) => write_named(layout, "o end", number, out),
        Event::Chain(number) => write_named(layout, "o chain", number, out),
        Event::ChainBusy(number) => write_named(layout, "o busy", number, out),
        Event::Rest => out.push_str("o rest"),
    }
}

// Writes the line of an event.
fn write_event_line(layout: &Layout, event: Event, out: &mut String) -> Result<(), AllocError>
    ensures { OnOk result (string_bytes out.new ≡ string_bytes out.old ++ line (event_text layout.now event)) }
{
    write_event(layout, event, out)?;
    out.push_str("\n")
}

// Writes how many items, senders and barriers there are.
fn write_numbers(layout: &Layout, out: &mut String) -> Result<(), AllocError>
    ensures { OnOk result (string_bytes out.new ≡ string_bytes out.old ++ (count_line (codes "items") layout.now.items
        ++ count_line (codes "senders") layout.now.senders ++ count_line (codes "barriers") layout.now.barriers)) }
{
    write_count("items", u64::from(layout.items), out)?;
    write_count("senders", u64::from(layout.senders), out)?;
    write_count("barriers", u64::from(layout.barriers), out)
}

// Writes the lines of the header.
fn write_header(layout: &Layout, out: &mut String) -> Result<(), AllocError>
    ensures { OnOk result (string_bytes out.new ≡ string_bytes out.old ++ header_text layout.now) }
{
    write_line("history 1", out)?;
    write_numbers(layout, out)
}

// Writes a line for each event.
fn write_events(layout: &Layout, history: &[Event], out: &mut String) -> Result<(), AllocError>
    ensures { OnOk result (string_bytes out.new ≡ string_bytes out.old ++ event_lines layout.now history.now) }
{
    for event in history {
        write_event_line(layout, *event, out)?;
    }
    Ok(())
}

// Writes the text of a history.
fn write_history(layout: &Layout, history: &[Event], out: &mut String) -> Result<(), AllocError>
    ensures { OnOk result (string_bytes out.new ≡ string_bytes out.old ++ history_text layout.now history.now) }
{
    write_header(layout, out)?;
    write_events(layout, history, out)
}

/// The text of a history as a recording, with a line for each event (docs/FORMATS.md). Where the seats and numbers of the events
/// are the layout's, what it says when it is read is just that history (`histories_read_back`); a number behind the stop item's
/// is written as `stop`. The only error is want of memory.
pub fn record_history(
    alloc: Global,
    layout: &Layout,
    history: &[Event],
) -> Result<Vec<u8>, AllocError>
    ensures written { IfOk result (λ bytes. bytes.items ≡ history_text layout.now history.now) }
{
    let mut out = String::new(alloc);
    write_history(layout, history, &mut out)?;
    Ok(out.into_bytes())
}

/// Gives the steps of a schedule in turn to the machine of a new queue, and gives the history that they make as a recording, with
/// a line for each event (docs/FORMATS.md). The only error is want of memory.
pub fn record_steps(alloc: Global, schedule: &Schedule) -> Result<Vec<u8>, AllocError>
    ensures recorded { IfOk result (λ bytes. IsRecordingOf (schedule_layout schedule.now) (turns_of schedule.now) bytes.items) }
{
    let history = steps_history(alloc, schedule)?;
    record_history(alloc, schedule.layout(), &history)
}
