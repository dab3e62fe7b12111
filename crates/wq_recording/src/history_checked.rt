//! Histories as recordings.
ghost use Rattle.std.specs.Prelude.{◌≡◌, ◌++◌, ◌∷◌, [], List, OnOk, IfErr, string_bytes};
ghost use Rattle.wq_words.specs.declared.event.Event.{Event as What};
ghost use Rattle.wq_check.specs.Causes.{HasEventError};
ghost use Rattle.wq_check.specs.Checked.{IsAfter};
ghost use Rattle.wq_check.specs.declared.cause.EventError.TheVariants.{NotAllowed};
ghost use Rattle.wq_recording.specs.History.{IsEventOf};
ghost use Rattle.wq_recording.specs.HistoryReport.{event_count_lines, history_counts};

use crate::count_text::write_count_lines;
use crate::history::HistoryLanguage;
use crate::line_events::LineEvents;
use crate::recording::Recording;
use std::alloc::{AllocError, Global};
use wq_check::{Cause, Checker, EventError, Report};
use wq_meaning::{either, write_line};
use wq_words::{Event, Layout};

// Tells one event.
fn tell_event(checker: &mut Checker, event: Event) -> Result<(), Cause>
    requires { IsEventOf checker.old.queue.layout event }
    ensures layout { checker.new.queue.layout ≡ checker.old.queue.layout }
    ensures told { OnOk result ((h : List What) → IsAfter checker.old h → IsAfter checker.new (h ++ event ∷ [])) }
    ensures refused { IfErr result (λ cause. (h : List What) → IsAfter checker.old h
        → HasEventError checker.old.queue.layout h event (NotAllowed cause)) }
    ensures unchanged { IfErr result (λ _. checker.new ≡ checker.old) }
{
    let _ = checker.told();
    match checker.event(event) {
        Ok(()) => Ok(()),
        Err(EventError::NotAllowed(cause)) => Err(cause),
        Err(EventError::NoSeat | EventError::NoItem) => unreachable!(),
    }
}

// Writes how many events, executions and queueings there were, and how many numbers wait.
fn write_event_counts(report: Report, out: &mut String) -> Result<(), AllocError>
    ensures { OnOk result (string_bytes out.new ≡ string_bytes out.old ++ event_count_lines report) }
{
    let counts = [
        ("events", report.counts.events),
        ("accepted", report.counts.accepted),
        ("chained", report.counts.chained),
        ("executed", report.counts.executed),
        ("busy", report.counts.busy),
        ("refused", report.counts.refused),
        ("waiting", report.left as u64),
        ("most waiting", report.counts.most_waiting as u64),
    ];
    write_count_lines(&counts, out)
}

// Writes what is said of a history as a whole.
fn write_report(report: Report, out: &mut String) -> Result<(), AllocError>
    ensures { OnOk result (string_bytes out.new ≡ string_bytes out.old ++ history_counts report) }
{
    write_event_counts(report, out)?;
    write_line(either(report.closed, "closed yes", "closed no"), out)?;
    write_line(either(report.complete, "complete yes", "complete no"), out)
}

impl Recording for HistoryLanguage {
    type Event = Event;

    type Checker = Checker;

    ghost use Rattle.wq_words.specs.declared.event.Event.{Event};
    ghost use Rattle.wq_check.specs.Checked.{IsAfter};
    ghost use Rattle.wq_recording.specs.HistoryReport.{history_rules, history_begins};

    ghost rules = { history_rules };

    ghost layout_of = { λ c. c.queue.layout };

    ghost is_after = { IsAfter };

    fn checker(alloc: Global, layout: Layout) -> Result<Checker, AllocError> {
        Checker::new(alloc, layout)
    }

    fn tell(checker: &mut Checker, events: LineEvents) -> Result<(), Cause> {
        tell_event(checker, events.first)?;
        if let Some(second) = events.second {
            tell_event(checker, second)?;
        }
        Ok(())
    }

    fn word() -> &'static str {
        "event"
    }

    fn write_counts(checker: &Checker, out: &mut String) -> Result<(), AllocError> {
        write_report(checker.report(), out)
    }

    fn told_count(checker: &Checker) -> u64 {
        checker.report().counts.events
    }

    fn left_count(checker: &Checker) -> usize {
        checker.report().left
    }

    fn left_at(checker: &Checker, place: usize) -> Option<u32> {
        checker.left_at(place)
    }

    ghost begins = { history_begins };

    ghost legal = { λ c h after. after.stands.legal };
}
