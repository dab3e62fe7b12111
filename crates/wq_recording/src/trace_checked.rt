//! Traces as recordings.
ghost use Rattle.std.specs.Prelude.{◌≡◌, ◌++◌, OnOk, string_bytes};
ghost use Rattle.wq_recording.specs.TraceReport.{trace_counts};

use crate::count_text::write_count_lines;
use crate::recording::Recording;
use crate::trace::TraceLanguage;
use std::alloc::{AllocError, Global};
use wq_check::{Cause, Mark, MarkError, TraceChecker, TraceReport};
use wq_words::Layout;

// Writes what is counted of a trace, a line each.
fn write_report(report: TraceReport, out: &mut String) -> Result<(), AllocError>
    ensures { OnOk result (string_bytes out.new ≡ string_bytes out.old ++ trace_counts report) }
{
    let counts = [
        ("marks", report.counts.marks),
        ("queued", report.counts.queued),
        ("started", report.counts.started),
        ("ended", report.counts.ended),
        ("waiting", report.left as u64),
        ("most waiting", report.counts.most_waiting as u64),
    ];
    write_count_lines(&counts, out)
}

impl Recording for TraceLanguage {
    type Event = Mark;

    type Checker = TraceChecker;

    ghost use Rattle.wq_check.specs.TraceChecked.{IsAfterMarks};
    ghost use Rattle.wq_recording.specs.TraceReport.{trace_rules, trace_begins};

    ghost rules = { trace_rules };

    ghost layout_of = { λ c. c.queue.layout };

    ghost is_after = { IsAfterMarks };

    fn checker(alloc: Global, layout: Layout) -> Result<TraceChecker, AllocError> {
        TraceChecker::new(alloc, layout)
    }

    fn tell(checker: &mut TraceChecker, mark: Mark) -> Result<(), Cause> {
        let _ = checker.told();
        match checker.mark(mark) {
            Ok(()) => Ok(()),
            Err(MarkError::NotAllowed(cause)) => Err(cause),
            Err(MarkError::NoItem) => unreachable!(),
        }
    }

    fn word() -> &'static str {
        "mark"
    }

    fn write_counts(checker: &TraceChecker, out: &mut String) -> Result<(), AllocError> {
        write_report(checker.report(), out)
    }

    fn told_count(checker: &TraceChecker) -> u64 {
        checker.report().counts.marks
    }

    fn left_count(checker: &TraceChecker) -> usize {
        checker.report().left
    }

    fn left_at(checker: &TraceChecker, place: usize) -> Option<u32> {
        checker.left_at(place)
    }

    ghost begins = { trace_begins };

    ghost legal = { λ c t after. after.looks.legal };
}
