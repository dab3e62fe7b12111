//! The two checkers, made where memory may be wanting, and told what a queue did.
use crate::calls::{Said, right};
use std::alloc::Global;
use wq_check::{Cause, Checker, EventError, Mark, MarkError, TraceChecker};
use wq_words::Event::{Begin, End, Hold, Push};
use wq_words::Layout;

/// A checker of events, which after it was made takes no memory: an execution, and an end too many.
pub fn check_events(alloc: Global) -> Said {
    let Ok(layout) = Layout::new(4, 1, 2) else {
        return Said::Wrong;
    };
    let Ok(mut checker) = Checker::new(alloc, layout) else {
        return Said::Memory;
    };
    for event in &[Hold(0, 1), Push(0, 1), Begin(1), End(1)] {
        if checker.event(*event).is_err() {
            return Said::Wrong;
        }
    }
    let ends_again = checker.event(End(1)) == Err(EventError::NotAllowed(Cause::NothingRuns));
    right(ends_again && checker.report().counts.executed == 1)
}

/// A checker of marks, the same: an execution, and a start too many.
pub fn check_marks(alloc: Global) -> Said {
    let Ok(layout) = Layout::new(4, 1, 2) else {
        return Said::Wrong;
    };
    let Ok(mut checker) = TraceChecker::new(alloc, layout) else {
        return Said::Memory;
    };
    for mark in &[Mark::Queue(1), Mark::Start(1), Mark::End(1)] {
        if checker.mark(*mark).is_err() {
            return Said::Wrong;
        }
    }
    let starts_again = checker.mark(Mark::Start(1))
        == Err(MarkError::NotAllowed(Cause::NotWaiting));
    right(starts_again && checker.report().counts.ended == 1)
}
