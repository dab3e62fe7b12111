//! A checker that is told a trace a mark at a time.
ghost use Rattle.std.specs.Prelude.{◌≡◌, ◌<◌, List, ◌++◌, ◌∷◌, [], slice_get, IfOk, OnOk, IfErr, OnErr};
ghost use Rattle.wq_check.specs.declared.mark.Mark.{Mark};
ghost use Rattle.wq_check.specs.Trace.{MayShow, number_of, unreturned};
ghost use Rattle.wq_check.specs.MarkCauses.{HasMarkError};
ghost use Rattle.wq_check.specs.TraceChecked.{IsAfterMarks};
ghost use Rattle.wq_check.specs.TraceReport.{trace_report_of};

use crate::cause::MarkError;
use crate::mark::Mark;
use crate::mark_counts::{MarkCounts, TraceReport};
use crate::seen_queue::SeenQueue;
use std::alloc::{AllocError, Global};
use std::marker::Model;
use wq_words::Layout;

/// What is kept of a trace to tell of each next mark whether it may be shown. It takes no memory once it is made.
#[derive(Drop)]
pub struct TraceChecker {
    queue: SeenQueue,
    counts: MarkCounts,
}

impl Model for TraceChecker {
    ghost use Rattle.std.specs.Prelude.{List};
    ghost use Rattle.wq_check.specs.declared.mark.Mark.{Mark};
    ghost use Rattle.wq_check.specs.TraceChecked.{TraceCheckerState, trace_checker_state, IsAfterMarks};

    ghost Value = { TraceCheckerState };

    ghost view = { λ c. trace_checker_state c.queue c.counts };

    ghost invariant = { λ c. (t : List Mark) × IsAfterMarks (trace_checker_state c.queue c.counts) t };
}

impl TraceChecker {
    /// A checker that was told nothing.
    ///
    /// # Errors
    /// No memory could be had.
    pub fn new(alloc: Global, layout: Layout) -> Result<TraceChecker, AllocError>
        ensures told { IfOk result (λ checker. (checker.queue.layout ≡ layout) × IsAfterMarks checker []) }
    {
        Ok(TraceChecker {
            queue: SeenQueue::new(alloc, layout)?,
            counts: MarkCounts::none(),
        })
    }

    /// Tells the next mark of the trace. Takes no memory.
    ///
    /// # Errors
    /// That it is of no item, or else the cause why it may not be shown after the marks before; then nothing has changed.
    pub fn mark(&mut self, mark: Mark) -> Result<(), MarkError>
        ensures allowed { OnOk result ((t : List Mark) → IsAfterMarks self.old t
            → (number_of mark < self.old.queue.layout.items) × MayShow t mark) }
        ensures told { OnOk result ((t : List Mark) → IsAfterMarks self.old t → IsAfterMarks self.new (t ++ mark ∷ [])) }
        ensures refused { IfErr result (λ error. (t : List Mark) → IsAfterMarks self.old t
            → HasMarkError self.old.queue.layout t mark error) }
        ensures unchanged { OnErr result (self.new ≡ self.old) }
        ensures layout { self.new.queue.layout ≡ self.old.queue.layout }
    {
        self.queue.check(mark)?;
        self.queue.make(mark);
        self.counts = self.counts.with(mark, self.queue.waiting_count());
        Ok(())
    }

    /// Some legal trace is the one that it was told. It computes nothing.
    pub fn told(&self)
        ensures some { (t : List Mark) × IsAfterMarks self.now t }
    {
        // opens the checker, whose invariant says this
        let _ = &self.counts;
    }

    /// What is counted and left.
    pub fn report(&self) -> TraceReport
        ensures report { (t : List Mark) → IsAfterMarks self.now t → result ≡ trace_report_of t }
    {
        TraceReport {
            counts: self.counts,
            left: self.queue.left_count(),
        }
    }

    /// The item at this place, counted from 0, of what was queued and has not ended, in order.
    pub fn left_at(&self, place: usize) -> Option<u32>
        ensures left { (t : List Mark) → IsAfterMarks self.now t → result ≡ slice_get (unreturned t) place }
    {
        self.queue.left_at(place)
    }
}
