//! A checker that is told a history an event at a time.
ghost use Rattle.std.specs.Prelude.{◌≡◌, List, ◌++◌, ◌∷◌, [], slice_get, IfOk, OnOk, IfErr, OnErr};
ghost use Rattle.wq_words.specs.declared.event.Event.{Event};
ghost use Rattle.wq_words.specs.Legal.{IsAllowed};
ghost use Rattle.wq_check.specs.Causes.{HasEventError};
ghost use Rattle.wq_check.specs.Checked.{IsAfter};
ghost use Rattle.wq_check.specs.Left.{left};
ghost use Rattle.wq_check.specs.Report.{report_of};

use crate::cause::EventError;
use crate::counts::{Counts, Report};
use crate::queue::Queue;
use std::alloc::{AllocError, Global};
use std::marker::Model;
use wq_words::{Event, Layout};

/// What is kept of a history to tell of each next event whether it is allowed. It takes no memory once it is made.
#[derive(Drop)]
pub struct Checker {
    queue: Queue,
    counts: Counts,
}

impl Model for Checker {
    ghost use Rattle.std.specs.Prelude.{List};
    ghost use Rattle.wq_words.specs.declared.event.Event.{Event};
    ghost use Rattle.wq_check.specs.Checked.{CheckerState, checker_state, IsAfter};

    ghost Value = { CheckerState };

    ghost view = { λ c. checker_state c.queue c.counts };

    ghost invariant = { λ c. (h : List Event) × IsAfter (checker_state c.queue c.counts) h };
}

impl Checker {
    /// A checker that was told nothing.
    ///
    /// # Errors
    /// No memory could be had.
    pub fn new(alloc: Global, layout: Layout) -> Result<Checker, AllocError>
        ensures told { IfOk result (λ checker. (checker.queue.layout ≡ layout) × IsAfter checker []) }
    {
        Ok(Checker {
            queue: Queue::new(alloc, layout)?,
            counts: Counts::none(),
        })
    }

    /// Tells the next event of the history. Takes no memory.
    ///
    /// # Errors
    /// The first fault that fits, with its cause, where the history with this event behind it is not legal; then nothing
    /// has changed.
    pub fn event(&mut self, event: Event) -> Result<(), EventError>
        ensures allowed { OnOk result ((h : List Event) → IsAfter self.old h → IsAllowed self.old.queue.layout h event) }
        ensures told { OnOk result ((h : List Event) → IsAfter self.old h → IsAfter self.new (h ++ event ∷ [])) }
        ensures refused { IfErr result (λ error. (h : List Event) → IsAfter self.old h
            → HasEventError self.old.queue.layout h event error) }
        ensures unchanged { OnErr result (self.new ≡ self.old) }
        ensures layout { self.new.queue.layout ≡ self.old.queue.layout }
    {
        self.queue.check(event)?;
        self.queue.make(event);
        self.counts = self.counts.with(event, self.queue.waiting_count());
        Ok(())
    }

    /// Some legal history is the one that it was told. It computes nothing.
    pub fn told(&self)
        ensures some { (h : List Event) × IsAfter self.now h }
    {
        // opens the checker, whose invariant says this
        let _ = &self.counts;
    }

    /// What is counted and left.
    pub fn report(&self) -> Report
        ensures report { (h : List Event) → IsAfter self.now h → result ≡ report_of h }
    {
        let left = self.queue.left_count();
        let closed = self.queue.is_closed();
        Report {
            counts: self.counts,
            left,
            closed,
            complete: closed && left == 0,
        }
    }

    /// The number at this place, counted from 0, of what is accepted and has not ended, in order.
    pub fn left_at(&self, place: usize) -> Option<u32>
        ensures left { (h : List Event) → IsAfter self.now h → result ≡ slice_get (left h) place }
    {
        self.queue.left_at(place)
    }
}
