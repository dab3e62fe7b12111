//! How a queue looks from outside after the marks that were told.
ghost use Rattle.std.specs.Prelude.{◌≡◌, ◌↔◌, ◌<◌, List, ◌++◌, ◌∷◌, [], None, Some, length, get_or, slice_get, IsTrue, IfOk, OnOk, IfErr};
ghost use Rattle.wq_check.specs.declared.mark.Mark.{Mark};
ghost use Rattle.wq_check.specs.declared.mark.Mark.TheVariants as mark;
ghost use Rattle.wq_check.specs.Trace.{MayShow, number_of, unstarted, unreturned};
ghost use Rattle.wq_check.specs.MarkCauses.{HasMarkError};
ghost use Rattle.wq_check.specs.TraceChecked.{LooksAfter, JudgesMark};

use crate::cause::{Cause, MarkError};
use crate::mark::Mark;
use circular_buffer::HeapCircularBuffer;
use std::alloc::{AllocError, Global};
use std::marker::Model;
use wq_words::Layout;

// How a queue looks. It takes no memory once it is made: only the first that waits can be queued again, since it may have
// begun unseen, so there is room for each that is queued.
#[derive(Drop)]
pub(crate) struct SeenQueue {
    layout: Layout,
    // how often each item waits
    times: Vec<u32>,
    waiting: HeapCircularBuffer<u32>,
    running: Option<u32>,
}

impl Model for SeenQueue {
    ghost use Rattle.std.specs.Prelude.{◌≡◌, ◌+◌, List};
    ghost use Rattle.wq_words.specs.Numbers.{number_count};
    ghost use Rattle.wq_check.specs.declared.mark.Mark.{Mark};
    ghost use Rattle.wq_check.specs.TraceChecked.{SeenState, seen_state, LooksAfter};

    ghost Value = { SeenState };

    ghost view = { λ q. seen_state q.layout q.times.items q.waiting.items q.running };

    // there is room for all numbers to wait, and for one of them twice
    ghost invariant = { λ q. (q.waiting.capacity ≡ number_count q.layout + 1)
        × ((t : List Mark) × LooksAfter (seen_state q.layout q.times.items q.waiting.items q.running) t) };
}

impl SeenQueue {
    // A queue of which nothing was seen.
    pub(crate) fn new(alloc: Global, layout: Layout) -> Result<SeenQueue, AllocError>
        ensures { IfOk result (λ queue. (queue.layout ≡ layout) × LooksAfter queue []) }
    {
        Ok(SeenQueue {
            layout,
            times: vec![in alloc; 0; layout.items as usize]?,
            waiting: HeapCircularBuffer::with_capacity(alloc, layout.number_count() as usize + 1)?,
            running: None,
        })
    }

    // How often the item waits.
    fn times_of(&self, number: u32) -> u32
        requires { number < self.now.layout.items }
        ensures { result ≡ get_or self.now.times number 0 }
    {
        self.times[number as usize]
    }

    // Whether nothing runs, and the item is the first that waits.
    fn is_next(&self, number: u32) -> bool
        ensures { IsTrue result ↔ ((self.now.running ≡ None) × (slice_get self.now.waiting 0 ≡ Some number)) }
    {
        self.running.is_none() && self.waiting.front().copied() == Some(number)
    }

    fn queue_cause(&self, number: u32) -> Option<Cause>
        requires { number < self.now.layout.items }
        ensures { JudgesMark self.now (mark.Queue number) result }
    {
        let times = self.times_of(number);
        if times == 0 {
            return None;
        }
        if times > 1 {
            return Some(Cause::Pending);
        }
        if self.is_next(number) {
            return None;
        }
        Some(Cause::Pending)
    }

    fn start_cause(&self, number: u32) -> Option<Cause>
        requires { number < self.now.layout.items }
        ensures { JudgesMark self.now (mark.Start number) result }
    {
        if let Some(other) = self.running {
            return Some(Cause::Runs(other));
        }
        if self.times_of(number) == 0 {
            return Some(Cause::NotWaiting);
        }
        match self.waiting.front().copied() {
            Some(next) if next != number => Some(Cause::Next(next)),
            _ => None,
        }
    }

    fn end_cause(&self, number: u32) -> Option<Cause>
        ensures { JudgesMark self.now (mark.End number) result }
    {
        match self.running {
            None => Some(Cause::NothingRuns),
            Some(other) if other != number => Some(Cause::Runs(other)),
            _ => None,
        }
    }

    // What the marks before say against this one, if anything.
    fn cause(&self, mark: Mark) -> Option<Cause>
        requires { number_of mark < self.now.layout.items }
        ensures { JudgesMark self.now mark result }
    {
        match mark {
            Mark::Queue(number) => self.queue_cause(number),
            Mark::Start(number) => self.start_cause(number),
            Mark::End(number) => self.end_cause(number),
        }
    }

    // Whether the mark is of an item and may be shown.
    pub(crate) fn check(&self, mark: Mark) -> Result<(), MarkError>
        ensures allowed { OnOk result ((t : List Mark) → LooksAfter self.now t
            → (number_of mark < self.now.layout.items) × MayShow t mark) }
        ensures refused { IfErr result (λ error. (t : List Mark) → LooksAfter self.now t
            → HasMarkError self.now.layout t mark error) }
    {
        if mark.number() >= self.layout.items {
            return Err(MarkError::NoItem);
        }
        if let Some(cause) = self.cause(mark) {
            return Err(MarkError::NotAllowed(cause));
        }
        Ok(())
    }

    // The mark is shown.
    pub(crate) fn make(&mut self, mark: Mark)
        requires { (t : List Mark) → LooksAfter self.old t → (number_of mark < self.old.layout.items) × MayShow t mark }
        ensures told { (t : List Mark) → LooksAfter self.old t → LooksAfter self.new (t ++ mark ∷ []) }
        ensures layout { self.new.layout ≡ self.old.layout }
    {
        match mark {
            Mark::Queue(number) => {
                self.times[number as usize] += 1;
                let _ = self.waiting.push_back(number);
            }
            Mark::Start(number) => {
                self.times[number as usize] -= 1;
                let _ = self.waiting.pop_front();
                self.running = Some(number);
            }
            Mark::End(_) => self.running = None,
        }
    }

    // How many items wait for their start.
    pub(crate) fn waiting_count(&self) -> usize
        ensures { (t : List Mark) → LooksAfter self.now t → result ≡ length (unstarted t) }
    {
        self.waiting.len()
    }

    // How many items were queued and have not ended.
    pub(crate) fn left_count(&self) -> usize
        ensures { (t : List Mark) → LooksAfter self.now t → result ≡ length (unreturned t) }
    {
        match self.running {
            Some(_) => self.waiting.len() + 1,
            None => self.waiting.len(),
        }
    }

    // The item at this place of what was queued and has not ended.
    pub(crate) fn left_at(&self, place: usize) -> Option<u32>
        ensures { (t : List Mark) → LooksAfter self.now t → result ≡ slice_get (unreturned t) place }
    {
        match self.running {
            Some(number) if place == 0 => Some(number),
            Some(_) => self.waiting.get(place - 1).copied(),
            None => self.waiting.get(place).copied(),
        }
    }
}
