//! How a queue stands after the events that were told.
ghost use Rattle.std.specs.Prelude.{◌≡◌, ◌↔◌, ◌<◌, List, ◌++◌, ◌∷◌, [], length, get_or, slice_get, IsTrue, IfOk, OnOk, IfErr};
ghost use Rattle.wq_words.specs.declared.event.Event.{Event};
ghost use Rattle.wq_words.specs.declared.event.Event.TheVariants as event;
ghost use Rattle.wq_words.specs.History.{unbegun, IsPending, Holds, IsDraining};
ghost use Rattle.wq_words.specs.Legal.{HasNumber, IsAllowed};
ghost use Rattle.wq_words.specs.Numbers.{number_count};
ghost use Rattle.wq_check.specs.declared.queue.Place.TheVariants.{Idle};
ghost use Rattle.wq_check.specs.Causes.{HasEventError};
ghost use Rattle.wq_check.specs.Checked.{StandsAfter, Judges};
ghost use Rattle.wq_check.specs.Left.{left};

use crate::cause::{Cause, EventError};
use circular_buffer::HeapCircularBuffer;
use std::alloc::{AllocError, Global};
use std::marker::Model;
use wq_words::{Event, Layout, Why};

// Where a number stands.
#[derive(Clone, Copy, Debug, PartialEq, Eq)]
pub(crate) enum Place {
    // its PENDING bit is clear
    Idle,
    // this sender holds it
    Held(u32),
    // it was accepted and has not begun
    Waiting,
}

// How a queue stands. It takes no memory once it is made: a number waits once, so there is room for each that is accepted.
#[derive(Drop)]
pub(crate) struct Queue {
    layout: Layout,
    places: Vec<Place>,
    waiting: HeapCircularBuffer<u32>,
    running: Option<u32>,
    closed: bool,
    // closed or draining
    shut: bool,
    // a drain has begun, ended or not
    has_drained: bool,
}

impl Model for Queue {
    ghost use Rattle.std.specs.Prelude.{◌≡◌, List};
    ghost use Rattle.wq_words.specs.declared.event.Event.{Event};
    ghost use Rattle.wq_words.specs.Numbers.{number_count};
    ghost use Rattle.wq_check.specs.Checked.{QueueState, queue_state, StandsAfter};

    ghost Value = { QueueState };

    ghost view = { λ q. queue_state q.layout q.places.items q.waiting.items q.running q.closed q.shut q.has_drained };

    // there is room for all numbers to wait
    ghost invariant = { λ q. (q.waiting.capacity ≡ number_count q.layout)
        × ((h : List Event) × StandsAfter (queue_state q.layout q.places.items q.waiting.items q.running q.closed q.shut q.has_drained) h) };
}

impl Queue {
    // A queue to which nothing has happened.
    pub(crate) fn new(alloc: Global, layout: Layout) -> Result<Queue, AllocError>
        ensures { IfOk result (λ queue. (queue.layout ≡ layout) × StandsAfter queue []) }
    {
        let count = layout.number_count() as usize;
        Ok(Queue {
            layout,
            places: vec![in alloc; Place::Idle; count]?,
            waiting: HeapCircularBuffer::with_capacity(alloc, count)?,
            running: None,
            closed: false,
            shut: false,
            has_drained: false,
        })
    }

    fn is_at(&self, number: u32, place: Place) -> bool
        requires { number < number_count self.now.layout }
        ensures { IsTrue result ↔ (get_or self.now.places number Idle ≡ place) }
    {
        self.places[number as usize] == place
    }

    fn is_pending(&self, number: u32) -> bool
        requires { number < number_count self.now.layout }
        ensures { (h : List Event) → StandsAfter self.now h → IsTrue result ↔ IsPending h number }
    {
        !self.is_at(number, Place::Idle)
    }

    fn is_held(&self, sender: u32, number: u32) -> bool
        requires { number < number_count self.now.layout }
        ensures { (h : List Event) → StandsAfter self.now h → IsTrue result ↔ Holds h sender number }
    {
        self.is_at(number, Place::Held(sender))
    }

    fn is_draining(&self) -> bool
        ensures { (h : List Event) → StandsAfter self.now h → IsTrue result ↔ IsDraining h }
    {
        self.shut && !self.closed
    }

    // Of a Take and of a Drain: why the queue is not open, if it is not.
    fn shut_cause(&self) -> Option<Cause>
        ensures take { Judges self.now event.Take result }
        ensures drain { Judges self.now event.Drain result }
    {
        if self.closed {
            return Some(Cause::Closed);
        }
        if self.shut {
            return Some(Cause::Draining);
        }
        None
    }

    fn hold_cause(&self, sender: u32, number: u32) -> Option<Cause>
        requires { number < number_count self.now.layout }
        ensures { Judges self.now (event.Hold sender number) result }
    {
        if self.is_pending(number) {
            return Some(Cause::Pending);
        }
        None
    }

    fn busy_cause(&self, sender: u32, number: u32) -> Option<Cause>
        requires { number < number_count self.now.layout }
        ensures { Judges self.now (event.Busy sender number) result }
    {
        if !self.is_pending(number) {
            return Some(Cause::Idle);
        }
        None
    }

    fn push_cause(&self, sender: u32, number: u32) -> Option<Cause>
        requires { number < number_count self.now.layout }
        ensures { Judges self.now (event.Push sender number) result }
    {
        if !self.is_held(sender, number) {
            return Some(Cause::NotHeld);
        }
        self.shut_cause()
    }

    fn back_cause(&self, sender: u32, number: u32, why: Why) -> Option<Cause>
        requires { number < number_count self.now.layout }
        ensures { Judges self.now (event.Back sender number why) result }
    {
        if !self.is_held(sender, number) {
            return Some(Cause::NotHeld);
        }
        match why {
            Why::Closed if !self.closed => Some(Cause::Open),
            Why::Draining if !self.has_drained => Some(Cause::NeverDrained),
            _ => None,
        }
    }

    fn close_cause(&self) -> Option<Cause>
        ensures { Judges self.now event.Close result }
    {
        if self.closed {
            return Some(Cause::Closed);
        }
        None
    }

    fn resume_cause(&self) -> Option<Cause>
        ensures { Judges self.now event.Resume result }
    {
        if !self.is_draining() {
            return Some(Cause::NotDraining);
        }
        if self.left_count() > 0 {
            return Some(Cause::NotEnded);
        }
        None
    }

    fn begin_cause(&self, number: u32) -> Option<Cause>
        requires { number < number_count self.now.layout }
        ensures { Judges self.now (event.Begin number) result }
    {
        if let Some(other) = self.running {
            return Some(Cause::Runs(other));
        }
        if !self.is_at(number, Place::Waiting) {
            return Some(Cause::NotWaiting);
        }
        match self.waiting.front().copied() {
            Some(next) if next != number => Some(Cause::Next(next)),
            _ => None,
        }
    }

    fn end_cause(&self, number: u32) -> Option<Cause>
        ensures { Judges self.now (event.End number) result }
    {
        match self.running {
            None => Some(Cause::NothingRuns),
            Some(other) if other != number => Some(Cause::Runs(other)),
            _ => None,
        }
    }

    fn chain_cause(&self, number: u32) -> Option<Cause>
        requires { number < number_count self.now.layout }
        ensures { Judges self.now (event.Chain number) result }
    {
        if !self.shut {
            return Some(Cause::Open);
        }
        if self.running.is_none() {
            return Some(Cause::NothingRuns);
        }
        if self.is_pending(number) {
            return Some(Cause::Pending);
        }
        None
    }

    fn chain_busy_cause(&self, number: u32) -> Option<Cause>
        requires { number < number_count self.now.layout }
        ensures { Judges self.now (event.ChainBusy number) result }
    {
        if !self.shut {
            return Some(Cause::Open);
        }
        if self.running.is_none() {
            return Some(Cause::NothingRuns);
        }
        if !self.is_pending(number) {
            return Some(Cause::Idle);
        }
        None
    }

    fn rest_cause(&self) -> Option<Cause>
        ensures { Judges self.now event.Rest result }
    {
        if let Some(cause) = self.shut_cause() {
            return Some(cause);
        }
        if self.left_count() > 0 {
            return Some(Cause::NotEnded);
        }
        None
    }

    // What the events before say against this one, if anything, whatever its seat.
    fn cause(&self, event: Event) -> Option<Cause>
        requires { HasNumber self.now.layout event }
        ensures judged { Judges self.now event result }
    {
        match event {
            Event::Hold(sender, number) => self.hold_cause(sender, number),
            Event::Busy(sender, number) => self.busy_cause(sender, number),
            Event::Push(sender, number) => self.push_cause(sender, number),
            Event::Back(sender, number, why) => self.back_cause(sender, number, why),
            Event::Take | Event::Drain => self.shut_cause(),
            Event::Close => self.close_cause(),
            Event::Resume => self.resume_cause(),
            Event::Begin(number) => self.begin_cause(number),
            Event::End(number) => self.end_cause(number),
            Event::Chain(number) => self.chain_cause(number),
            Event::ChainBusy(number) => self.chain_busy_cause(number),
            Event::Rest => self.rest_cause(),
        }
    }

    // Whether the event is allowed.
    pub(crate) fn check(&self, event: Event) -> Result<(), EventError>
        ensures allowed { OnOk result ((h : List Event) → StandsAfter self.now h → IsAllowed self.now.layout h event) }
        ensures refused { IfErr result (λ error. (h : List Event) → StandsAfter self.now h
            → HasEventError self.now.layout h event error) }
    {
        if !event.has_seat(&self.layout) {
            return Err(EventError::NoSeat);
        }
        if !event.has_number(&self.layout) {
            return Err(EventError::NoItem);
        }
        if let Some(cause) = self.cause(event) {
            return Err(EventError::NotAllowed(cause));
        }
        Ok(())
    }

    // The event comes.
    pub(crate) fn make(&mut self, event: Event)
        requires { (h : List Event) → StandsAfter self.old h → IsAllowed self.old.layout h event }
        ensures told { (h : List Event) → StandsAfter self.old h → StandsAfter self.new (h ++ event ∷ []) }
        ensures layout { self.new.layout ≡ self.old.layout }
    {
        match event {
            Event::Hold(sender, number) => self.places[number as usize] = Place::Held(sender),
            Event::Push(_, number) | Event::Chain(number) => {
                self.places[number as usize] = Place::Waiting;
                let _ = self.waiting.push_back(number);
            }
            Event::Back(_, number, _) => self.places[number as usize] = Place::Idle,
            Event::Close => {
                self.closed = true;
                self.shut = true;
            }
            Event::Drain => {
                self.shut = true;
                self.has_drained = true;
            }
            Event::Resume => self.shut = false,
            Event::Begin(number) => {
                self.places[number as usize] = Place::Idle;
                let _ = self.waiting.pop_front();
                self.running = Some(number);
            }
            Event::End(_) => self.running = None,
            Event::Busy(_, _) | Event::ChainBusy(_) | Event::Take | Event::Rest => {}
        }
    }

    // How many numbers wait to begin.
    pub(crate) fn waiting_count(&self) -> usize
        ensures { (h : List Event) → StandsAfter self.now h → result ≡ length (unbegun h) }
    {
        self.waiting.len()
    }

    // How many numbers are accepted and have not ended.
    pub(crate) fn left_count(&self) -> usize
        ensures { (h : List Event) → StandsAfter self.now h → result ≡ length (left h) }
    {
        match self.running {
            Some(_) => self.waiting.len() + 1,
            None => self.waiting.len(),
        }
    }

    // The number at this place of what is accepted and has not ended.
    pub(crate) fn left_at(&self, place: usize) -> Option<u32>
        ensures { (h : List Event) → StandsAfter self.now h → result ≡ slice_get (left h) place }
    {
        match self.running {
            Some(number) if place == 0 => Some(number),
            Some(_) => self.waiting.get(place - 1).copied(),
            None => self.waiting.get(place).copied(),
        }
    }

    pub(crate) fn is_closed(&self) -> bool
        ensures { result ≡ self.now.closed }
    {
        self.closed
    }
}
