//! What the checkers are told.
use crate::refusal::Refusal;
use std::alloc::Global;
use wq_check::{Checker, Mark, TraceChecker};
use wq_words::{Event, Layout};

/// What a checker of recordings is told.
#[derive(Clone, Copy, PartialEq, Eq)]
pub enum CheckerInput {
    /// Events of a history.
    Events,
    /// Marks of a trace.
    Marks,
}

/// How many items there are, as many as are queued before the first of them runs.
const ITEMS: u32 = 64;

// The event at this place: each item is held and pushed in turn, then each begins and ends.
fn event_at(place: u64) -> Event {
    let step = (place % 256) as u32;
    let item = step / 2 % ITEMS;
    match (step < 128, step % 2 == 0) {
        (true, true) => Event::Hold(0, item),
        (true, false) => Event::Push(0, item),
        (false, true) => Event::Begin(item),
        (false, false) => Event::End(item),
    }
}

// The mark at this place: each item is queued in turn, then each starts and ends.
fn mark_at(place: u64) -> Mark {
    let step = (place % 192) as u32;
    if step < ITEMS {
        return Mark::Queue(step);
    }
    let item = (step - ITEMS) / 2;
    if step % 2 == 0 {
        Mark::Start(item)
    } else {
        Mark::End(item)
    }
}

impl CheckerInput {
    pub fn name(self) -> &'static str {
        match self {
            CheckerInput::Events => "events",
            CheckerInput::Marks => "marks",
        }
    }
}

/// Tells a checker so many events. How many it counted.
fn events(alloc: Global, count: u64) -> Result<u64, Refusal> {
    let mut checker = Checker::new(alloc, Layout::new(ITEMS, 1, 1)?)?;
    for place in 0..count {
        if checker.event(event_at(place)).is_err() {
            return Err(Refusal::NotLegal);
        }
    }
    Ok(checker.report().counts.events)
}

/// Tells a checker of traces so many marks. How many it counted.
fn marks(alloc: Global, count: u64) -> Result<u64, Refusal> {
    let mut checker = TraceChecker::new(alloc, Layout::new(ITEMS, 1, 1)?)?;
    for place in 0..count {
        if checker.mark(mark_at(place)).is_err() {
            return Err(Refusal::NotLegal);
        }
    }
    Ok(checker.report().counts.marks)
}

/// Tells a checker so much. How much it counted.
pub fn tell(alloc: Global, input: CheckerInput, count: u64) -> Result<u64, Refusal> {
    match input {
        CheckerInput::Events => events(alloc, count),
        CheckerInput::Marks => marks(alloc, count),
    }
}
