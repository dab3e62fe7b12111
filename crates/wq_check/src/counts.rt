//! What is counted of a history.
ghost use Rattle.std.specs.Prelude.{◌≡◌, ◌∷◌, ◌++◌, [], ◌+◌, ℕ, List, length, cond};
ghost use Rattle.wq_words.specs.declared.event.Event.{Event};
ghost use Rattle.wq_words.specs.History.{unbegun};
ghost use Rattle.wq_words.specs.Counting.{capped, is_chain, is_busy, is_refusal};
ghost use Rattle.wq_check.specs.Report.{event_counts};

use wq_words::{Event, Why};

/// Counts over all events so far; those of 64 bits stop at `2^64 - 1`.
#[derive(Clone, Copy, Debug, PartialEq, Eq)]
pub struct Counts {
    /// Events in all.
    pub events: u64,
    /// Numbers that were pushed or chained.
    pub accepted: u64,
    /// Those of them that were chained.
    pub chained: u64,
    /// Executions that ended.
    pub executed: u64,
    /// Queueings that found the PENDING bit set.
    pub busy: u64,
    /// Queueings that were given back because the queue took no push: it was closed, or drained.
    pub refused: u64,
    /// How many numbers, accepted and not begun, waited at the moment when most did.
    pub most_waiting: usize,
}

/// What a checker says of the history that it was told.
#[derive(Clone, Copy, Debug, PartialEq, Eq)]
pub struct Report {
    /// What was counted.
    pub counts: Counts,
    /// How many numbers are accepted and have not ended.
    pub left: usize,
    /// Whether the queue is closed.
    pub closed: bool,
    /// Whether it is closed, and nothing is left.
    pub complete: bool,
}

// One more where it counts.
pub(crate) fn counted(count: u64, counts: bool) -> u64
    ensures { (n : ℕ) → count ≡ capped n → result ≡ capped (n + cond counts 1 0) }
{
    if counts {
        count.saturating_add(1)
    } else {
        count
    }
}

fn is_chain(event: Event) -> bool
    ensures { result ≡ is_chain event }
{
    match event {
        Event::Chain(_) => true,
        _ => false,
    }
}

fn is_busy(event: Event) -> bool
    ensures { result ≡ is_busy event }
{
    match event {
        Event::Busy(_, _) | Event::ChainBusy(_) => true,
        _ => false,
    }
}

fn is_refusal(event: Event) -> bool
    ensures { result ≡ is_refusal event }
{
    match event {
        Event::Back(_, _, why) => matches!(why, Why::Closed | Why::Draining),
        _ => false,
    }
}

impl Counts {
    pub(crate) fn none() -> Counts
        ensures { result ≡ event_counts [] }
    {
        Counts {
            events: 0,
            accepted: 0,
            chained: 0,
            executed: 0,
            busy: 0,
            refused: 0,
            most_waiting: 0,
        }
    }

    // With one event more, after which so many wait.
    pub(crate) fn with(self, event: Event, waiting_count: usize) -> Counts
        ensures { (h : List Event) → self ≡ event_counts h → waiting_count ≡ length (unbegun (h ++ event ∷ []))
            → result ≡ event_counts (h ++ event ∷ []) }
    {
        Counts {
            events: counted(self.events, true),
            accepted: counted(self.accepted, event.accepted_number().is_some()),
            chained: counted(self.chained, is_chain(event)),
            executed: counted(self.executed, event.ended_number().is_some()),
            busy: counted(self.busy, is_busy(event)),
            refused: counted(self.refused, is_refusal(event)),
            most_waiting: self.most_waiting.max(waiting_count),
        }
    }
}
