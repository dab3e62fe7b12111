//! Histories and their checker.
ghost use Rattle.std.specs.Prelude.{◌≡◌, ◌↔◌, IsTrue, length, OnOk, IfErr, IfSome, IfNone};
ghost use Rattle.wq_words.specs.Legal.{MayFollow, IsCause, IsAllowed, HasFault, IsLegal, IsFirstFault};
ghost use Rattle.wq_words.specs.History.{IsShut, IsRunning, ended, accepted};
ghost use Rattle.wq_words.specs.declared.event.Event.TheVariants.{Push, Resume, Begin};

use crate::counts::{
    Milestone, has_drained, holds, is_closed, is_pending, is_running, is_shut, next, reached_count,
    running,
};
use crate::event::{Event, Why};
use crate::layout::Layout;
use thiserror::Error;

/// Why an event is not allowed, the first of these that fits.
#[derive(Clone, Copy, Debug, PartialEq, Eq, Error)]
pub enum HistoryFault {
    /// The sender is none of the queue's.
    #[error("no seat of the queue")]
    NoSeat,
    /// The number is none of the queue's, or is chained and no item.
    #[error("no number of the queue, or chained and no item")]
    NoItem,
    /// The events before do not allow it.
    #[error("not allowed by the events before")]
    NotAllowed,
}

/// The first place of a history, counted from 0, whose event is not allowed, and why.
#[derive(Clone, Copy, Debug, PartialEq, Eq, Error)]
#[error("event {place}: {kind}")]
pub struct HistoryError {
    /// How many events stand before it, all of them allowed.
    pub place: usize,
    /// The first fault that fits.
    pub kind: HistoryFault,
}

// Whether the event may come after these, whatever its seat and number.
fn may_follow(history: &[Event], event: Event) -> bool
    ensures { IsTrue result ↔ MayFollow history.now event }
{
    match event {
        Event::Hold(_, number) => !is_pending(history, number),
        Event::Busy(_, number) => is_pending(history, number),
        Event::Push(sender, number) => may_push(history, sender, number),
        Event::Back(sender, number, why) => {
            holds(history, sender, number) && is_cause(history, why)
        }
        Event::Take | Event::Drain => !is_shut(history),
        Event::Close => !is_closed(history),
        Event::Resume => may_resume(history),
        Event::Begin(number) => may_begin(history, number),
        Event::End(number) => running(history) == Some(number),
        Event::Chain(number) => may_chain(history) && !is_pending(history, number),
        Event::ChainBusy(number) => may_chain(history) && is_pending(history, number),
        Event::Rest => !is_shut(history) && all_ended(history),
    }
}

fn may_push(history: &[Event], sender: u32, number: u32) -> bool
    ensures { IsTrue result ↔ MayFollow history.now (Push sender number) }
{
    holds(history, sender, number) && !is_shut(history)
}

fn may_resume(history: &[Event]) -> bool
    ensures { IsTrue result ↔ MayFollow history.now Resume }
{
    is_shut(history) && !is_closed(history) && all_ended(history)
}

fn may_begin(history: &[Event], number: u32) -> bool
    ensures { IsTrue result ↔ MayFollow history.now (Begin number) }
{
    !is_running(history) && next(history) == Some(number)
}

// Whether a number may be given back for this: a drain that a sender saw may have ended since.
fn is_cause(history: &[Event], why: Why) -> bool
    ensures { IsTrue result ↔ IsCause history.now why }
{
    match why {
        Why::Closed => is_closed(history),
        Why::Draining => has_drained(history),
        Why::Contended | Why::Cancelled => true,
    }
}

// Whether all that was accepted has ended.
fn all_ended(history: &[Event]) -> bool
    ensures { IsTrue result ↔ (length (ended history.now) ≡ length (accepted history.now)) }
{
    reached_count(history, Milestone::Ended) == reached_count(history, Milestone::Accepted)
}

// Whether the execution that runs may chain: the queue takes no push, and a number runs.
fn may_chain(history: &[Event]) -> bool
    ensures { IsTrue result ↔ (IsShut history.now × IsRunning history.now) }
{
    is_shut(history) && is_running(history)
}

// Why the event may not come after these, if it may not.
fn fault(layout: &Layout, history: &[Event], event: Event) -> Option<HistoryFault>
    ensures allowed { IfNone result (IsAllowed layout.now history.now event) }
    ensures refused { IfSome result (λ fault. HasFault layout.now history.now event fault) }
{
    if !event.has_seat(layout) {
        return Some(HistoryFault::NoSeat);
    }
    if !event.has_number(layout) {
        return Some(HistoryFault::NoItem);
    }
    if !may_follow(history, event) {
        return Some(HistoryFault::NotAllowed);
    }
    None
}

/// Whether each event is allowed by those before it: the history of an ordered workqueue, whose items are each queued
/// at most once at a time, pushed before the close and in no drain, and executed one at a time in the order of acceptance. Takes no
/// memory, and time in the square of the length.
///
/// # Errors
/// The first place whose event is not allowed, with the first fault that fits.
pub fn check_history(layout: &Layout, history: &[Event]) -> Result<(), HistoryError>
    ensures ok { OnOk result (IsLegal layout.now history.now) }
    ensures fault { IfErr result (λ error. IsFirstFault layout.now history.now error.place error.kind) }
{
    for (place, event) in history.iter().enumerate() {
        if let Some(kind) = fault(layout, &history[..place], *event) {
            return Err(HistoryError { place, kind });
        }
    }
    Ok(())
}
