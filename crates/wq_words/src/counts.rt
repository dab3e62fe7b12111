//! What a history says: counts and lists of its events.
ghost use Rattle.std.specs.List.{after_last};
ghost use Rattle.std.specs.Prelude.{◌≡◌, ◌↔◌, IsTrue, length, slice_get, count_by};
ghost use Rattle.wq_words.specs.Milestone.{reached_by, reached};
ghost use Rattle.wq_words.specs.History.{is_drain, is_resume, next};
ghost use Rattle.wq_words.specs.History.{running, IsRunning, IsPending, Holds, IsClosed, IsShut, HasDrained};

use crate::event::Event;

// How far an accepted number has come.
#[derive(Clone, Copy)]
pub(crate) enum Milestone {
    Accepted,
    Begun,
    Ended,
}

impl Milestone {
    // The number that comes so far by the event.
    fn number(self, event: Event) -> Option<u32>
        ensures { result ≡ reached_by self event }
    {
        match self {
            Milestone::Accepted => event.accepted_number(),
            Milestone::Begun => event.begun_number(),
            Milestone::Ended => event.ended_number(),
        }
    }
}

// How many drains began since the last one ended: none or one in a legal history.
fn drain_count(history: &[Event]) -> usize
    ensures { result ≡ count_by is_drain (after_last is_resume history.now) }
{
    let mut count = 0;
    for event in history {
        if event.is_resume() {
            count = 0;
        } else if event.is_drain() {
            count += 1;
        }
    }
    count
}

// Whether some drain has begun, ended or not.
pub(crate) fn has_drained(history: &[Event]) -> bool
    ensures { IsTrue result ↔ HasDrained history.now }
{
    history.contains(&Event::Drain)
}

// Whether the queue takes no push now: it is closed, or it drains.
pub(crate) fn is_shut(history: &[Event]) -> bool
    ensures { IsTrue result ↔ IsShut history.now }
{
    is_closed(history) || drain_count(history) > 0
}

// The PENDING bit (`work_pending`): it was set more often than cleared.
pub(crate) fn is_pending(history: &[Event], number: u32) -> bool
    ensures { IsTrue result ↔ IsPending history.now number }
{
    let mut set = 0;
    let mut cleared = 0;
    for event in history {
        set += usize::from(event.sets_pending(number));
        cleared += usize::from(event.clears_pending(number));
    }
    cleared < set
}

// Whether the sender holds the number.
pub(crate) fn holds(history: &[Event], sender: u32, number: u32) -> bool
    ensures { IsTrue result ↔ Holds history.now sender number }
{
    let mut started = 0;
    let mut stopped = 0;
    for event in history {
        started += usize::from(event.starts_hold(sender, number));
        stopped += usize::from(event.stops_hold(sender, number));
    }
    stopped < started
}

// Whether there is a close.
pub(crate) fn is_closed(history: &[Event]) -> bool
    ensures { IsTrue result ↔ IsClosed history.now }
{
    history.contains(&Event::Close)
}

// How many numbers have come so far.
pub(crate) fn reached_count(history: &[Event], milestone: Milestone) -> usize
    ensures { result ≡ length (reached milestone history.now) }
{
    let mut count = 0;
    for event in history {
        count += usize::from(milestone.number(*event).is_some());
    }
    count
}

// The number at this place of those that have come so far, in the order in which they did.
fn reached_at(history: &[Event], milestone: Milestone, place: usize) -> Option<u32>
    ensures { result ≡ slice_get (reached milestone history.now) place }
{
    let mut before = 0;
    for event in history {
        if let Some(number) = milestone.number(*event) {
            if before == place {
                return Some(number);
            }
            before += 1;
        }
    }
    None
}

// Whether more have begun than ended, so that a number runs.
pub(crate) fn is_running(history: &[Event]) -> bool
    ensures { IsTrue result ↔ IsRunning history.now }
{
    reached_count(history, Milestone::Ended) < reached_count(history, Milestone::Begun)
}

// The number to begin next: the first that was accepted and not begun.
pub(crate) fn next(history: &[Event]) -> Option<u32>
    ensures { result ≡ next history.now }
{
    let begun = reached_count(history, Milestone::Begun);
    reached_at(history, Milestone::Accepted, begun)
}

// The number that runs: the first that was begun and not ended.
pub(crate) fn running(history: &[Event]) -> Option<u32>
    ensures { result ≡ running history.now }
{
    let ended = reached_count(history, Milestone::Ended);
    reached_at(history, Milestone::Begun, ended)
}
