//! A queue with a delay table over its second sender, and the calls of the table where they are allowed, each with one try.
ghost use Rattle.std.specs.Prelude.{◌≡◌};

use crate::seats::seats;
use std::alloc::Global;
use std::process::Abort;
use wq_delay::{Advance, Armed, Delay, Modified};
use wq_live::{Owner, Sender};

/// The owner and the first sender of a new queue of so many items, and a delay table at this tick over the second.
pub(crate) fn delayed<R: Abort>(
    rt: &R,
    alloc: Global,
    items: u32,
    now: u64,
) -> (Owner, Sender, Delay)
    ensures { result.2.sender.queue ≡ result.1.queue }
{
    let (owner, first, second) = seats(rt, alloc, items, 1);
    let Ok(delay) = Delay::new(alloc, second, now) else {
        panic!(rt; "no memory for a table")
    };
    (owner, first, delay)
}

/// Queues an item in so many ticks.
pub(crate) fn arm(delay: &mut Delay, item: u32, ticks: u64) -> Option<Armed> {
    if item < delay.layout().items {
        Some(delay.arm(item, ticks, 1))
    } else {
        None
    }
}

/// Sets an item's delay anew.
pub(crate) fn modify(delay: &mut Delay, item: u32, ticks: u64) -> Option<Modified> {
    if item < delay.layout().items {
        Some(delay.modify(item, ticks, 1))
    } else {
        None
    }
}

/// Takes an item off the table, and whether it was on it.
pub(crate) fn cancel(delay: &mut Delay, item: u32) -> Option<bool> {
    if item < delay.layout().items {
        Some(delay.cancel(item))
    } else {
        None
    }
}

/// Whether an item is on the table.
pub(crate) fn has(delay: &Delay, item: u32) -> Option<bool> {
    if item < delay.layout().items {
        Some(delay.has(item))
    } else {
        None
    }
}

/// Leads the table on to a tick. How many items were pushed, refused and left waiting; None where the tick lies behind.
pub(crate) fn advance(delay: &mut Delay, now: u64) -> Option<(u32, u32, u32)> {
    let Advance {
        pushed,
        refused,
        waiting,
    } = delay.advance(now, 1).ok()?;
    Some((pushed, refused, waiting))
}
