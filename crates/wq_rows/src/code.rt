//! What a check found, as a number.
ghost use Rattle.std.specs.Prelude.{◌≡◌};
ghost use Rattle.wq_rows.specs.Codes.{cause_code, event_code, row_code, layout_code, SaidHistory};

use crate::checking::{RowError, RowsError, check_rows};
use crate::row::EventRow;
use std::alloc::Global;
use wq_check::{Cause, EventError};
use wq_words::LayoutError;

fn cause_code(cause: Cause) -> u32
    ensures { result ≡ cause_code cause }
{
    match cause {
        Cause::Pending => 99,
        Cause::Idle => 100,
        Cause::NotHeld => 101,
        Cause::Closed => 102,
        Cause::Draining => 103,
        Cause::NotDraining => 104,
        Cause::NeverDrained => 105,
        Cause::Open => 106,
        Cause::Runs(_) => 107,
        Cause::NothingRuns => 108,
        Cause::NotWaiting => 109,
        Cause::Next(_) => 110,
        Cause::NotEnded => 111,
    }
}

fn event_code(error: EventError) -> u32
    ensures { result ≡ event_code error }
{
    match error {
        EventError::NoSeat => 97,
        EventError::NoItem => 98,
        EventError::NotAllowed(cause) => cause_code(cause),
    }
}

fn row_code(error: RowError) -> u32
    ensures { result ≡ row_code error }
{
    match error {
        RowError::NoEvent => 96,
        RowError::Event(error) => event_code(error),
    }
}

// 80 to 83 are what a call of a seat answers for the same (`wq_seats`), since C has one name for each.
fn layout_code(error: LayoutError) -> u32
    ensures { result ≡ layout_code error }
{
    match error {
        LayoutError::Items => 81,
        LayoutError::Barriers => 82,
        LayoutError::Senders => 83,
    }
}

/// `check_rows` with its answer as a number: 0 where the history is legal, 80 for want of memory, 81 to 83 for a size out of its
/// limits, and from 96 on why a row may not come. The place of that row goes to `place`, which is else as it was.
pub fn check_code(
    alloc: Global,
    rows: &[EventRow],
    items: u32,
    barriers: u32,
    senders: u32,
    place: &mut usize,
) -> u32
    ensures said { SaidHistory items barriers senders rows.now result place.old place.new }
{
    match check_rows(alloc, rows, items, barriers, senders) {
        Ok(()) => 0,
        Err(RowsError::Memory) => 80,
        Err(RowsError::Layout(error)) => layout_code(error),
        Err(RowsError::Row(at, error)) => {
            *place = at;
            row_code(error)
        }
    }
}
