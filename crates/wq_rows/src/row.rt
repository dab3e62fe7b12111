//! An event as numbers.
ghost use Rattle.std.specs.Prelude.{IfSome, IfNone};
ghost use Rattle.wq_rows.specs.Rows.{IsRowFor, IsNoEvent};

use wq_words::{Event, Why};

/// An event as numbers: its kind, from 1 on in the order of `event_of`, its sender and its number. What an event of the kind does not
/// have is not read.
#[repr(C)]
#[derive(Clone, Copy, Debug, PartialEq, Eq)]
pub struct EventRow {
    /// Which kind of event it is, 1 to 16.
    pub kind: u32,
    /// The sender of a Hold, a Busy, a Push or a Back.
    pub sender: u32,
    /// The number that it is of, if it is of one.
    pub number: u32,
}

/// The event of a row. None where the kind is none.
pub fn event_of(row: EventRow) -> Option<Event>
    ensures read { IfSome result (IsRowFor row) }
    ensures none { IfNone result (IsNoEvent row) }
{
    match row.kind {
        1 => Some(Event::Hold(row.sender, row.number)),
        2 => Some(Event::Busy(row.sender, row.number)),
        3 => Some(Event::Push(row.sender, row.number)),
        4 => Some(Event::Back(row.sender, row.number, Why::Closed)),
        5 => Some(Event::Back(row.sender, row.number, Why::Contended)),
        6 => Some(Event::Back(row.sender, row.number, Why::Cancelled)),
        7 => Some(Event::Back(row.sender, row.number, Why::Draining)),
        8 => Some(Event::Take),
        9 => Some(Event::Close),
        10 => Some(Event::Drain),
        11 => Some(Event::Resume),
        12 => Some(Event::Begin(row.number)),
        13 => Some(Event::End(row.number)),
        14 => Some(Event::Chain(row.number)),
        15 => Some(Event::ChainBusy(row.number)),
        16 => Some(Event::Rest),
        _ => None,
    }
}
