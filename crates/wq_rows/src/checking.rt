//! The check of a history that is given as rows.
ghost use Rattle.std.specs.Prelude.{◌≡◌, [], ◌∷◌, ◌++◌, List, OnOk, IfErr};
ghost use Rattle.wq_check.specs.Checked.{IsAfter};
ghost use Rattle.wq_rows.specs.declared.row.EventRow.{EventRow as Line};
ghost use Rattle.wq_rows.specs.Rows.{HasRead};
ghost use Rattle.wq_rows.specs.Found.{HasRowError, Checks, ChecksRows};

use crate::row::{EventRow, event_of};
use std::alloc::Global;
use thiserror::Error;
use wq_check::{Checker, EventError};
use wq_words::{Layout, LayoutError};

/// Why a row may not come.
#[derive(Clone, Copy, Debug, PartialEq, Eq, Error)]
pub enum RowError {
    /// Its kind is none.
    #[error("no event")]
    NoEvent,
    /// Its event is not allowed after those before it.
    #[error("{0}")]
    Event(EventError),
}

/// Why rows are not known to be a legal history.
#[derive(Clone, Copy, Debug, PartialEq, Eq, Error)]
pub enum RowsError {
    /// The size is out of its limits.
    #[error("{0}")]
    Layout(LayoutError),
    /// No memory could be had.
    #[error("memory")]
    Memory,
    /// The row at this place, counted from 0, may not come; those before it are a legal history.
    #[error("row {0}: {1}")]
    Row(usize, RowError),
}

// Tells the event of one row.
fn tell_row(checker: &mut Checker, row: EventRow) -> Result<(), RowError>
    ensures told { OnOk result ((rows : List Line) → HasRead rows checker.old → HasRead (rows ++ row ∷ []) checker.new) }
    ensures refused { IfErr result (λ error. (rows : List Line) (read : HasRead rows checker.old)
        → HasRowError checker.old.queue.layout read.events row error) }
    ensures layout { checker.new.queue.layout ≡ checker.old.queue.layout }
{
    let Some(event) = event_of(row) else {
        return Err(RowError::NoEvent);
    };
    match checker.event(event) {
        Ok(()) => Ok(()),
        Err(error) => Err(RowError::Event(error)),
    }
}

// Tells the events of all rows, up to the first that may not come.
fn tell_rows(checker: &mut Checker, rows: &[EventRow]) -> Result<(), RowsError>
    requires nothing { IsAfter checker.old [] }
    ensures { ChecksRows checker.old.queue.layout rows.now result }
{
    for (place, row) in rows.iter().enumerate() {
        if let Err(error) = tell_row(checker, *row) {
            return Err(RowsError::Row(place, error));
        }
    }
    Ok(())
}

/// Checks the history of a queue of this size. Takes memory for the size of the queue alone, and time in the length of the history.
///
/// # Errors
/// `Layout` with the first of items, barriers and senders that is out of its limits; `Memory`; `Row` with the first row that may not
/// come.
pub fn check_rows(
    alloc: Global,
    rows: &[EventRow],
    items: u32,
    barriers: u32,
    senders: u32,
) -> Result<(), RowsError>
    ensures found { Checks items barriers senders rows.now result }
{
    let layout = match Layout::new(items, barriers, senders) {
        Ok(layout) => layout,
        Err(error) => return Err(RowsError::Layout(error)),
    };
    let Ok(mut checker) = Checker::new(alloc, layout) else {
        return Err(RowsError::Memory);
    };
    tell_rows(&mut checker, rows)
}
