//! The calls that want no seat.
ghost use Rattle.wq_rows.specs.Codes.{SaidHistory};

use std::alloc::Global;
use wq_rows::{EventRow, check_code};

/// Checks whether these rows are the history of a queue of this size, by `check_code` of `wq_rows`.
#[unsafe(no_mangle)]
pub extern "C" fn wq_c_check_history(
    alloc: Global,
    rows: &[EventRow],
    items: u32,
    barriers: u32,
    senders: u32,
    place: &mut usize,
) -> u32
    ensures said { SaidHistory items barriers senders rows.now result place.old place.new }
{
    check_code(alloc, rows, items, barriers, senders, place)
}
