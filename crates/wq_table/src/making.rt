//! How the seats of a queue are made.
ghost use Rattle.std.specs.Prelude.{◌≡◌, ◌+◌, ◌<◌, IfOk};
ghost use Rattle.wq_words.specs.Numbers.{number_count};
ghost use Rattle.wq_table.specs.SlotChairs.{value_owner, value_sender, value_senders};
ghost use Rattle.wq_table.specs.Making.{IsCutTo};

use super::chair::Chair;
use super::table::Off;
use super::values::{TableSeat, Words};
use atomic_table::Table;
use std::alloc::{AllocError, Global};
use std::sync::Arc;
use wq_core::place::word_count;
use wq_words::Layout;

// The words of a new queue, and the seat that speaks for its owner, and for each sender whose own was not cut off it yet.
#[derive(Drop)]
struct Uncut<V> {
    words: Arc<Words<V>>,
    seat: TableSeat<V>,
}

fn new_words<V: Drop>(alloc: Global, layout: Layout, slots: usize) -> Result<Uncut<V>, AllocError>
    requires slots { 0 < slots → slots ≡ number_count layout }
    ensures cut { IfOk result (IsCutTo layout 0) }
    ensures slots { IfOk result (λ uncut. uncut.seat.table_id.slots ≡ slots) }
{
    let row = Vec::from_elem(alloc, 0u64, word_count(layout))?;
    let (table, seat) = Table::vacant(alloc, row.as_slice(), slots, &layout)?;
    let words = Arc::new(alloc, table)?;
    Ok(Uncut { words, seat })
}

// Cuts off the seat of the sender of this number, which is the next one.
fn cut_off<V: Drop>(
    uncut: &mut Uncut<V>,
    layout: Layout,
    number: u32,
) -> Result<Chair<V>, AllocError>
    requires cut { IsCutTo layout number uncut.old }
    requires number { number < layout.senders }
    ensures cut { IfOk result (λ chair. IsCutTo layout (number + 1) uncut.new) }
    ensures queue { uncut.new.seat.table_id ≡ uncut.old.seat.table_id }
    ensures sender { IfOk result (λ chair. chair ≡ value_sender uncut.old.seat.table_id layout number) }
{
    let words = Arc::try_clone(&uncut.words)?;
    let seat: TableSeat<V> = words.shared.split_seat::<Off>(&mut uncut.seat);
    Ok(Chair {
        words,
        spare: None,
        seat,
        layout,
    })
}

// Cuts off the seats of all senders, in turn.
fn cut_all<V: Drop>(
    alloc: Global,
    uncut: &mut Uncut<V>,
    layout: Layout,
) -> Result<Vec<Chair<V>>, AllocError>
    requires { IsCutTo layout 0 uncut.old }
    ensures cut { IfOk result (λ senders. IsCutTo layout layout.senders uncut.new) }
    ensures queue { uncut.new.seat.table_id ≡ uncut.old.seat.table_id }
    ensures senders { IfOk result (λ senders. senders.items ≡ value_senders uncut.old.seat.table_id layout layout.senders) }
{
    let mut senders = Vec::new(alloc);
    for number in 0..layout.senders {
        senders.push(cut_off(uncut, layout, number)?)?;
    }
    Ok(senders)
}

/// The seats of a new queue: the owner's, and each sender's at its number. All growths are made here. Its table has so many slots,
/// with nothing in them: one for each number, or none where the items bring nothing.
///
/// # Errors
/// Memory was refused.
pub fn chairs<V: Drop>(
    alloc: Global,
    layout: Layout,
    slots: usize,
) -> Result<(Chair<V>, Vec<Chair<V>>), AllocError>
    requires slots { 0 < slots → slots ≡ number_count layout }
    ensures seats { IfOk result (λ r. (r.0 ≡ value_owner r.0.queue layout) × (r.1.items ≡ value_senders r.0.queue layout layout.senders)) }
    ensures slots { IfOk result (λ r. r.0.queue.slots ≡ slots) }
{
    let mut all = new_words(alloc, layout, slots)?;
    let senders = cut_all(alloc, &mut all, layout)?;
    let Uncut { words, seat } = all;
    Ok((
        Chair {
            words,
            spare: None,
            seat,
            layout,
        },
        senders,
    ))
}
