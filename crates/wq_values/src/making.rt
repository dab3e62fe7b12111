//! How a queue whose items bring values is made.
ghost use Rattle.std.specs.Prelude.{◌≡◌, ℕ, ◌<◌, [], All, map, length, IfOk};
ghost use Rattle.atomic_table.specs.Seated.{TableId};
ghost use Rattle.wq_words.specs.History.{Holds};
ghost use Rattle.wq_table.specs.SlotChairs.{value_senders};
ghost use Rattle.wq_calls.specs.Known.{new_owner, new_senders, AreNumbered};
ghost use Rattle.wq_calls.specs.KnownWith.{knowing_nothing};

use crate::value_owner::ValueOwner;
use crate::value_sender::ValueSender;
use std::alloc::Global;
use wq_calls::{BuildError, OwnerSeat, Sent};
use wq_table::{Chair, chairs};
use wq_words::Layout;

// A sender in each seat of a queue whose items bring values, numbered from 0.
fn seat_value_senders<V: Drop>(
    alloc: Global,
    layout: Layout,
    seats: Vec<Chair<V>>,
) -> Result<Vec<ValueSender<V>>, BuildError>
    requires seats { (queue : TableId) × (0 < queue.slots) × (seats.items ≡ value_senders queue layout layout.senders) }
    ensures { (queue : TableId) → seats.items ≡ value_senders queue layout layout.senders → IfOk result
        (λ all. all.items ≡ map knowing_nothing (new_senders queue layout layout.senders)) }
{
    let mut senders = Vec::with_capacity(alloc, layout.senders as usize)?;
    let mut number = 0u32;
    for chair in seats {
        let sender = ValueSender {
            chair,
            sent: Sent::new(layout, number),
        };
        senders.push_reserved(sender);
        number += 1;
    }
    Ok(senders)
}

/// The owner and the senders of a new queue whose items bring values of this type. They have seen nothing. All memory that the
/// queue needs is taken here, that of a value for each of its numbers too.
///
/// # Errors
/// `Memory` where memory was refused.
pub fn build_values<V: Drop>(
    alloc: Global,
    layout: Layout,
) -> Result<(ValueOwner<V>, Vec<ValueSender<V>>), BuildError>
    ensures made { IfOk result (λ r. (r.0 ≡ knowing_nothing (new_owner r.0.known.queue layout))
        × (r.1.items ≡ map knowing_nothing (new_senders r.0.known.queue layout layout.senders))) }
    ensures one { IfOk result (λ r. All (λ s. s.known.queue ≡ r.0.known.queue) r.1.items) }
    ensures layouts { IfOk result (λ r. (r.0.known.layout ≡ layout) × All (λ s. s.known.layout ≡ layout) r.1.items) }
    ensures count { IfOk result (λ r. length r.1.items ≡ layout.senders) }
    ensures numbers { IfOk result (λ r. AreNumbered (map (λ s. s.known) r.1.items)) }
    ensures unseen { IfOk result (λ r. (r.0.known.seen ≡ []) × All (λ s. s.known.seen ≡ []) r.1.items) }
    ensures free { IfOk result (λ r. All (λ s. (k : ℕ) → ¬ Holds s.known.seen s.known.number k) r.1.items) }
    ensures unbrought { IfOk result (λ r. (r.0.brought ≡ []) × All (λ s. s.brought ≡ []) r.1.items) }
{
    let slots = layout.number_count() as usize;
    let (chair, seats) = chairs(alloc, layout, slots)?;
    let senders = seat_value_senders(alloc, layout, seats)?;
    let owner = ValueOwner {
        seat: OwnerSeat::new(chair, layout),
    };
    Ok((owner, senders))
}
