//! How a queue is made.
ghost use Rattle.std.specs.Prelude.{◌≡◌, ℕ, [], All, length, IfOk};
ghost use Rattle.atomic_table.specs.Seated.{TableId};
ghost use Rattle.wq_words.specs.History.{Holds};
ghost use Rattle.wq_table.specs.SlotChairs.{value_senders};
ghost use Rattle.wq_calls.specs.Known.{new_owner, new_senders, AreNumbered};

use crate::bare::Bare;
use crate::owner::Owner;
use crate::sender::Sender;
use std::alloc::Global;
use wq_calls::{BuildError, OwnerSeat, Sent};
use wq_table::{Chair, chairs};
use wq_words::Layout;

// A sender in each seat, numbered from 0.
fn seat_senders(
    alloc: Global,
    layout: Layout,
    seats: Vec<Chair<Bare>>,
) -> Result<Vec<Sender>, BuildError>
    requires seats { (queue : TableId) × (queue.slots ≡ 0) × (seats.items ≡ value_senders queue layout layout.senders) }
    ensures { (queue : TableId) → seats.items ≡ value_senders queue layout layout.senders → IfOk result
        (λ all. all.items ≡ new_senders queue layout layout.senders) }
{
    let mut senders = Vec::with_capacity(alloc, layout.senders as usize)?;
    let mut number = 0u32;
    for chair in seats {
        let sender = Sender {
            chair,
            sent: Sent::new(layout, number),
        };
        senders.push_reserved(sender);
        number += 1;
    }
    Ok(senders)
}

/// The owner and the senders of a new queue, each sender at its number. They have seen nothing. All memory that the queue needs
/// is taken here.
///
/// # Errors
/// `Memory` where memory was refused.
pub fn build(alloc: Global, layout: Layout) -> Result<(Owner, Vec<Sender>), BuildError>
    ensures made { IfOk result (λ r. (r.0 ≡ new_owner r.0.queue layout) × (r.1.items ≡ new_senders r.0.queue layout layout.senders)) }
    ensures one { IfOk result (λ r. All (λ s. s.queue ≡ r.0.queue) r.1.items) }
    ensures layouts { IfOk result (λ r. (r.0.layout ≡ layout) × All (λ s. s.layout ≡ layout) r.1.items) }
    ensures count { IfOk result (λ r. length r.1.items ≡ layout.senders) }
    ensures numbers { IfOk result (λ r. AreNumbered r.1.items) }
    ensures unseen { IfOk result (λ r. (r.0.seen ≡ []) × All (λ s. s.seen ≡ []) r.1.items) }
    ensures free { IfOk result (λ r. All (λ s. (k : ℕ) → ¬ Holds s.seen s.number k) r.1.items) }
{
    let (chair, seats) = chairs(alloc, layout, 0)?;
    let senders = seat_senders(alloc, layout, seats)?;
    let owner = Owner {
        seat: OwnerSeat::new(chair, layout),
    };
    Ok((owner, senders))
}
