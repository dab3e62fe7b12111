//! A queue whose items bring values.
use crate::calls::{Said, right};
use std::alloc::Global;
use wq_live::BuildError;
use wq_values::{ValueAnswer, ValueOwner, ValueSender, build_values};
use wq_words::Layout;

/// What an item brings.
const VALUE: u64 = 1 << 40;

/// Queues the first item with a value. Whether it was queued.
fn queue_first(sender: &mut ValueSender<u64>) -> bool {
    if sender.layout().items == 0 {
        return false;
    }
    matches!(sender.queue_value(0, VALUE, 1), ValueAnswer::Queued { .. })
}

/// Takes what was queued by then, and begins the first of it.
#[tactic(auto, using(wq_calls::proofs::Reading::reading))]
fn begin_first(owner: &mut ValueOwner<u64>) -> Option<(u32, Option<u64>)> {
    if owner.is_closed() || owner.is_draining() || owner.running().is_some() {
        return None;
    }
    if owner.next().is_none() {
        owner.take();
    }
    if owner.next().is_none() || owner.running().is_some() {
        return None;
    }
    Some(owner.begin())
}

/// Makes a queue, whose first item is handed the value that it brought.
pub fn build_with_values(alloc: Global) -> Said {
    let Ok(layout) = Layout::new(4, 1, 2) else {
        return Said::Wrong;
    };
    let (mut owner, mut senders) = match build_values(alloc, layout) {
        Ok(seats) => seats,
        Err(BuildError::Memory) => return Said::Memory,
    };
    let Some(mut sender) = senders.pop() else {
        return Said::Wrong;
    };
    right(queue_first(&mut sender) && begin_first(&mut owner) == Some((0, Some(VALUE))))
}
