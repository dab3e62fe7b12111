//! A delay table, from its making to its end.
ghost use Rattle.std.specs.Prelude.{◌≡◌, []};

use crate::calls::Said;
use std::alloc::Global;
use wq_delay::{Armed, Delay, Modified, NoRoom};
use wq_live::{Answer, Sender, build};
use wq_words::Layout;

/// How many items a table has. Its wheel has 256 slots, however many items there are.
const ITEMS: u32 = 16;

/// Arms an item that is not on the table and sets its delay anew. None where memory was wanting, which left the table as it was.
fn arm_and_move(delay: &mut Delay, item: u32) -> Option<bool>
    ensures { delay.new.sender.queue ≡ delay.old.sender.queue }
{
    if item >= delay.layout().items {
        return Some(false);
    }
    let before = delay.len();
    match delay.arm(item, 5, 1) {
        Armed::OnTable | Armed::Pending => {}
        Armed::Memory if delay.len() == before => return None,
        _ => return Some(false),
    }
    if item >= delay.layout().items {
        return Some(false);
    }
    let before = delay.len();
    match delay.modify(item, 9, 1) {
        Modified::Moved => Some(true),
        Modified::Memory if delay.len() == before => None,
        _ => Some(false),
    }
}

/// Arms and moves all items. None where memory was wanting.
fn arm_all(delay: &mut Delay) -> Option<bool>
    ensures { delay.new.sender.queue ≡ delay.old.sender.queue }
{
    for item in 0..ITEMS {
        if !arm_and_move(delay, item)? {
            return Some(false);
        }
    }
    Some(true)
}

/// Whether all items are due at their tick and none before. None where memory was wanting.
fn is_due(delay: &Delay) -> Option<bool> {
    let early = delay.due_list(8).ok()?;
    let due = delay.due_list(9).ok()?;
    Some(early.is_empty() && due.len() == ITEMS as usize)
}

/// Puts items on a table and reads it, again where memory was wanting.
fn fill_table(delay: &mut Delay) -> Said
    ensures { delay.new.sender.queue ≡ delay.old.sender.queue }
{
    let moved = arm_all(delay);
    let again = moved.is_none() && arm_all(delay) == Some(true);
    if moved != Some(true) && !again {
        return Said::Wrong;
    }
    match (is_due(delay), is_due(delay)) {
        (Some(true), Some(true)) => if again { Said::Again } else { Said::Right },
        (None, Some(true)) | (Some(true), None) => Said::Again,
        _ => Said::Wrong,
    }
}

/// Queues an item. Whether it was queued.
fn queue_item(sender: &mut Sender, item: u32) -> bool {
    if item >= sender.layout().items {
        return false;
    }
    matches!(sender.queue_tries(item, 1), Answer::Queued { .. })
}

/// Queues all items. Whether each was queued.
fn queue_all(sender: &mut Sender) -> bool {
    let mut are_queued = true;
    for item in 0..ITEMS {
        are_queued = queue_item(sender, item) && are_queued;
    }
    are_queued
}

/// Has a table meet another sender, and dissolves it. Whether all items lay on it until then, and the sender that it leaves queues
/// each of them.
fn leave_table(mut delay: Delay, mut other: Sender) -> bool
    requires { delay.sender.queue ≡ other.queue }
{
    delay.meet(&mut other);
    let were_held = delay.len() == ITEMS as usize && !queue_item(&mut other, 0);
    let mut sender = delay.dissolve();
    queue_all(&mut sender) && were_held
}

/// Fills a table, and leaves it beside another sender of its queue.
fn use_table(mut delay: Delay, other: Sender) -> Said
    requires { delay.sender.queue ≡ other.queue }
{
    let said = fill_table(&mut delay);
    if leave_table(delay, other) {
        said
    } else {
        Said::Wrong
    }
}

/// Makes a table over a sender for which memory was wanting before.
fn make_again(alloc: Global, sender: Sender) -> Said
    requires { sender.seen ≡ [] }
{
    let made = Delay::new(alloc, sender, 0);
    let said = if made.is_ok() {
        Said::Again
    } else {
        Said::Wrong
    };
    drop(made);
    said
}

/// Makes a table over a sender of a queue, fills it, and dissolves it beside another one.
fn make_over(alloc: Global, sender: Sender, other: Sender) -> Said
    requires queue { sender.queue ≡ other.queue }
    requires new { sender.seen ≡ [] }
{
    match Delay::new(alloc, sender, 0) {
        Ok(delay) => use_table(delay, other),
        Err(NoRoom { sender }) => {
            drop(other);
            make_again(alloc, sender)
        }
    }
}

/// Makes a table over a sender of a queue, fills it, and dissolves it.
pub fn make_table(alloc: Global) -> Said {
    let Ok(layout) = Layout::new(ITEMS, 1, 2) else {
        return Said::Wrong;
    };
    let Ok((owner, mut senders)) = build(alloc, layout) else {
        return Said::Memory;
    };
    let said = match (senders.pop(), senders.pop()) {
        (Some(sender), Some(other)) => make_over(alloc, sender, other),
        _ => Said::Wrong,
    };
    drop(owner);
    said
}
