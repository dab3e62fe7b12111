//! A sender, which queues its items, each with a message, and wakes the owner where an answer says so.
ghost use Rattle.std.specs.Prelude.{◌≡◌, ◌<◌, ◌≤◌, ◌++◌, [], box_value};
ghost use Rattle.wq_values.specs.History.{accepted};
ghost use Rattle.wq_values.specs.Seen.{own};
ghost use Rattle.wq_values.specs.Numbers.{stop_number};
ghost use Rattle.wq_values.specs.Known.{IsSame};
ghost use Rattle.wq_values.specs.Laws.{queued_number};
ghost use Rattle.wq_values.specs.OwnBrought.{own_brought};
ghost use Rattle.example_values.specs.Messages.{numbers_of, told_of};

use crossbeam_utils::sync::Unparker;
use std::alloc::Global;
use std::sync::Wait;
use trail::Trail;
use wq_values::{Answer, ValueAnswer, ValueSender, queued_brings, queued_is_accepted};

/// A message: a number in memory of its own.
pub type BoxedNumber = Box<u32>;

/// A sender, and the list of the messages that it queued and was answered `Queued` for, which contracts alone see.
#[derive(Drop)]
pub struct Told {
    /// The sender, with the history that it has seen, which contracts alone see.
    pub sender: ValueSender<BoxedNumber>,
    /// The list of the messages that it queued, which contracts alone see.
    pub queued: Trail,
}

/// A sender, and what its queueing of the stop item was answered.
#[derive(Drop)]
pub struct Stopped {
    /// The sender, with the history that it has seen, which contracts alone see.
    pub sender: ValueSender<BoxedNumber>,
    /// What its queueing was answered.
    pub answer: Answer,
}

/// Wakes the owner, where the answer says so.
fn wake<V>(answer: &ValueAnswer<V>, unparker: &Unparker) {
    if let ValueAnswer::Queued { wakes: true, .. } = answer {
        unparker.unpark();
    }
}

/// The list with the message's number, if the message was queued.
fn tell(queued: Trail, number: u32, answer: &ValueAnswer<BoxedNumber>) -> Trail
    ensures told { result.items ≡ queued.items ++ told_of number answer.now }
{
    match answer {
        ValueAnswer::Queued { .. } => queued.and(number),
        _ => queued,
    }
}

/// One queueing. What the sender's own queueings brought grows by the message, if it was queued; else the message comes back.
fn queue<R: Wait>(
    rt: &R,
    sender: &mut ValueSender<BoxedNumber>,
    item: u32,
    message: BoxedNumber,
    unparker: &Unparker,
) -> ValueAnswer<BoxedNumber>
    requires item { item < sender.old.known.layout.items }
    ensures same { IsSame sender.old.known sender.new.known }
    ensures brought { numbers_of (own_brought sender.old.known.number sender.new.known.seen sender.new.brought)
        ≡ numbers_of (own_brought sender.old.known.number sender.old.known.seen sender.old.brought) ++ told_of (box_value message) result }
{
    queued_brings::<BoxedNumber>();
    let answer = sender.queue_value_wait(rt, item, message);
    wake(&answer, unparker);
    answer
}

/// Queues these items in their order, once each, with messages that count on from the first one. It ends early where no memory can be
/// had for a message.
pub(crate) fn queue_own<R: Wait>(
    rt: &R,
    alloc: Global,
    mut sender: ValueSender<BoxedNumber>,
    from: u32,
    to: u32,
    first: u32,
    unparker: &Unparker,
) -> Told
    requires from { from ≤ to }
    requires to { to ≤ sender.known.layout.items }
    requires new { (sender.known.seen ≡ []) × (sender.brought ≡ []) }
    ensures same { IsSame sender.known result.sender.known }
    ensures brought { numbers_of (own_brought sender.known.number result.sender.known.seen result.sender.brought) ≡ result.queued.items }
{
    let mut queued = Trail::new();
    for item in from..to {
        let number = first.wrapping_add(item);
        let Ok(message) = Box::new(alloc, number) else {
            break;
        };
        let answer = queue(rt, &mut sender, item, message, unparker);
        queued = tell(queued, number, &answer);
    }
    Told { sender, queued }
}

/// Queues the stop item, behind all that was queued. Nothing else is accepted of this sender.
pub(crate) fn stop(mut sender: ValueSender<BoxedNumber>, unparker: &Unparker) -> Stopped
    requires new { sender.known.seen ≡ [] }
    ensures same { IsSame sender.known result.sender.known }
    ensures accepted { accepted (own sender.known.number result.sender.known.seen) ≡ queued_number (stop_number sender.known.layout) result.answer }
{
    queued_is_accepted();
    let answer = sender.request_stop(u32::MAX);
    if let Answer::Queued { wakes: true, .. } = answer {
        unparker.unpark();
    }
    Stopped { sender, answer }
}
