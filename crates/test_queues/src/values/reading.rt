//! What the owner of a queue whose items bring values may do next, what it does then, and what a queueing answered.
ghost use Rattle.std.specs.Prelude.{◌≡◌, ◌≢◌, [], IsTrue};
ghost use Rattle.wq_words.specs.History.{IsShut, IsRunning};
ghost use Rattle.wq_live.specs.Batch.{batch};

use std::alloc::Global;
use std::process::Abort;
use wq_live::Answer;
use wq_values::{ValueAnswer, ValueOwner, ValueSender, build_values};
use wq_words::Layout;

/// The owner and the sender of a new queue of so many items and one barrier.
pub(crate) fn seats<R: Abort, V: Drop>(
    rt: &R,
    alloc: Global,
    items: u32,
) -> (ValueOwner<V>, ValueSender<V>)
    ensures { result.1.known.queue ≡ result.0.known.queue }
{
    let layout = Layout::new(items, 1, 1).expect(rt, "a layout");
    let (owner, mut senders) = build_values(alloc, layout).expect(rt, "memory for a queue");
    let sender = senders.pop().expect(rt, "a sender");
    drop(senders);
    (owner, sender)
}

/// The answer, and the value that came back.
pub(crate) fn given_back<V>(answer: ValueAnswer<V>) -> (Answer, Option<V>) {
    match answer {
        ValueAnswer::Queued { first, wakes } => (Answer::Queued { first, wakes }, None),
        ValueAnswer::Pending(value) => (Answer::Pending, Some(value)),
        ValueAnswer::Closed(value) => (Answer::Closed, Some(value)),
        ValueAnswer::Contended(value) => (Answer::Contended, Some(value)),
        ValueAnswer::Draining(value) => (Answer::Draining, Some(value)),
    }
}

/// Queues an item with a value in one try. A value for no item comes back.
pub(crate) fn queue_once<V: Drop>(
    sender: &mut ValueSender<V>,
    item: u32,
    value: V,
) -> (Option<Answer>, Option<V>)
    ensures { sender.new.known.queue ≡ sender.old.known.queue }
{
    if item >= sender.layout().items {
        return (None, Some(value));
    }
    let (answer, back) = given_back(sender.queue_value(item, value, 1));
    (Some(answer), back)
}

/// The queue is open, and nothing that was taken waits.
#[tactic(auto, using(wq_calls::proofs::Reading::reading))]
fn may_take<V: Drop>(owner: &ValueOwner<V>) -> bool
    ensures open { IsTrue result → ¬ IsShut owner.now.known.seen }
    ensures empty { IsTrue result → batch owner.now.known.seen ≡ [] }
{
    if owner.is_closed() || owner.is_draining() {
        return false;
    }
    match owner.next() {
        Some(_) => false,
        None => true,
    }
}

/// A number waits, and nothing runs.
#[tactic(auto, using(wq_calls::proofs::Reading::reading))]
fn may_begin<V: Drop>(owner: &ValueOwner<V>) -> bool
    ensures waits { IsTrue result → batch owner.now.known.seen ≢ [] }
    ensures rests { IsTrue result → ¬ IsRunning owner.now.known.seen }
{
    if owner.running().is_some() {
        return false;
    }
    match owner.next() {
        Some(_) => true,
        None => false,
    }
}

/// An execution has begun and not ended.
#[tactic(auto, using(wq_calls::proofs::Reading::reading))]
fn may_end<V: Drop>(owner: &ValueOwner<V>) -> bool
    ensures { IsTrue result → IsRunning owner.now.known.seen }
{
    match owner.running() {
        Some(_) => true,
        None => false,
    }
}

/// The queue takes no push: it is closed, or drains.
#[tactic(auto, using(wq_calls::proofs::Reading::reading))]
fn is_shut<V: Drop>(owner: &ValueOwner<V>) -> bool
    ensures { IsTrue result → IsShut owner.now.known.seen }
{
    if owner.is_closed() {
        return true;
    }
    owner.is_draining()
}

/// The queue is open, nothing that was taken waits, and nothing runs.
#[tactic(auto, using(wq_calls::proofs::Reading::reading))]
fn may_rest<V: Drop>(owner: &ValueOwner<V>) -> bool
    ensures open { IsTrue result → ¬ IsShut owner.now.known.seen }
    ensures empty { IsTrue result → batch owner.now.known.seen ≡ [] }
    ensures idle { IsTrue result → ¬ IsRunning owner.now.known.seen }
{
    if owner.running().is_some() {
        return false;
    }
    may_take(owner)
}

/// Takes what was pushed, where that is allowed, and answers how many were.
pub(crate) fn take<V: Drop>(owner: &mut ValueOwner<V>) -> Option<u32> {
    if may_take(owner) {
        Some(owner.take())
    } else {
        None
    }
}

/// Says that the queue rests, where that may be said, and answers whether it rests by it.
pub(crate) fn rest<V: Drop>(owner: &mut ValueOwner<V>) -> Option<bool> {
    if may_rest(owner) {
        Some(owner.rest())
    } else {
        None
    }
}

/// Closes the queue, where it is not closed, and answers how many were taken.
#[tactic(auto, using(wq_calls::proofs::Reading::reading))]
pub(crate) fn close<V: Drop>(owner: &mut ValueOwner<V>) -> Option<u32> {
    if owner.is_closed() {
        return None;
    }
    Some(owner.close())
}

/// Begins a drain, where the queue is open, and answers how many were taken.
#[tactic(auto, using(wq_calls::proofs::Reading::reading))]
pub(crate) fn drain<V: Drop>(owner: &mut ValueOwner<V>) -> Option<u32> {
    if owner.is_closed() || owner.is_draining() {
        return None;
    }
    Some(owner.drain())
}

/// Ends a drain, where it has run out, and answers whether it has.
#[tactic(auto, using(wq_calls::proofs::Reading::reading))]
pub(crate) fn resume<V: Drop>(owner: &mut ValueOwner<V>) -> bool {
    if !owner.drained() {
        return false;
    }
    owner.resume();
    true
}

/// Begins the oldest number that waits, where nothing runs, with what it brought.
pub(crate) fn begin<V: Drop>(owner: &mut ValueOwner<V>) -> Option<(u32, Option<V>)> {
    if may_begin(owner) {
        Some(owner.begin())
    } else {
        None
    }
}

/// Ends what runs, and answers what that was.
pub(crate) fn end<V: Drop>(owner: &mut ValueOwner<V>) -> Option<u32> {
    let number = owner.running();
    if may_end(owner) {
        owner.end();
    }
    number
}

/// Executes the oldest number that waits, after a take where none does and the queue is open, and answers it with what it brought.
pub(crate) fn execute_one<V: Drop>(owner: &mut ValueOwner<V>) -> Option<(u32, Option<V>)> {
    take(owner);
    let begun = begin(owner);
    end(owner);
    begun
}

/// Chains an item with a value to the execution that runs while the queue takes no push. Else the value comes back.
pub(crate) fn chain<V: Drop>(
    owner: &mut ValueOwner<V>,
    item: u32,
    value: V,
) -> (Option<Answer>, Option<V>) {
    if !is_shut(owner) || !may_end(owner) || item >= owner.layout().items {
        return (None, Some(value));
    }
    let (answer, back) = given_back(owner.chain_value(item, value));
    (Some(answer), back)
}
