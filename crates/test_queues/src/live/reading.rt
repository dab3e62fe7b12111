//! What the owner may do next, and what it does then.
ghost use Rattle.std.specs.Prelude.{◌≡◌, ◌≢◌, [], IsTrue};
ghost use Rattle.wq_words.specs.History.{IsClosed, IsShut, IsDraining, IsRunning};
ghost use Rattle.wq_live.specs.Batch.{batch};

use wq_live::{Answer, Owner};

/// The queue is open.
#[tactic(auto, using(wq_calls::proofs::Reading::reading))]
pub(crate) fn is_open(owner: &Owner) -> bool
    ensures { IsTrue result → ¬ IsShut owner.now.seen }
{
    if owner.is_closed() {
        return false;
    }
    !owner.is_draining()
}

/// The queue is not closed.
#[tactic(auto, using(wq_calls::proofs::Reading::reading))]
pub(crate) fn is_unclosed(owner: &Owner) -> bool
    ensures { IsTrue result → ¬ IsClosed owner.now.seen }
{
    !owner.is_closed()
}

/// The queue takes no push: it is closed, or drains.
#[tactic(auto, using(wq_calls::proofs::Reading::reading))]
pub(crate) fn is_shut(owner: &Owner) -> bool
    ensures { IsTrue result → IsShut owner.now.seen }
{
    if owner.is_closed() {
        return true;
    }
    owner.is_draining()
}

/// The queue is open, and nothing that was taken waits.
#[tactic(auto, using(wq_calls::proofs::Reading::reading))]
pub(crate) fn may_take(owner: &Owner) -> bool
    ensures open { IsTrue result → ¬ IsShut owner.now.seen }
    ensures empty { IsTrue result → batch owner.now.seen ≡ [] }
{
    if !is_open(owner) {
        return false;
    }
    match owner.next() {
        Some(_) => false,
        None => true,
    }
}

/// The queue drains, and all that was accepted has ended.
#[tactic(auto, using(wq_calls::proofs::Reading::reading))]
pub(crate) fn may_resume(owner: &Owner) -> bool
    ensures draining { IsTrue result → IsDraining owner.now.seen }
    ensures empty { IsTrue result → batch owner.now.seen ≡ [] }
    ensures rests { IsTrue result → ¬ IsRunning owner.now.seen }
{
    owner.drained()
}

/// A number waits, and nothing runs.
#[tactic(auto, using(wq_calls::proofs::Reading::reading))]
pub(crate) fn may_begin(owner: &Owner) -> bool
    ensures waits { IsTrue result → batch owner.now.seen ≢ [] }
    ensures rests { IsTrue result → ¬ IsRunning owner.now.seen }
{
    if owner.running().is_some() {
        return false;
    }
    match owner.next() {
        Some(_) => true,
        None => false,
    }
}

/// An execution has begun and not ended.
#[tactic(auto, using(wq_calls::proofs::Reading::reading))]
pub(crate) fn may_end(owner: &Owner) -> bool
    ensures { IsTrue result → IsRunning owner.now.seen }
{
    match owner.running() {
        Some(_) => true,
        None => false,
    }
}

/// Takes what was pushed, where that is allowed, and answers how many were.
pub(crate) fn take(owner: &mut Owner) -> Option<u32> {
    if may_take(owner) {
        Some(owner.take())
    } else {
        None
    }
}

/// Closes the queue, where it is not closed, and answers how many were taken.
pub(crate) fn close(owner: &mut Owner) -> Option<u32> {
    if is_unclosed(owner) {
        Some(owner.close())
    } else {
        None
    }
}

/// Begins a drain, where the queue is open, and answers how many were taken.
pub(crate) fn drain(owner: &mut Owner) -> Option<u32> {
    if is_open(owner) {
        Some(owner.drain())
    } else {
        None
    }
}

/// Ends a drain, where it has run out, and answers whether it has.
pub(crate) fn resume(owner: &mut Owner) -> bool {
    if !may_resume(owner) {
        return false;
    }
    owner.resume();
    true
}

/// Begins the oldest number that waits, where nothing runs.
pub(crate) fn begin(owner: &mut Owner) -> Option<u32> {
    if may_begin(owner) {
        Some(owner.begin())
    } else {
        None
    }
}

/// Ends what runs, and answers what that was.
pub(crate) fn end(owner: &mut Owner) -> Option<u32> {
    let number = owner.running();
    if may_end(owner) {
        owner.end();
    }
    number
}

/// Executes the oldest number that waits, after a take where none does and the queue is open.
pub(crate) fn execute_one(owner: &mut Owner) -> Option<u32> {
    take(owner);
    begin(owner);
    end(owner)
}

/// Chains an item to the execution that runs while the queue takes no push.
pub(crate) fn chain(owner: &mut Owner, item: u32) -> Option<Answer> {
    if is_shut(owner) && may_end(owner) && item < owner.layout().items {
        Some(owner.chain(item))
    } else {
        None
    }
}
