//! The owner, which takes, executes, rests and parks until the stop item ran.
ghost use Rattle.std.specs.Prelude.{◌≡◌, ◌≢◌, [], ◌∷◌, ◌++◌};
ghost use Rattle.wq_values.specs.History.{accepted, begun, ended, IsRunning, IsClosed, IsShut};
ghost use Rattle.wq_values.specs.Legal.{IsComplete};
ghost use Rattle.wq_values.specs.Seen.{own};
ghost use Rattle.wq_values.specs.Known.{IsSame};
ghost use Rattle.wq_values.specs.Batch.{batch};
ghost use Rattle.wq_values.specs.KnownWith.{handed_in};
ghost use Rattle.example_values.specs.Messages.{numbers_of};

use crate::queueing::BoxedNumber;
use crossbeam_utils::sync::Parker;
use std::sync::Wait;
use trail::Trail;
use wq_values::ValueOwner;

/// The owner, the sum of each item times the message that came with it, and the list of the messages, which contracts alone see.
#[derive(Drop)]
pub struct OwnerOutcome {
    /// The owner, with the history that it has seen, which contracts alone see.
    pub owner: ValueOwner<BoxedNumber>,
    /// The sum of each item times the message that came with it.
    pub sum: u64,
    /// The list of the messages, which contracts alone see.
    pub ran: Trail,
}

/// What an execution does with the message that it is handed: here a user's own work would stand. The item weighs its message, so
/// that the sum tells which came with which.
fn add_up(it: &mut OwnerOutcome, item: u32, message: Option<BoxedNumber>)
    ensures owner { it.new.owner ≡ it.old.owner }
    ensures ran { it.new.ran.items ≡ it.old.ran.items ++ numbers_of (message ∷ []) }
{
    if let Some(message) = message {
        let weighed = u64::from(item).saturating_mul(u64::from(*message));
        it.sum = it.sum.saturating_add(weighed);
        it.ran = it.ran.and(*message);
    }
}

/// The next execution, which adds up its message, weighed by its item. Which number it was.
fn execute_one(it: &mut OwnerOutcome) -> u32
    requires waits { batch it.old.owner.known.seen ≢ [] }
    requires idle { ¬ IsRunning it.old.owner.known.seen }
    requires ran { numbers_of (handed_in it.old.owner) ≡ it.old.ran.items }
    ensures same { IsSame it.old.owner.known it.new.owner.known }
    ensures ran { numbers_of (handed_in it.new.owner) ≡ it.new.ran.items }
    ensures unchained { accepted (own it.new.owner.known.number it.new.owner.known.seen) ≡ accepted (own it.old.owner.known.number it.old.owner.known.seen) }
    ensures idle { ¬ IsRunning it.new.owner.known.seen }
    ensures open { ¬ IsShut it.old.owner.known.seen → ¬ IsShut it.new.owner.known.seen }
    ensures unclosed { ¬ IsClosed it.old.owner.known.seen → ¬ IsClosed it.new.owner.known.seen }
    ensures closed { IsClosed it.old.owner.known.seen → IsClosed it.new.owner.known.seen }
{
    let (number, message) = it.owner.begin();
    add_up(it, number, message);
    it.owner.end();
    number
}

/// All that waits. Whether the stop item was among it.
fn execute<R: Wait>(rt: &R, it: &mut OwnerOutcome) -> bool
    requires idle { ¬ IsRunning it.old.owner.known.seen }
    requires ran { numbers_of (handed_in it.old.owner) ≡ it.old.ran.items }
    ensures same { IsSame it.old.owner.known it.new.owner.known }
    ensures ran { numbers_of (handed_in it.new.owner) ≡ it.new.ran.items }
    ensures unchained { accepted (own it.new.owner.known.number it.new.owner.known.seen) ≡ accepted (own it.old.owner.known.number it.old.owner.known.seen) }
    ensures idle { ¬ IsRunning it.new.owner.known.seen }
    ensures empty { batch it.new.owner.known.seen ≡ [] }
    ensures open { ¬ IsShut it.old.owner.known.seen → ¬ IsShut it.new.owner.known.seen }
    ensures unclosed { ¬ IsClosed it.old.owner.known.seen → ¬ IsClosed it.new.owner.known.seen }
    ensures closed { IsClosed it.old.owner.known.seen → IsClosed it.new.owner.known.seen }
{
    let stop = it.owner.layout().stop();
    let mut is_stopped = false;
    for _ in rt.forever() {
        if it.owner.waiting() == 0 {
            return is_stopped;
        }
        if execute_one(it) == stop {
            is_stopped = true;
        }
    }
    unreachable!()
}

/// Takes, executes and rests until the stop item ran. Where the queue rests, the thread parks.
fn serve<R: Wait>(rt: &R, it: &mut OwnerOutcome, parker: &Parker)
    requires open { ¬ IsShut it.old.owner.known.seen }
    requires empty { batch it.old.owner.known.seen ≡ [] }
    requires idle { ¬ IsRunning it.old.owner.known.seen }
    requires ran { numbers_of (handed_in it.old.owner) ≡ it.old.ran.items }
    ensures same { IsSame it.old.owner.known it.new.owner.known }
    ensures ran { numbers_of (handed_in it.new.owner) ≡ it.new.ran.items }
    ensures unchained { accepted (own it.new.owner.known.number it.new.owner.known.seen) ≡ accepted (own it.old.owner.known.number it.old.owner.known.seen) }
    ensures open { ¬ IsShut it.new.owner.known.seen }
    ensures unclosed { ¬ IsClosed it.new.owner.known.seen }
    ensures empty { batch it.new.owner.known.seen ≡ [] }
    ensures idle { ¬ IsRunning it.new.owner.known.seen }
{
    for _ in rt.forever() {
        it.owner.take();
        if execute(rt, it) {
            return;
        }
        if it.owner.rest() {
            parker.park(rt);
        }
    }
    unreachable!()
}

/// Serves a new queue until the stop item ran, closes it, and executes what is left.
pub(crate) fn execute_all<R: Wait>(
    rt: &R,
    owner: ValueOwner<BoxedNumber>,
    parker: &Parker,
) -> OwnerOutcome
    requires new { (owner.known.seen ≡ []) × (owner.brought ≡ []) }
    ensures same { IsSame owner.known result.owner.known }
    ensures complete { IsComplete result.owner.known.seen }
    ensures all_began { begun result.owner.known.seen ≡ accepted result.owner.known.seen }
    ensures all_ended { ended result.owner.known.seen ≡ begun result.owner.known.seen }
    ensures ran { numbers_of result.owner.brought ≡ result.ran.items }
    ensures unchained { accepted (own result.owner.known.number result.owner.known.seen) ≡ [] }
{
    let mut it = OwnerOutcome {
        owner,
        sum: 0,
        ran: Trail::new(),
    };
    serve(rt, &mut it, parker);
    it.owner.close();
    execute(rt, &mut it);
    it.owner.legal();
    if it.owner.done().is_none() {
        unreachable!()
    }
    it
}
