//! The owner, which takes, executes, rests and parks until the stop item ran.
ghost use Rattle.std.specs.Prelude.{◌≡◌, ◌≢◌, []};
ghost use Rattle.wq_live.specs.History.{accepted, begun, ended, IsRunning, IsClosed, IsShut};
ghost use Rattle.wq_live.specs.Legal.{IsComplete};
ghost use Rattle.wq_live.specs.Seen.{own};
ghost use Rattle.wq_live.specs.Known.{IsSame};
ghost use Rattle.wq_live.specs.Batch.{batch};

use crossbeam_utils::sync::Parker;
use std::sync::Wait;
use wq_live::Owner;

/// The next execution, where a user's own work would stand between its begin and its end. Which number it was.
fn execute_one(owner: &mut Owner) -> u32
    requires waits { batch owner.old.seen ≢ [] }
    requires idle { ¬ IsRunning owner.old.seen }
    ensures same { IsSame owner.old owner.new }
    ensures unchained { accepted (own owner.new.number owner.new.seen) ≡ accepted (own owner.old.number owner.old.seen) }
    ensures idle { ¬ IsRunning owner.new.seen }
    ensures open { ¬ IsShut owner.old.seen → ¬ IsShut owner.new.seen }
    ensures unclosed { ¬ IsClosed owner.old.seen → ¬ IsClosed owner.new.seen }
    ensures closed { IsClosed owner.old.seen → IsClosed owner.new.seen }
{
    let number = owner.begin();
    owner.end();
    number
}

/// All that waits. Whether the stop item was among it.
fn execute<R: Wait>(rt: &R, owner: &mut Owner) -> bool
    requires idle { ¬ IsRunning owner.old.seen }
    ensures same { IsSame owner.old owner.new }
    ensures unchained { accepted (own owner.new.number owner.new.seen) ≡ accepted (own owner.old.number owner.old.seen) }
    ensures idle { ¬ IsRunning owner.new.seen }
    ensures empty { batch owner.new.seen ≡ [] }
    ensures open { ¬ IsShut owner.old.seen → ¬ IsShut owner.new.seen }
    ensures unclosed { ¬ IsClosed owner.old.seen → ¬ IsClosed owner.new.seen }
    ensures closed { IsClosed owner.old.seen → IsClosed owner.new.seen }
{
    let stop = owner.layout().stop();
    let mut is_stopped = false;
    for _ in rt.forever() {
        if owner.waiting() == 0 {
            return is_stopped;
        }
        is_stopped |= execute_one(owner) == stop;
    }
    unreachable!()
}

/// Takes, executes and rests until the stop item ran. Where the queue rests, the thread parks.
fn serve<R: Wait>(rt: &R, owner: &mut Owner, parker: &Parker)
    requires open { ¬ IsShut owner.old.seen }
    requires empty { batch owner.old.seen ≡ [] }
    requires idle { ¬ IsRunning owner.old.seen }
    ensures same { IsSame owner.old owner.new }
    ensures unchained { accepted (own owner.new.number owner.new.seen) ≡ accepted (own owner.old.number owner.old.seen) }
    ensures open { ¬ IsShut owner.new.seen }
    ensures unclosed { ¬ IsClosed owner.new.seen }
    ensures empty { batch owner.new.seen ≡ [] }
    ensures idle { ¬ IsRunning owner.new.seen }
{
    for _ in rt.forever() {
        owner.take();
        if execute(rt, owner) {
            return;
        }
        if owner.rest() {
            parker.park(rt);
        }
    }
    unreachable!()
}

/// Serves a new queue until the stop item ran, closes it, and executes what is left.
pub(crate) fn execute_all<R: Wait>(rt: &R, mut owner: Owner, parker: &Parker) -> Owner
    requires new { owner.seen ≡ [] }
    ensures same { IsSame owner result }
    ensures complete { IsComplete result.seen }
    ensures all_began { begun result.seen ≡ accepted result.seen }
    ensures all_ended { ended result.seen ≡ begun result.seen }
    ensures unchained { accepted (own result.number result.seen) ≡ [] }
{
    serve(rt, &mut owner, parker);
    owner.close();
    execute(rt, &mut owner);
    if owner.done().is_none() {
        unreachable!()
    }
    owner
}
