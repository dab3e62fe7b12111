//! An owner and a sender in one seat: what the one queues the other has seen, and no meeting is needed.
ghost use Rattle.std.specs.Prelude.{◌≡◌, ◌≢◌, ◌<◌, ◌++◌, ◌∷◌, []};
ghost use Rattle.wq_words.specs.History.{ended, IsRunning, IsShut};
ghost use Rattle.wq_live.specs.Batch.{batch};

use crate::expect::expect_same;
use crate::seats::{FIRST, WAKES, two_seats};
use std::process::Abort;
use wq_live::{Answer, Owner, Pair, Sender};

/// The next execution, within which the sender of the same seat queues an item. Which number it was, and the answer.
fn queue_within(pair: &mut Pair, item: u32) -> (u32, Answer)
    requires waits { batch pair.old.seen ≢ [] }
    requires idle { ¬ IsRunning pair.old.seen }
    requires open { ¬ IsShut pair.old.seen }
    requires item { item < pair.old.layout.items }
    ensures ended { ended pair.new.seen ≡ ended pair.old.seen ++ result.0 ∷ [] }
    ensures idle { ¬ IsRunning pair.new.seen }
    ensures open { ¬ IsShut pair.new.seen }
{
    let number = pair.begin();
    let answer = pair.queue_tries(item, 1);
    pair.end();
    (number, answer)
}

/// An item is queued, runs, is queued again while it runs, and runs again.
fn run_twice<R: Abort>(rt: &R, owner: Owner, sender: Sender)
    requires one { sender.queue ≡ owner.queue }
    requires new { owner.seen ≡ [] }
{
    let mut pair = Pair::join(owner, sender);
    assert!(rt; 0 < pair.layout().items);
    expect_same(rt, pair.queue_tries(0, 1), WAKES);
    expect_same(rt, pair.take(), 1);
    assert!(rt; pair.waiting() != 0);
    expect_same(rt, queue_within(&mut pair, 0), (0, FIRST));
    assert!(rt; pair.waiting() == 0);
    expect_same(rt, pair.take(), 1);
    assert!(rt; pair.waiting() != 0);
    expect_same(rt, pair.begin(), 0);
    pair.end();
    let (owner, sender) = pair.split();
    expect_same(rt, (owner.counts().ended, sender.counts().queued), (2, 2));
    drop(sender);
    drop(owner);
}

/// The sender in an owner's seat queues anew what the owner runs.
#[test]
fn pair_queues_what_it_runs(rt: HostRuntime) {
    let (owner, sender) = two_seats(&rt, rt.alloc(), 1);
    run_twice(&rt, owner, sender);
}
