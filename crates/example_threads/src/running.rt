//! Three senders in threads of their own, and beside them the owner in its own.
ghost use Rattle.std.specs.Prelude.{◌≡◌, ◌*◌, ◌≤◌, [], IfOk};
ghost use Rattle.wq_live.specs.History.{accepted, begun, ended};
ghost use Rattle.wq_live.specs.Legal.{IsComplete};
ghost use Rattle.wq_live.specs.Seen.{own};
ghost use Rattle.wq_live.specs.Known.{IsSame, new_sender, new_owner};
ghost use Rattle.example_threads.specs.Met.{IsHistoryOf, QueuedAsTold};

use crate::executing::execute_all;
use crate::queueing::{Told, TwoSenders, queue_both, queue_own, stop};
use crate::waking::{Waker, WakesOn, parker_and_waker};
use crossbeam_utils::sync::Parker;
use std::alloc::Global;
use std::sync::Wait;
use std::thread::{Threads, join};
use wq_live::{BuildError, Owner, Sender, build};
use wq_words::Layout;

/// The senders of a new queue.
#[derive(Drop)]
struct Senders {
    first: Sender,
    second: Sender,
    third: Sender,
}

/// The senders, with what each of them queued.
#[derive(Drop)]
struct Three {
    first: Told,
    second: Told,
    third: Told,
}

/// The owner and the senders, which have met.
#[derive(Drop)]
pub struct Met {
    /// The owner, with the whole history of the queue, which contracts alone see.
    pub owner: Owner,
    /// The sender 0, and what it queued.
    pub first: Told,
    /// The sender 1, and what it queued.
    pub second: Told,
    /// The sender 2, and what it queued.
    pub third: Told,
}

/// They meet, so that the owner has seen in the end what each sender did.
fn meet(first: &mut Sender, second: &mut Sender, third: &mut Sender, owner: &mut Owner)
    requires senders { (second.old.queue ≡ first.old.queue) × (third.old.queue ≡ first.old.queue) }
    requires owner { owner.old.queue ≡ first.old.queue }
    requires complete { IsComplete owner.old.seen }
    ensures same { IsSame owner.old owner.new }
    ensures same_first { IsSame first.old first.new }
    ensures same_second { IsSame second.old second.new }
    ensures same_third { IsSame third.old third.new }
    ensures complete { IsComplete owner.new.seen }
    ensures accepted { accepted owner.new.seen ≡ accepted owner.old.seen }
    ensures begun { begun owner.new.seen ≡ begun owner.old.seen }
    ensures ended { ended owner.new.seen ≡ ended owner.old.seen }
    ensures of_owner { accepted (own owner.old.number owner.new.seen) ≡ accepted (own owner.old.number owner.old.seen) }
    ensures to_first { accepted (own first.old.number first.new.seen) ≡ accepted (own first.old.number first.old.seen) }
    ensures to_second { accepted (own second.old.number second.new.seen) ≡ accepted (own second.old.number second.old.seen) }
    ensures to_third { accepted (own third.old.number third.new.seen) ≡ accepted (own third.old.number third.old.seen) }
    ensures of_first { accepted (own first.old.number owner.new.seen) ≡ accepted (own first.old.number first.old.seen) }
    ensures of_second { accepted (own second.old.number owner.new.seen) ≡ accepted (own second.old.number second.old.seen) }
    ensures of_third { accepted (own third.old.number owner.new.seen) ≡ accepted (own third.old.number third.old.seen) }
{
    first.meet_both(second, owner);
    third.meet_owner(owner);
}

/// The senders queue so many items each, of their own, in three threads. When they have ended, the third queues the stop item.
fn queue_all<R: Threads + Wait + Sync>(rt: &R, senders: Senders, each: u32, waker: &Waker) -> Three
    requires items { (each * 3 ≤ senders.first.layout.items) × (each * 3 ≤ senders.second.layout.items) × (each * 3 ≤ senders.third.layout.items) }
    requires new { (senders.first.seen ≡ []) × (senders.second.seen ≡ []) × (senders.third.seen ≡ []) }
    ensures first { QueuedAsTold senders.first result.first }
    ensures second { QueuedAsTold senders.second result.second }
    ensures third { QueuedAsTold senders.third result.third }
{
    let Senders {
        first,
        second,
        third,
    } = senders;
    let (both, last) = join(
        rt,
        move ||
            requires { (each * 3 ≤ first.layout.items) × (each * 3 ≤ second.layout.items) × (first.seen ≡ []) × (second.seen ≡ []) }
            ensures { QueuedAsTold first result.first × QueuedAsTold second result.second }
        { queue_both(rt, first, second, each, waker) },
        move ||
            requires { (each * 3 ≤ third.layout.items) × (third.seen ≡ []) }
            ensures { QueuedAsTold third result }
        { queue_own(rt, third, each * 2, each * 3, waker) },
    );
    let TwoSenders { first, second } = both;
    Three {
        first,
        second,
        third: stop(last, waker),
    }
}

/// The owner executes while the senders queue. When the stop item ran, it closes the queue, and all four meet.
fn queue_and_execute<R: Threads + Wait + Sync>(
    rt: &R,
    owner: Owner,
    senders: Senders,
    each: u32,
    parker: Parker,
    waker: &Waker,
) -> Met
    requires items { each * 3 ≤ owner.layout.items }
    requires owner { owner ≡ new_owner owner.queue owner.layout }
    requires first { senders.first ≡ new_sender owner.queue owner.layout 0 }
    requires second { senders.second ≡ new_sender owner.queue owner.layout 1 }
    requires third { senders.third ≡ new_sender owner.queue owner.layout 2 }
    ensures layout { result.owner.layout ≡ owner.layout }
    ensures history { IsHistoryOf result.owner.layout result.owner.seen result }
{
    let (mut owner, queued) = join(
        rt,
        move ||
            requires { owner.seen ≡ [] }
            ensures { IsSame owner result
                × IsComplete result.seen
                × (begun result.seen ≡ accepted result.seen)
                × (ended result.seen ≡ begun result.seen)
                × (accepted (own owner.number result.seen) ≡ []) }
        { execute_all(rt, owner, &parker) },
        move ||
            requires { (each * 3 ≤ senders.first.layout.items) × (each * 3 ≤ senders.second.layout.items) × (each * 3 ≤ senders.third.layout.items)
                × (senders.first.seen ≡ []) × (senders.second.seen ≡ []) × (senders.third.seen ≡ []) }
            ensures { QueuedAsTold senders.first result.first × QueuedAsTold senders.second result.second × QueuedAsTold senders.third result.third }
        { queue_all(rt, senders, each, waker) },
    );
    let Three {
        mut first,
        mut second,
        mut third,
    } = queued;
    meet(
        &mut first.sender,
        &mut second.sender,
        &mut third.sender,
        &mut owner,
    );
    owner.legal();
    Met {
        owner,
        first,
        second,
        third,
    }
}

/// The same on a new queue, with so many items of each sender. The only error is want of memory.
pub fn run<R: Threads + Wait + Sync>(
    rt: &R,
    alloc: Global,
    layout: Layout,
    each: u32,
) -> Result<Met, BuildError>
    requires items { each * 3 ≤ layout.items }
    requires senders { layout.senders ≡ 3 }
    ensures layout { IfOk result (λ met. met.owner.layout ≡ layout) }
    ensures history { IfOk result (λ met. IsHistoryOf met.owner.layout met.owner.seen met) }
{
    let (parker, waker) = parker_and_waker(alloc, WakesOn::Rest)?;
    let (owner, mut senders) = build(alloc, layout)?;
    let Some(third) = senders.pop() else {
        unreachable!()
    };
    let Some(second) = senders.pop() else {
        unreachable!()
    };
    let Some(first) = senders.pop() else {
        unreachable!()
    };
    let senders = Senders {
        first,
        second,
        third,
    };
    Ok(queue_and_execute(rt, owner, senders, each, parker, &waker))
}
