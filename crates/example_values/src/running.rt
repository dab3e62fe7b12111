//! Two senders in threads of their own, and beside them the owner in its own.
ghost use Rattle.std.specs.Prelude.{◌≡◌, ◌*◌, ◌≤◌, [], IfOk};
ghost use Rattle.wq_values.specs.History.{accepted, begun, ended};
ghost use Rattle.wq_values.specs.Legal.{IsComplete};
ghost use Rattle.wq_values.specs.Numbers.{stop_number};
ghost use Rattle.wq_values.specs.Seen.{own};
ghost use Rattle.wq_values.specs.Known.{IsSame, new_sender, new_owner};
ghost use Rattle.wq_values.specs.Laws.{queued_number};
ghost use Rattle.wq_values.specs.KnownWith.{knowing_nothing};
ghost use Rattle.wq_values.specs.OwnBrought.{own_brought};
ghost use Rattle.example_values.specs.Met.{HasHandedOver};
ghost use Rattle.example_values.specs.Messages.{numbers_of};

use crate::executing::{OwnerOutcome, execute_all};
use crate::queueing::{BoxedNumber, Stopped, Told, queue_own, stop};
use crossbeam_utils::sync::{Parker, Unparker};
use std::alloc::Global;
use std::sync::Wait;
use std::thread::{Threads, join};
use wq_values::{BuildError, ValueOwner, ValueSender, build_values};
use wq_words::Layout;

/// The senders of a new queue: two that queue messages, and one that stops the owner behind them.
#[derive(Drop)]
struct Senders {
    first: ValueSender<BoxedNumber>,
    second: ValueSender<BoxedNumber>,
    last: ValueSender<BoxedNumber>,
}

/// The owner and the senders, which have met.
#[derive(Drop)]
pub struct Met {
    /// The owner, with the sum and the list of the messages that it ran.
    pub ran: OwnerOutcome,
    /// The sender 0, and the messages that it queued.
    pub first: Told,
    /// The sender 1, and the messages that it queued.
    pub second: Told,
    /// The sender 2, which queued the stop item.
    pub last: Stopped,
}

/// They meet, so that the owner has seen in the end what each sender did.
fn meet(
    first: &mut ValueSender<BoxedNumber>,
    second: &mut ValueSender<BoxedNumber>,
    last: &mut ValueSender<BoxedNumber>,
    owner: &mut ValueOwner<BoxedNumber>,
)
    requires senders { (second.old.known.queue ≡ first.old.known.queue) × (last.old.known.queue ≡ first.old.known.queue) }
    requires owner { owner.old.known.queue ≡ first.old.known.queue }
    requires complete { IsComplete owner.old.known.seen }
    requires all { begun owner.old.known.seen ≡ accepted owner.old.known.seen }
    ensures same { IsSame owner.old.known owner.new.known }
    ensures same_first { IsSame first.old.known first.new.known }
    ensures same_second { IsSame second.old.known second.new.known }
    ensures same_last { IsSame last.old.known last.new.known }
    ensures complete { IsComplete owner.new.known.seen }
    ensures accepted { accepted owner.new.known.seen ≡ accepted owner.old.known.seen }
    ensures begun { begun owner.new.known.seen ≡ begun owner.old.known.seen }
    ensures ended { ended owner.new.known.seen ≡ ended owner.old.known.seen }
    ensures brought { owner.new.brought ≡ owner.old.brought }
    ensures of_owner { accepted (own owner.old.known.number owner.new.known.seen) ≡ accepted (own owner.old.known.number owner.old.known.seen) }
    ensures of_last { accepted (own last.old.known.number owner.new.known.seen) ≡ accepted (own last.old.known.number last.old.known.seen) }
    ensures to_last { accepted (own last.old.known.number last.new.known.seen) ≡ accepted (own last.old.known.number last.old.known.seen) }
    ensures to_first { own_brought first.old.known.number first.new.known.seen first.new.brought
        ≡ own_brought first.old.known.number first.old.known.seen first.old.brought }
    ensures to_second { own_brought second.old.known.number second.new.known.seen second.new.brought
        ≡ own_brought second.old.known.number second.old.known.seen second.old.brought }
    ensures of_first { own_brought first.old.known.number owner.new.known.seen owner.new.brought
        ≡ own_brought first.old.known.number first.old.known.seen first.old.brought }
    ensures of_second { own_brought second.old.known.number owner.new.known.seen owner.new.brought
        ≡ own_brought second.old.known.number second.old.known.seen second.old.brought }
{
    last.meet_owner(owner);
    first.meet_both(second, owner);
}

/// The senders queue so many items each, of their own, in two threads. When they have ended, the last one queues the stop item.
fn queue_all<R: Threads + Wait + Sync>(
    rt: &R,
    alloc: Global,
    senders: Senders,
    each: u32,
    unparker: &Unparker,
) -> ((Told, Told), Stopped)
    requires items { (each * 2 ≤ senders.first.known.layout.items) × (each * 2 ≤ senders.second.known.layout.items) }
    requires new { (senders.first.known.seen ≡ []) × (senders.first.brought ≡ []) × (senders.second.known.seen ≡ []) × (senders.second.brought ≡ []) }
    requires last { senders.last.known.seen ≡ [] }
    ensures first { IsSame senders.first.known result.0.0.sender.known
        × (numbers_of (own_brought senders.first.known.number result.0.0.sender.known.seen result.0.0.sender.brought) ≡ result.0.0.queued.items) }
    ensures second { IsSame senders.second.known result.0.1.sender.known
        × (numbers_of (own_brought senders.second.known.number result.0.1.sender.known.seen result.0.1.sender.brought) ≡ result.0.1.queued.items) }
    ensures last { IsSame senders.last.known result.1.sender.known
        × (accepted (own senders.last.known.number result.1.sender.known.seen) ≡ queued_number (stop_number senders.last.known.layout) result.1.answer) }
{
    let Senders {
        first,
        second,
        last,
    } = senders;
    let both = join(
        rt,
        move ||
            requires { (each * 2 ≤ first.known.layout.items) × (first.known.seen ≡ []) × (first.brought ≡ []) }
            ensures { IsSame first.known result.sender.known
                × (numbers_of (own_brought first.known.number result.sender.known.seen result.sender.brought) ≡ result.queued.items) }
        { queue_own(rt, alloc, first, 0, each, 1_000, unparker) },
        move ||
            requires { (each * 2 ≤ second.known.layout.items) × (second.known.seen ≡ []) × (second.brought ≡ []) }
            ensures { IsSame second.known result.sender.known
                × (numbers_of (own_brought second.known.number result.sender.known.seen result.sender.brought) ≡ result.queued.items) }
        { queue_own(rt, alloc, second, each, each * 2, 2_000, unparker) },
    );
    (both, stop(last, unparker))
}

/// The owner executes while the senders queue. When the stop item ran, it closes the queue, and all four meet.
fn queue_and_execute<R: Threads + Wait + Sync>(
    rt: &R,
    alloc: Global,
    owner: ValueOwner<BoxedNumber>,
    senders: Senders,
    each: u32,
    parker: Parker,
    unparker: &Unparker,
) -> Met
    requires items { each * 2 ≤ owner.known.layout.items }
    requires owner { owner ≡ knowing_nothing (new_owner owner.known.queue owner.known.layout) }
    requires first { senders.first ≡ knowing_nothing (new_sender owner.known.queue owner.known.layout 0) }
    requires second { senders.second ≡ knowing_nothing (new_sender owner.known.queue owner.known.layout 1) }
    requires last { senders.last ≡ knowing_nothing (new_sender owner.known.queue owner.known.layout 2) }
    ensures layout { result.ran.owner.known.layout ≡ owner.known.layout }
    ensures handed { HasHandedOver result.ran.owner.known.layout result.ran.owner.known.seen result.ran.owner.brought result }
{
    let (mut ran, ((mut first, mut second), mut last)) = join(
        rt,
        move ||
            requires { (owner.known.seen ≡ []) × (owner.brought ≡ []) }
            ensures { IsSame owner.known result.owner.known × IsComplete result.owner.known.seen
                × (begun result.owner.known.seen ≡ accepted result.owner.known.seen) × (ended result.owner.known.seen ≡ begun result.owner.known.seen)
                × (numbers_of result.owner.brought ≡ result.ran.items)
                × (accepted (own result.owner.known.number result.owner.known.seen) ≡ []) }
        { execute_all(rt, owner, &parker) },
        move ||
            requires { (each * 2 ≤ senders.first.known.layout.items) × (each * 2 ≤ senders.second.known.layout.items)
                × (senders.first.known.seen ≡ []) × (senders.first.brought ≡ []) × (senders.second.known.seen ≡ []) × (senders.second.brought ≡ [])
                × (senders.last.known.seen ≡ []) }
            ensures { IsSame senders.first.known result.0.0.sender.known
                × (numbers_of (own_brought senders.first.known.number result.0.0.sender.known.seen result.0.0.sender.brought) ≡ result.0.0.queued.items)
                × IsSame senders.second.known result.0.1.sender.known
                × (numbers_of (own_brought senders.second.known.number result.0.1.sender.known.seen result.0.1.sender.brought) ≡ result.0.1.queued.items)
                × IsSame senders.last.known result.1.sender.known
                × (accepted (own senders.last.known.number result.1.sender.known.seen)
                ≡ queued_number (stop_number senders.last.known.layout) result.1.answer) }
        { queue_all(rt, alloc, senders, each, unparker) },
    );
    meet(
        &mut first.sender,
        &mut second.sender,
        &mut last.sender,
        &mut ran.owner,
    );
    ran.owner.legal();
    Met {
        ran,
        first,
        second,
        last,
    }
}

/// The same on a new queue, with so many items of each of the two senders. The only error is want of memory for the queue: a sender
/// that can have none for a message queues no further one, and the run is Ok.
pub fn run<R: Threads + Wait + Sync>(
    rt: &R,
    alloc: Global,
    layout: Layout,
    each: u32,
) -> Result<Met, BuildError>
    requires items { each * 2 ≤ layout.items }
    requires senders { layout.senders ≡ 3 }
    ensures layout { IfOk result (λ met. met.ran.owner.known.layout ≡ layout) }
    ensures handed { IfOk result (λ met. HasHandedOver met.ran.owner.known.layout met.ran.owner.known.seen met.ran.owner.brought met) }
{
    let parker = Parker::new(alloc)?;
    let unparker = parker.unparker().clone()?;
    let (owner, mut senders) = build_values::<BoxedNumber>(alloc, layout)?;
    let Some(last) = senders.pop() else {
        unreachable!()
    };
    let Some(second) = senders.pop() else {
        unreachable!()
    };
    let Some(first) = senders.pop() else {
        unreachable!()
    };
    let senders = Senders {
        first,
        second,
        last,
    };
    Ok(queue_and_execute(rt, alloc, owner, senders, each, parker, &unparker))
}
