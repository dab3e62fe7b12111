//! What the owner does.
ghost use Rattle.std.specs.Prelude.{◌≡◌, ◌<◌, false, [], ◌∷◌, Ok, IsTrue};
ghost use Rattle.wq_words.specs.History.{IsClosed, IsShut, IsDraining, IsRunning};
ghost use Rattle.wq_words.specs.declared.event.Event.TheVariants.{Close, Drain, Resume};
ghost use Rattle.wq_live.specs.Answers.{Chains};
ghost use Rattle.wq_live.specs.Batch.{batch};
ghost use Rattle.wq_live.specs.Known.{IsSame, Sees};
ghost use Rattle.wq_seats.specs.Owned.{HasTaken, TakesList, ClosesQueue, DrainsQueue, ResumesQueue, TellsNext, BeginsNext, EndsRunning};
ghost use Rattle.wq_seats.specs.Owned.{HasTriedToRest, RestsQueue, ChainsItem, DidTake, DidClose, DidDrain, DidResume, DidTellNext};
ghost use Rattle.wq_seats.specs.Owned.{DidTellWaiting, DidBegin, DidEnd, DidRest, DidChain, DidTellDone, DidTellExecuted};

use crate::error::SeatError;
use crate::seat::Seat;
use wq_live::{Answer, Owner, OwnerCounts};

fn take_now(owner: &mut Owner) -> u32
    requires open { ¬ IsShut owner.old.seen }
    requires empty { batch owner.old.seen ≡ [] }
    ensures { TakesList (Ok result) owner.old owner.new }
{
    owner.take()
}

fn take_open(owner: &mut Owner) -> Result<u32, SeatError>
    requires open { ¬ IsShut owner.old.seen }
    ensures { TakesList result owner.old owner.new }
{
    if owner.next().is_some() {
        return Err(SeatError::SomeWait);
    }
    Ok(take_now(owner))
}

fn take_list(owner: &mut Owner) -> Result<u32, SeatError>
    ensures { TakesList result owner.old owner.new }
{
    if owner.is_closed() {
        return Err(SeatError::Closed);
    }
    if owner.is_draining() {
        return Err(SeatError::Draining);
    }
    take_open(owner)
}

/// Takes all that stands on the list, and answers how many that is (`llist_del_all`).
///
/// # Errors
/// `NotOwner`; `Closed`; `Draining`; `SomeWait`.
pub fn take(seat: &mut Seat) -> Result<u32, SeatError>
    ensures did { DidTake result seat.old seat.new }
{
    match seat {
        Seat::Owner(owner, _) => take_list(owner),
        Seat::Vacant | Seat::Sender(_) => Err(SeatError::NotOwner),
    }
}

fn close_now(owner: &mut Owner) -> u32
    requires unclosed { ¬ IsClosed owner.old.seen }
    ensures { HasTaken Close result owner.old owner.new }
{
    owner.close()
}

fn close_queue(owner: &mut Owner) -> Result<u32, SeatError>
    ensures { ClosesQueue result owner.old owner.new }
{
    if owner.is_closed() {
        return Err(SeatError::Closed);
    }
    Ok(close_now(owner))
}

/// Closes the queue, also one that drains, takes all that stands on the list, and answers how many that is.
///
/// # Errors
/// `NotOwner`; `Closed`.
pub fn close(seat: &mut Seat) -> Result<u32, SeatError>
    ensures did { DidClose result seat.old seat.new }
{
    match seat {
        Seat::Owner(owner, _) => close_queue(owner),
        Seat::Vacant | Seat::Sender(_) => Err(SeatError::NotOwner),
    }
}

fn drain_now(owner: &mut Owner) -> u32
    requires open { ¬ IsShut owner.old.seen }
    ensures { HasTaken Drain result owner.old owner.new }
{
    owner.drain()
}

fn drain_queue(owner: &mut Owner) -> Result<u32, SeatError>
    ensures { DrainsQueue result owner.old owner.new }
{
    if owner.is_closed() {
        return Err(SeatError::Closed);
    }
    if owner.is_draining() {
        return Err(SeatError::Draining);
    }
    Ok(drain_now(owner))
}

/// Begins a drain (`drain_workqueue`), takes all that stands on the list, and answers how many that is.
///
/// # Errors
/// `NotOwner`; `Closed`; `Draining`.
pub fn drain(seat: &mut Seat) -> Result<u32, SeatError>
    ensures did { DidDrain result seat.old seat.new }
{
    match seat {
        Seat::Owner(owner, _) => drain_queue(owner),
        Seat::Vacant | Seat::Sender(_) => Err(SeatError::NotOwner),
    }
}

fn resume_now(owner: &mut Owner)
    requires draining { IsDraining owner.old.seen }
    requires empty { batch owner.old.seen ≡ [] }
    requires idle { ¬ IsRunning owner.old.seen }
    ensures { Sees (Resume ∷ []) 0 owner.old owner.new }
{
    owner.resume();
}

fn resume_draining(owner: &mut Owner) -> Result<(), SeatError>
    requires draining { IsDraining owner.old.seen }
    ensures { ResumesQueue result owner.old owner.new }
{
    if owner.next().is_some() {
        return Err(SeatError::SomeWait);
    }
    if owner.running().is_some() {
        return Err(SeatError::Running);
    }
    resume_now(owner);
    Ok(())
}

fn resume_queue(owner: &mut Owner) -> Result<(), SeatError>
    ensures { ResumesQueue result owner.old owner.new }
{
    if !owner.is_draining() {
        return Err(SeatError::NotDraining);
    }
    resume_draining(owner)
}

/// Ends a drain, once all that was accepted has ended: the queue takes pushes again.
///
/// # Errors
/// `NotOwner`; `NotDraining`; `SomeWait`; `Running`.
pub fn resume(seat: &mut Seat) -> Result<(), SeatError>
    ensures did { DidResume result seat.old seat.new }
{
    match seat {
        Seat::Owner(owner, _) => resume_queue(owner),
        Seat::Vacant | Seat::Sender(_) => Err(SeatError::NotOwner),
    }
}

fn next_of_owner(owner: &Owner) -> Result<u32, SeatError>
    ensures { TellsNext result owner.now }
{
    owner.next().ok_or(SeatError::NoneWaits)
}

/// The oldest number that was taken and has not begun.
///
/// # Errors
/// `NotOwner`; `NoneWaits`.
pub fn next(seat: &Seat) -> Result<u32, SeatError>
    ensures did { DidTellNext result seat.now }
{
    match seat {
        Seat::Owner(owner, _) => next_of_owner(owner),
        Seat::Vacant | Seat::Sender(_) => Err(SeatError::NotOwner),
    }
}

/// How many numbers were taken and have not begun.
///
/// # Errors
/// `NotOwner`.
pub fn waiting(seat: &Seat) -> Result<u32, SeatError>
    ensures did { DidTellWaiting result seat.now }
{
    match seat {
        Seat::Owner(owner, _) => Ok(owner.waiting()),
        Seat::Vacant | Seat::Sender(_) => Err(SeatError::NotOwner),
    }
}

fn begin_next(owner: &mut Owner) -> Result<u32, SeatError>
    ensures { BeginsNext result owner.old owner.new }
{
    if owner.running().is_some() {
        return Err(SeatError::Running);
    }
    if owner.next().is_none() {
        return Err(SeatError::NoneWaits);
    }
    let number = owner.begin();
    Ok(number)
}

/// Begins the oldest number that was taken, and answers it. Its PENDING bit is clear before that, so that it can be queued
/// again while it runs.
///
/// # Errors
/// `NotOwner`; `Running`; `NoneWaits`.
pub fn begin(seat: &mut Seat) -> Result<u32, SeatError>
    ensures did { DidBegin result seat.old seat.new }
{
    match seat {
        Seat::Owner(owner, _) => begin_next(owner),
        Seat::Vacant | Seat::Sender(_) => Err(SeatError::NotOwner),
    }
}

fn end_running(owner: &mut Owner) -> Result<(), SeatError>
    ensures { EndsRunning result owner.old owner.new }
{
    if owner.running().is_none() {
        return Err(SeatError::NoneRuns);
    }
    owner.end();
    Ok(())
}

/// Ends the execution that runs.
///
/// # Errors
/// `NotOwner`; `NoneRuns`.
pub fn end(seat: &mut Seat) -> Result<(), SeatError>
    ensures did { DidEnd result seat.old seat.new }
{
    match seat {
        Seat::Owner(owner, _) => end_running(owner),
        Seat::Vacant | Seat::Sender(_) => Err(SeatError::NotOwner),
    }
}

fn rest_now(owner: &mut Owner) -> bool
    requires open { ¬ IsShut owner.old.seen }
    requires empty { batch owner.old.seen ≡ [] }
    requires idle { ¬ IsRunning owner.old.seen }
    ensures { HasTriedToRest result owner.old owner.new }
{
    owner.rest()
}

fn rest_queue(owner: &mut Owner) -> Result<bool, SeatError>
    ensures { RestsQueue result owner.old owner.new }
{
    if owner.is_closed() {
        return Err(SeatError::Closed);
    }
    if owner.is_draining() {
        return Err(SeatError::Draining);
    }
    if owner.next().is_some() {
        return Err(SeatError::SomeWait);
    }
    if owner.running().is_some() {
        return Err(SeatError::Running);
    }
    Ok(rest_now(owner))
}

/// Says once that the queue rests: true where nothing was pushed since the last take, drain or resume, and the queue did not rest.
/// The next push then answers `wakes`, if no take, drain or close comes before it.
///
/// # Errors
/// `NotOwner`; `Closed`; `Draining`; `SomeWait`; `Running`.
pub fn rest(seat: &mut Seat) -> Result<bool, SeatError>
    ensures did { DidRest result seat.old seat.new }
{
    match seat {
        Seat::Owner(owner, _) => rest_queue(owner),
        Seat::Vacant | Seat::Sender(_) => Err(SeatError::NotOwner),
    }
}

fn chain_now(owner: &mut Owner, item: u32) -> Answer
    requires item { item < owner.old.layout.items }
    requires shut { IsShut owner.old.seen }
    requires runs { IsRunning owner.old.seen }
    ensures { Chains item result owner.old owner.new × IsSame owner.old owner.new }
{
    owner.chain(item)
}

fn chain_shut(owner: &mut Owner, item: u32) -> Result<Answer, SeatError>
    requires item { item < owner.old.layout.items }
    requires shut { IsShut owner.old.seen }
    ensures { ChainsItem item result owner.old owner.new }
{
    if owner.running().is_none() {
        return Err(SeatError::NoneRuns);
    }
    Ok(chain_now(owner, item))
}

fn is_open(owner: &Owner) -> bool
    ensures open { IsTrue result → ¬ IsShut owner.now.seen }
    ensures shut { result ≡ false → IsShut owner.now.seen }
{
    !owner.is_closed() && !owner.is_draining()
}

fn chain_item(owner: &mut Owner, item: u32) -> Result<Answer, SeatError>
    ensures { ChainsItem item result owner.old owner.new }
{
    if item >= owner.layout().items {
        return Err(SeatError::NoItem);
    }
    if is_open(owner) {
        return Err(SeatError::Open);
    }
    chain_shut(owner, item)
}

/// Queues an item behind all that waits, from the execution that runs while the queue is closed or drains.
///
/// # Errors
/// `NotOwner`; `NoItem`; `Open`; `NoneRuns`.
pub fn chain(seat: &mut Seat, item: u32) -> Result<Answer, SeatError>
    ensures did { DidChain item result seat.old seat.new }
{
    match seat {
        Seat::Owner(owner, _) => chain_item(owner, item),
        Seat::Vacant | Seat::Sender(_) => Err(SeatError::NotOwner),
    }
}

/// Whether the queue is closed and has run to its end.
///
/// # Errors
/// `NotOwner`.
pub fn is_done(seat: &Seat) -> Result<bool, SeatError>
    ensures did { DidTellDone result seat.now }
{
    match seat {
        Seat::Owner(owner, _) => Ok(owner.done().is_some()),
        Seat::Vacant | Seat::Sender(_) => Err(SeatError::NotOwner),
    }
}

/// What the owner has counted: its executions, and what it chained to them.
///
/// # Errors
/// `NotOwner`.
pub fn owner_counts(seat: &Seat) -> Result<OwnerCounts, SeatError>
    ensures did { DidTellExecuted result seat.now }
{
    match seat {
        Seat::Owner(owner, _) => Ok(owner.counts()),
        Seat::Vacant | Seat::Sender(_) => Err(SeatError::NotOwner),
    }
}
