//! What a sender does.
ghost use Rattle.std.specs.Prelude.{◌<◌};
ghost use Rattle.wq_words.specs.Numbers.{barrier_number, stop_number};
ghost use Rattle.wq_seats.specs.Sent.{HasAnswered, QueuesItem, QueuesBarrier, QueuesStop, ChecksItem, ChecksBarrier, DidQueue, DidFlush};
ghost use Rattle.wq_seats.specs.Sent.{DidStop, DidCheck, DidCheckFlush, DidSetSpins, DidTellNumber, DidTellSent};

use crate::error::SeatError;
use crate::seat::Seat;
use wq_live::{Answer, Sender, SenderCounts, Spins};

fn answer_item(sender: &mut Sender, item: u32, tries: u32) -> Answer
    requires item { item < sender.old.layout.items }
    requires tries { 0 < tries }
    ensures { HasAnswered item tries result sender.old sender.new }
{
    sender.queue_tries(item, tries)
}

fn queue_item(sender: &mut Sender, item: u32, tries: u32) -> Result<Answer, SeatError>
    ensures { QueuesItem item tries result sender.old sender.new }
{
    if item >= sender.layout().items {
        return Err(SeatError::NoItem);
    }
    if tries == 0 {
        return Err(SeatError::NoTries);
    }
    Ok(answer_item(sender, item, tries))
}

/// Queues an item, with at most so many tries (`queue_work`).
///
/// # Errors
/// `NotSender`; `NoItem`; `NoTries` where tries are 0.
pub fn queue(seat: &mut Seat, item: u32, tries: u32) -> Result<Answer, SeatError>
    ensures did { DidQueue item tries result seat.old seat.new }
{
    match seat {
        Seat::Sender(sender) => queue_item(sender, item, tries),
        Seat::Vacant | Seat::Owner(_, _) => Err(SeatError::NotSender),
    }
}

fn check_item(sender: &mut Sender, item: u32) -> Result<bool, SeatError>
    ensures { ChecksItem item result sender.old sender.new }
{
    if item >= sender.layout().items {
        return Err(SeatError::NoItem);
    }
    Ok(sender.is_pending(item))
}

/// The item's PENDING bit (`work_pending`).
///
/// # Errors
/// `NotSender`; `NoItem`.
pub fn is_pending(seat: &mut Seat, item: u32) -> Result<bool, SeatError>
    ensures did { DidCheck item result seat.old seat.new }
{
    match seat {
        Seat::Sender(sender) => check_item(sender, item),
        Seat::Vacant | Seat::Owner(_, _) => Err(SeatError::NotSender),
    }
}

fn answer_barrier(sender: &mut Sender, barrier: u32, tries: u32) -> Answer
    requires barrier { barrier < sender.old.layout.barriers }
    requires tries { 0 < tries }
    ensures { HasAnswered (barrier_number sender.old.layout barrier) tries result sender.old sender.new }
{
    sender.flush_begin(barrier, tries)
}

fn queue_barrier(sender: &mut Sender, barrier: u32, tries: u32) -> Result<Answer, SeatError>
    ensures { QueuesBarrier barrier tries result sender.old sender.new }
{
    if barrier >= sender.layout().barriers {
        return Err(SeatError::NoBarrier);
    }
    if tries == 0 {
        return Err(SeatError::NoTries);
    }
    Ok(answer_barrier(sender, barrier, tries))
}

/// Queues a barrier, the first half of `flush_workqueue`, with at most so many tries.
///
/// # Errors
/// `NotSender`; `NoBarrier`; `NoTries` where tries are 0.
pub fn flush_begin(seat: &mut Seat, barrier: u32, tries: u32) -> Result<Answer, SeatError>
    ensures did { DidFlush barrier tries result seat.old seat.new }
{
    match seat {
        Seat::Sender(sender) => queue_barrier(sender, barrier, tries),
        Seat::Vacant | Seat::Owner(_, _) => Err(SeatError::NotSender),
    }
}

fn check_barrier(sender: &mut Sender, barrier: u32) -> Result<bool, SeatError>
    ensures { ChecksBarrier barrier result sender.old sender.new }
{
    if barrier >= sender.layout().barriers {
        return Err(SeatError::NoBarrier);
    }
    Ok(sender.flush_done(barrier))
}

/// Whether the barrier's PENDING bit is clear. All that was accepted before a push of the barrier has then ended.
///
/// # Errors
/// `NotSender`; `NoBarrier`.
pub fn flush_done(seat: &mut Seat, barrier: u32) -> Result<bool, SeatError>
    ensures did { DidCheckFlush barrier result seat.old seat.new }
{
    match seat {
        Seat::Sender(sender) => check_barrier(sender, barrier),
        Seat::Vacant | Seat::Owner(_, _) => Err(SeatError::NotSender),
    }
}

fn answer_stop(sender: &mut Sender, tries: u32) -> Answer
    requires tries { 0 < tries }
    ensures { HasAnswered (stop_number sender.old.layout) tries result sender.old sender.new }
{
    sender.request_stop(tries)
}

fn queue_stop(sender: &mut Sender, tries: u32) -> Result<Answer, SeatError>
    ensures { QueuesStop tries result sender.old sender.new }
{
    if tries == 0 {
        return Err(SeatError::NoTries);
    }
    Ok(answer_stop(sender, tries))
}

/// Queues the stop item, which has the last number of the queue, with at most so many tries.
///
/// # Errors
/// `NotSender`; `NoTries` where tries are 0.
pub fn request_stop(seat: &mut Seat, tries: u32) -> Result<Answer, SeatError>
    ensures did { DidStop tries result seat.old seat.new }
{
    match seat {
        Seat::Sender(sender) => queue_stop(sender, tries),
        Seat::Vacant | Seat::Owner(_, _) => Err(SeatError::NotSender),
    }
}

/// Sets how long the sender gives way after a lost exchange: twice as many `spin_loop`s as the count, then four times, then eight
/// times as many. It is time alone: no clause speaks of it, and nothing that one sees has changed.
///
/// # Errors
/// `NotSender`.
pub fn set_spins(seat: &mut Seat, count: u32) -> Result<(), SeatError>
    ensures did { DidSetSpins result seat.old seat.new }
{
    match seat {
        Seat::Sender(sender) => {
            sender.set_spins(Spins { count });
            Ok(())
        }
        Seat::Vacant | Seat::Owner(_, _) => Err(SeatError::NotSender),
    }
}

/// The sender's number, which counts from 0.
///
/// # Errors
/// `NotSender`.
pub fn number(seat: &Seat) -> Result<u32, SeatError>
    ensures did { DidTellNumber result seat.now }
{
    match seat {
        Seat::Sender(sender) => Ok(sender.number()),
        Seat::Vacant | Seat::Owner(_, _) => Err(SeatError::NotSender),
    }
}

/// What the sender has counted: its queueings by their answers.
///
/// # Errors
/// `NotSender`.
pub fn sender_counts(seat: &Seat) -> Result<SenderCounts, SeatError>
    ensures did { DidTellSent result seat.now }
{
    match seat {
        Seat::Sender(sender) => Ok(sender.counts()),
        Seat::Vacant | Seat::Owner(_, _) => Err(SeatError::NotSender),
    }
}
