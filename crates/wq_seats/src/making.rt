//! How seats are taken and given up.
ghost use Rattle.wq_seats.specs.Made.{DidBuild, DidHandOut, DidRelease};

use crate::error::SeatError;
use crate::seat::Seat;
use std::alloc::Global;
use wq_words::Layout;

/// Builds a queue of this size. Its owner takes the seat, with all senders of the queue. All memory that the queue needs is taken
/// here.
///
/// # Errors
/// `InUse` where the seat is not vacant; `Layout` with the first of items, barriers and senders that is out of its limits;
/// `Memory`.
pub fn build(
    seat: &mut Seat,
    alloc: Global,
    items: u32,
    barriers: u32,
    senders: u32,
) -> Result<(), SeatError>
    ensures did { DidBuild items barriers senders result seat.old seat.new }
{
    match seat {
        Seat::Vacant => {}
        Seat::Sender(_) | Seat::Owner(_, _) => return Err(SeatError::InUse),
    }
    let layout = match Layout::new(items, barriers, senders) {
        Ok(layout) => layout,
        Err(error) => return Err(SeatError::Layout(error)),
    };
    match wq_live::build(alloc, layout) {
        Ok((owner, senders)) => {
            *seat = Seat::Owner(owner, senders);
            Ok(())
        }
        Err(_) => Err(SeatError::Memory),
    }
}

/// Hands out a sender of the owner's queue, of those that are left the one with the highest number. It takes the other seat.
///
/// # Errors
/// `InUse` where the other seat is not vacant; `NotOwner`; `NoSender` where all were handed out.
pub fn hand_out(seat: &mut Seat, to: &mut Seat) -> Result<(), SeatError>
    ensures did { DidHandOut result seat.old to.old seat.new to.new }
{
    match to {
        Seat::Vacant => {}
        Seat::Sender(_) | Seat::Owner(_, _) => return Err(SeatError::InUse),
    }
    let Seat::Owner(_, senders) = seat else {
        return Err(SeatError::NotOwner);
    };
    if senders.is_empty() {
        return Err(SeatError::NoSender);
    }
    match senders.pop() {
        Some(sender) => {
            *to = Seat::Sender(sender);
            Ok(())
        }
        None => unreachable!(),
    }
}

/// Gives up a seat, which is vacant then. The last of a queue gives its memory back.
///
/// # Errors
/// `NotDone` where an owner's queue has not run to its end.
pub fn release(seat: &mut Seat) -> Result<(), SeatError>
    ensures did { DidRelease result seat.old seat.new }
{
    if let Seat::Owner(owner, _) = seat {
        if owner.done().is_none() {
            return Err(SeatError::NotDone);
        }
    }
    *seat = Seat::Vacant;
    Ok(())
}
