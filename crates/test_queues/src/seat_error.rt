//! The words of why a call of a seat was refused.
use crate::expect::expect_each_words;
use wq_seats::SeatError;
use wq_words::LayoutError;

/// Each error with its words. Those of a size are the layout's own.
const WORDS: &[(SeatError, &str)] = &[
    (SeatError::NotSender, "the seat is no sender's"),
    (SeatError::NotOwner, "the seat is no owner's"),
    (SeatError::NoItem, "no item of the queue"),
    (SeatError::NoBarrier, "no barrier of the queue"),
    (SeatError::NoTries, "no try was allowed"),
    (SeatError::Closed, "the queue is closed"),
    (SeatError::Draining, "the queue drains"),
    (SeatError::NotDraining, "the queue does not drain"),
    (SeatError::Open, "the queue is open"),
    (SeatError::SomeWait, "a number that was taken has not begun"),
    (SeatError::NoneWaits, "all that was taken has begun"),
    (SeatError::Running, "a number runs"),
    (SeatError::NoneRuns, "no number runs"),
    (SeatError::InUse, "the seat is not vacant"),
    (
        SeatError::NoSender,
        "all senders of the queue were handed out",
    ),
    (SeatError::NotDone, "the queue has not run to its end"),
    (SeatError::Memory, "memory"),
    (
        SeatError::Layout(LayoutError::Items),
        "items are 1 to 65536",
    ),
    (
        SeatError::Layout(LayoutError::Barriers),
        "barriers are 1 to 16",
    ),
    (
        SeatError::Layout(LayoutError::Senders),
        "senders are 1 to 64",
    ),
];

#[test]
fn words_of_seat_errors(rt: HostRuntime) {
    expect_each_words(&rt, rt.alloc(), WORDS);
}
