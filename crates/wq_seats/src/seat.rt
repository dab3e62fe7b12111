//! A seat that may be vacant.
ghost use Rattle.std.specs.Prelude.{◌≡◌};
ghost use Rattle.wq_seats.specs.declared.seat.Seat.TheVariants.{Vacant};

use wq_live::{Owner, Sender};

/// A place that a sender or an owner may have. It may be moved to another thread.
#[derive(Drop)]
pub enum Seat {
    /// Nobody's.
    Vacant,
    /// A sender's.
    Sender(Sender),
    /// The owner's, with the senders that are still to be handed out, the last of them first.
    Owner(Owner, Vec<Sender>),
}

/// A vacant seat.
pub fn vacant() -> Seat
    ensures vacant { result ≡ Vacant }
{
    Seat::Vacant
}

fn moved<T: Send>(value: T) -> T
    ensures { result ≡ value }
{
    value
}

/// A seat, moved as to another thread: its type is `Send`.
pub fn moved_seat(seat: Seat) -> Seat
    ensures same { result ≡ seat }
{
    moved(seat)
}
