//! A seat of a queue as one value that may be vacant, a sender's or the owner's, for callers that are not proved: each call tests
//! all that it is given, and where it is refused it changes nothing.
#![tactic(auto)]

mod code;
pub mod error;
pub mod laws;
pub mod making;
pub mod owning;
pub mod seat;
pub mod sending;
pub mod word;

pub use error::SeatError;
pub use laws::counts_balance;
pub use seat::{Seat, moved_seat, vacant};
