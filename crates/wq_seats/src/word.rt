//! The calls of a seat with their answers as words, for a caller in another language. A word has a code in its low 32 bits and,
//! above them, a number where the answer has one; that of a count is the count.
ghost use Rattle.wq_seats.specs.Words.{SaidBuild, SaidHandOut, SaidRelease, SaidQueue, SaidCheck, SaidFlush, SaidCheckFlush, SaidStop};
ghost use Rattle.wq_seats.specs.Words.{SaidSetSpins, SaidNumber, SaidTake, SaidClose, SaidDrain, SaidResume, SaidNext, SaidWaiting, SaidBegin, SaidEnd};
ghost use Rattle.std.specs.Prelude.{◌≡◌, get_or};
ghost use Rattle.wq_seats.specs.Words.{SaidRest, SaidChain, SaidDone, counts_of_sender, counts_of_owner, SaidCount};

use crate::code::{answer_code, success_code, truth_code, word_of_number};
use crate::seat::Seat;
use crate::{making, owning, sending};
use std::alloc::Global;
use wq_live::{OwnerCounts, SenderCounts};

/// `making::build`.
pub fn build_word(seat: &mut Seat, alloc: Global, items: u32, barriers: u32, senders: u32) -> u64
    ensures said { SaidBuild items barriers senders result seat.old seat.new }
{
    let said = making::build(seat, alloc, items, barriers, senders);
    success_code(said)
}

/// `making::hand_out`.
pub fn hand_out_word(seat: &mut Seat, to: &mut Seat) -> u64
    ensures said { SaidHandOut result seat.old to.old seat.new to.new }
{
    let said = making::hand_out(seat, to);
    success_code(said)
}

/// `making::release`.
pub fn release_word(seat: &mut Seat) -> u64
    ensures said { SaidRelease result seat.old seat.new }
{
    let said = making::release(seat);
    success_code(said)
}

/// `sending::queue`.
pub fn queue_word(seat: &mut Seat, item: u32, tries: u32) -> u64
    ensures said { SaidQueue item tries result seat.old seat.new }
{
    let said = sending::queue(seat, item, tries);
    answer_code(said)
}

/// `sending::is_pending`.
pub fn is_pending_word(seat: &mut Seat, item: u32) -> u64
    ensures said { SaidCheck item result seat.old seat.new }
{
    let said = sending::is_pending(seat, item);
    truth_code(said)
}

/// `sending::flush_begin`.
pub fn flush_begin_word(seat: &mut Seat, barrier: u32, tries: u32) -> u64
    ensures said { SaidFlush barrier tries result seat.old seat.new }
{
    let said = sending::flush_begin(seat, barrier, tries);
    answer_code(said)
}

/// `sending::flush_done`.
pub fn flush_done_word(seat: &mut Seat, barrier: u32) -> u64
    ensures said { SaidCheckFlush barrier result seat.old seat.new }
{
    let said = sending::flush_done(seat, barrier);
    truth_code(said)
}

/// `sending::request_stop`.
pub fn request_stop_word(seat: &mut Seat, tries: u32) -> u64
    ensures said { SaidStop tries result seat.old seat.new }
{
    let said = sending::request_stop(seat, tries);
    answer_code(said)
}

/// `sending::set_spins`.
pub fn set_spins_word(seat: &mut Seat, count: u32) -> u64
    ensures said { SaidSetSpins result seat.old seat.new }
{
    let said = sending::set_spins(seat, count);
    success_code(said)
}

/// `sending::number`.
pub fn number_word(seat: &mut Seat) -> u64
    ensures said { SaidNumber result seat.old seat.new }
{
    let said = sending::number(seat);
    word_of_number(said)
}

/// `owning::take`.
pub fn take_word(seat: &mut Seat) -> u64
    ensures said { SaidTake result seat.old seat.new }
{
    let said = owning::take(seat);
    word_of_number(said)
}

/// `owning::close`.
pub fn close_word(seat: &mut Seat) -> u64
    ensures said { SaidClose result seat.old seat.new }
{
    let said = owning::close(seat);
    word_of_number(said)
}

/// `owning::drain`.
pub fn drain_word(seat: &mut Seat) -> u64
    ensures said { SaidDrain result seat.old seat.new }
{
    let said = owning::drain(seat);
    word_of_number(said)
}

/// `owning::resume`.
pub fn resume_word(seat: &mut Seat) -> u64
    ensures said { SaidResume result seat.old seat.new }
{
    let said = owning::resume(seat);
    success_code(said)
}

/// `owning::next`.
pub fn next_word(seat: &mut Seat) -> u64
    ensures said { SaidNext result seat.old seat.new }
{
    let said = owning::next(seat);
    word_of_number(said)
}

/// `owning::waiting`.
pub fn waiting_word(seat: &mut Seat) -> u64
    ensures said { SaidWaiting result seat.old seat.new }
{
    let said = owning::waiting(seat);
    word_of_number(said)
}

/// `owning::begin`.
pub fn begin_word(seat: &mut Seat) -> u64
    ensures said { SaidBegin result seat.old seat.new }
{
    let said = owning::begin(seat);
    word_of_number(said)
}

/// `owning::end`.
pub fn end_word(seat: &mut Seat) -> u64
    ensures said { SaidEnd result seat.old seat.new }
{
    let said = owning::end(seat);
    success_code(said)
}

/// `owning::rest`.
pub fn rest_word(seat: &mut Seat) -> u64
    ensures said { SaidRest result seat.old seat.new }
{
    let said = owning::rest(seat);
    truth_code(said)
}

/// `owning::chain`.
pub fn chain_word(seat: &mut Seat, item: u32) -> u64
    ensures said { SaidChain item result seat.old seat.new }
{
    let said = owning::chain(seat, item);
    answer_code(said)
}

/// `owning::is_done`.
pub fn is_done_word(seat: &mut Seat) -> u64
    ensures said { SaidDone result seat.old seat.new }
{
    let said = owning::is_done(seat);
    truth_code(said)
}

fn sender_count(counts: SenderCounts, which: u32) -> u64
    ensures { result ≡ get_or (counts_of_sender counts) which 0 }
{
    match which {
        0 => counts.queued,
        1 => counts.pending,
        2 => counts.closed,
        3 => counts.draining,
        4 => counts.contended,
        _ => 0,
    }
}

fn owner_count(counts: OwnerCounts, which: u32) -> u64
    ensures { result ≡ get_or (counts_of_owner counts) which 0 }
{
    match which {
        5 => counts.chained,
        6 => counts.chain_busy,
        7 => counts.ended,
        _ => 0,
    }
}

/// One of the counts of `sending::sender_counts` and `owning::owner_counts`: 0 to 4 those of a sender, 5 to 7 those of an owner, each
/// in the order of its struct. A seat has counted nothing that is another's.
pub fn count_word(seat: &mut Seat, which: u32) -> u64
    ensures said { SaidCount which result seat.old seat.new }
{
    if let Ok(counts) = sending::sender_counts(seat) {
        return sender_count(counts, which);
    }
    if let Ok(counts) = owning::owner_counts(seat) {
        return owner_count(counts, which);
    }
    0
}
