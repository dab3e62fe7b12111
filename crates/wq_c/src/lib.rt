//! The calls of a queue for a caller in C. Two tell the size and the alignment of a seat. `wq_c_init` takes room for a seat, leaves
//! one there, and answers nothing. Each other call takes the memory of a seat, `wq_c_hand_out` that of two, leaves a seat in each,
//! and answers a word: a code in the low 32 bits and, above them, a number where the answer has one; that of a count is the count.
//! What a call takes is its own until it returns. `pure` has the call that wants no seat. `checks/walks.py` writes this file.
//!
//! # Safety
//! A call in C owes what the export's `requires*` says: that a seat, or room for one, lies at the address, and that nobody else
//! reads or writes there until the call returns. `include/wq.h` says how a program sees to that.
#![tactic(auto)]

ghost use Rattle.std.specs.Borrow.{full_share, sem};
ghost use Rattle.std.specs.Ptr.{lies_at, room_at};
ghost use base.Fml.{fex, fsep};
ghost use Rattle.wq_seats.specs.Words.{SaidHandOut, SaidBuild, SaidRelease, SaidQueue, SaidCheck, SaidFlush, SaidCheckFlush, SaidStop};
ghost use Rattle.wq_seats.specs.Words.{SaidSetSpins, SaidNumber, SaidTake, SaidClose, SaidDrain, SaidResume, SaidNext, SaidWaiting};
ghost use Rattle.wq_seats.specs.Words.{SaidBegin, SaidEnd, SaidRest, SaidChain, SaidDone, SaidCount};
ghost use Rattle.wq_seats.specs.declared.seat.Seat.{Seat as Sitting};
ghost use Rattle.wq_seats.specs.declared.seat.Seat.TheVariants.{Vacant};
ghost use Rattle.wq_seats.specs.contracts.seat.Seat.{the_row as seat_row};

pub mod pure;

use std::alloc::Global;
use wq_seats::Seat;

/// How many bytes a seat takes.
#[unsafe(no_mangle)]
pub extern "C" fn wq_c_seat_size() -> usize {
    std::mem::size_of::<Seat>()
}

/// How many bytes the address of a seat is a multiple of.
#[unsafe(no_mangle)]
pub extern "C" fn wq_c_seat_align() -> usize {
    std::mem::align_of::<Seat>()
}

/// Makes a vacant seat in this room.
#[unsafe(no_mangle)]
pub unsafe extern "C" fn wq_c_init(at: *mut u8)
    requires* { sem 𝓛 (room_at seat_row at) }
    ensures* { sem 𝓛 (lies_at seat_row full_share at Vacant) }
{
    (at as *mut Seat).write(wq_seats::vacant());
}

/// Hands out a sender of the owner's queue, which takes the other seat.
#[unsafe(no_mangle)]
pub unsafe extern "C" fn wq_c_hand_out(at: *mut u8, to: *mut u8) -> u64
    ghost old: { Sitting × Sitting }
    requires* at { sem 𝓛 (lies_at seat_row full_share at old.0) }
    requires* to { sem 𝓛 (lies_at seat_row full_share to old.1) }
    ensures* { sem 𝓛 (fex Sitting (λ new. fex Sitting (λ other. fex (SaidHandOut result old.0 old.1 new other)
        (λ _. fsep (lies_at seat_row full_share at new) (lies_at seat_row full_share to other))))) }
{
    wq_seats::word::hand_out_word(&mut *(at as *mut Seat), &mut *(to as *mut Seat))
}

/// Builds a queue of this size, whose owner takes the seat.
#[unsafe(no_mangle)]
pub unsafe extern "C" fn wq_c_build(
    at: *mut u8,
    alloc: Global,
    items: u32,
    barriers: u32,
    senders: u32,
) -> u64
    ghost old: { Sitting }
    requires* { sem 𝓛 (lies_at seat_row full_share at old) }
    ensures* { sem 𝓛 (fex Sitting (λ new. fex (SaidBuild items barriers senders result old new) (λ _. lies_at seat_row full_share at new))) }
{
    wq_seats::word::build_word(&mut *(at as *mut Seat), alloc, items, barriers, senders)
}

/// Gives up a seat, which is vacant then.
#[unsafe(no_mangle)]
pub unsafe extern "C" fn wq_c_release(at: *mut u8) -> u64
    ghost old: { Sitting }
    requires* { sem 𝓛 (lies_at seat_row full_share at old) }
    ensures* { sem 𝓛 (fex Sitting (λ new. fex (SaidRelease result old new) (λ _. lies_at seat_row full_share at new))) }
{
    wq_seats::word::release_word(&mut *(at as *mut Seat))
}

/// Queues an item, with at most so many tries.
#[unsafe(no_mangle)]
pub unsafe extern "C" fn wq_c_queue(at: *mut u8, item: u32, tries: u32) -> u64
    ghost old: { Sitting }
    requires* { sem 𝓛 (lies_at seat_row full_share at old) }
    ensures* { sem 𝓛 (fex Sitting (λ new. fex (SaidQueue item tries result old new) (λ _. lies_at seat_row full_share at new))) }
{
    wq_seats::word::queue_word(&mut *(at as *mut Seat), item, tries)
}

/// The item's PENDING bit.
#[unsafe(no_mangle)]
pub unsafe extern "C" fn wq_c_is_pending(at: *mut u8, item: u32) -> u64
    ghost old: { Sitting }
    requires* { sem 𝓛 (lies_at seat_row full_share at old) }
    ensures* { sem 𝓛 (fex Sitting (λ new. fex (SaidCheck item result old new) (λ _. lies_at seat_row full_share at new))) }
{
    wq_seats::word::is_pending_word(&mut *(at as *mut Seat), item)
}

/// Queues a barrier, with at most so many tries.
#[unsafe(no_mangle)]
pub unsafe extern "C" fn wq_c_flush_begin(at: *mut u8, barrier: u32, tries: u32) -> u64
    ghost old: { Sitting }
    requires* { sem 𝓛 (lies_at seat_row full_share at old) }
    ensures* { sem 𝓛 (fex Sitting (λ new. fex (SaidFlush barrier tries result old new) (λ _. lies_at seat_row full_share at new))) }
{
    wq_seats::word::flush_begin_word(&mut *(at as *mut Seat), barrier, tries)
}

/// Whether the barrier's PENDING bit is clear.
#[unsafe(no_mangle)]
pub unsafe extern "C" fn wq_c_flush_done(at: *mut u8, barrier: u32) -> u64
    ghost old: { Sitting }
    requires* { sem 𝓛 (lies_at seat_row full_share at old) }
    ensures* { sem 𝓛 (fex Sitting (λ new. fex (SaidCheckFlush barrier result old new) (λ _. lies_at seat_row full_share at new))) }
{
    wq_seats::word::flush_done_word(&mut *(at as *mut Seat), barrier)
}

/// Queues the stop item, with at most so many tries.
#[unsafe(no_mangle)]
pub unsafe extern "C" fn wq_c_request_stop(at: *mut u8, tries: u32) -> u64
    ghost old: { Sitting }
    requires* { sem 𝓛 (lies_at seat_row full_share at old) }
    ensures* { sem 𝓛 (fex Sitting (λ new. fex (SaidStop tries result old new) (λ _. lies_at seat_row full_share at new))) }
{
    wq_seats::word::request_stop_word(&mut *(at as *mut Seat), tries)
}

/// Sets how long the sender gives way after a lost exchange.
#[unsafe(no_mangle)]
pub unsafe extern "C" fn wq_c_set_spins(at: *mut u8, count: u32) -> u64
    ghost old: { Sitting }
    requires* { sem 𝓛 (lies_at seat_row full_share at old) }
    ensures* { sem 𝓛 (fex Sitting (λ new. fex (SaidSetSpins result old new) (λ _. lies_at seat_row full_share at new))) }
{
    wq_seats::word::set_spins_word(&mut *(at as *mut Seat), count)
}

/// The sender's number.
#[unsafe(no_mangle)]
pub unsafe extern "C" fn wq_c_number(at: *mut u8) -> u64
    ghost old: { Sitting }
    requires* { sem 𝓛 (lies_at seat_row full_share at old) }
    ensures* { sem 𝓛 (fex Sitting (λ new. fex (SaidNumber result old new) (λ _. lies_at seat_row full_share at new))) }
{
    wq_seats::word::number_word(&mut *(at as *mut Seat))
}

/// Takes all that stands on the list, and answers how many that is.
#[unsafe(no_mangle)]
pub unsafe extern "C" fn wq_c_take(at: *mut u8) -> u64
    ghost old: { Sitting }
    requires* { sem 𝓛 (lies_at seat_row full_share at old) }
    ensures* { sem 𝓛 (fex Sitting (λ new. fex (SaidTake result old new) (λ _. lies_at seat_row full_share at new))) }
{
    wq_seats::word::take_word(&mut *(at as *mut Seat))
}

/// Closes the queue, takes all that stands on the list, and answers how many that is.
#[unsafe(no_mangle)]
pub unsafe extern "C" fn wq_c_close(at: *mut u8) -> u64
    ghost old: { Sitting }
    requires* { sem 𝓛 (lies_at seat_row full_share at old) }
    ensures* { sem 𝓛 (fex Sitting (λ new. fex (SaidClose result old new) (λ _. lies_at seat_row full_share at new))) }
{
    wq_seats::word::close_word(&mut *(at as *mut Seat))
}

/// Begins a drain, takes all that stands on the list, and answers how many that is.
#[unsafe(no_mangle)]
pub unsafe extern "C" fn wq_c_drain(at: *mut u8) -> u64
    ghost old: { Sitting }
    requires* { sem 𝓛 (lies_at seat_row full_share at old) }
    ensures* { sem 𝓛 (fex Sitting (λ new. fex (SaidDrain result old new) (λ _. lies_at seat_row full_share at new))) }
{
    wq_seats::word::drain_word(&mut *(at as *mut Seat))
}

/// Ends a drain.
#[unsafe(no_mangle)]
pub unsafe extern "C" fn wq_c_resume(at: *mut u8) -> u64
    ghost old: { Sitting }
    requires* { sem 𝓛 (lies_at seat_row full_share at old) }
    ensures* { sem 𝓛 (fex Sitting (λ new. fex (SaidResume result old new) (λ _. lies_at seat_row full_share at new))) }
{
    wq_seats::word::resume_word(&mut *(at as *mut Seat))
}

/// The oldest number that was taken and has not begun.
#[unsafe(no_mangle)]
pub unsafe extern "C" fn wq_c_next(at: *mut u8) -> u64
    ghost old: { Sitting }
    requires* { sem 𝓛 (lies_at seat_row full_share at old) }
    ensures* { sem 𝓛 (fex Sitting (λ new. fex (SaidNext result old new) (λ _. lies_at seat_row full_share at new))) }
{
    wq_seats::word::next_word(&mut *(at as *mut Seat))
}

/// How many numbers were taken and have not begun.
#[unsafe(no_mangle)]
pub unsafe extern "C" fn wq_c_waiting(at: *mut u8) -> u64
    ghost old: { Sitting }
    requires* { sem 𝓛 (lies_at seat_row full_share at old) }
    ensures* { sem 𝓛 (fex Sitting (λ new. fex (SaidWaiting result old new) (λ _. lies_at seat_row full_share at new))) }
{
    wq_seats::word::waiting_word(&mut *(at as *mut Seat))
}

/// Begins the oldest number that was taken, and answers it.
#[unsafe(no_mangle)]
pub unsafe extern "C" fn wq_c_begin(at: *mut u8) -> u64
    ghost old: { Sitting }
    requires* { sem 𝓛 (lies_at seat_row full_share at old) }
    ensures* { sem 𝓛 (fex Sitting (λ new. fex (SaidBegin result old new) (λ _. lies_at seat_row full_share at new))) }
{
    wq_seats::word::begin_word(&mut *(at as *mut Seat))
}

/// Ends the execution that runs.
#[unsafe(no_mangle)]
pub unsafe extern "C" fn wq_c_end(at: *mut u8) -> u64
    ghost old: { Sitting }
    requires* { sem 𝓛 (lies_at seat_row full_share at old) }
    ensures* { sem 𝓛 (fex Sitting (λ new. fex (SaidEnd result old new) (λ _. lies_at seat_row full_share at new))) }
{
    wq_seats::word::end_word(&mut *(at as *mut Seat))
}

/// Says once that the queue rests.
#[unsafe(no_mangle)]
pub unsafe extern "C" fn wq_c_rest(at: *mut u8) -> u64
    ghost old: { Sitting }
    requires* { sem 𝓛 (lies_at seat_row full_share at old) }
    ensures* { sem 𝓛 (fex Sitting (λ new. fex (SaidRest result old new) (λ _. lies_at seat_row full_share at new))) }
{
    wq_seats::word::rest_word(&mut *(at as *mut Seat))
}

/// Queues an item from the execution that runs, while the queue is closed or drains.
#[unsafe(no_mangle)]
pub unsafe extern "C" fn wq_c_chain(at: *mut u8, item: u32) -> u64
    ghost old: { Sitting }
    requires* { sem 𝓛 (lies_at seat_row full_share at old) }
    ensures* { sem 𝓛 (fex Sitting (λ new. fex (SaidChain item result old new) (λ _. lies_at seat_row full_share at new))) }
{
    wq_seats::word::chain_word(&mut *(at as *mut Seat), item)
}

/// Whether the queue is closed and has run to its end.
#[unsafe(no_mangle)]
pub unsafe extern "C" fn wq_c_is_done(at: *mut u8) -> u64
    ghost old: { Sitting }
    requires* { sem 𝓛 (lies_at seat_row full_share at old) }
    ensures* { sem 𝓛 (fex Sitting (λ new. fex (SaidDone result old new) (λ _. lies_at seat_row full_share at new))) }
{
    wq_seats::word::is_done_word(&mut *(at as *mut Seat))
}

/// One of the seat's counts, which is the whole word.
#[unsafe(no_mangle)]
pub unsafe extern "C" fn wq_c_count(at: *mut u8, which: u32) -> u64
    ghost old: { Sitting }
    requires* { sem 𝓛 (lies_at seat_row full_share at old) }
    ensures* { sem 𝓛 (fex Sitting (λ new. fex (SaidCount which result old new) (λ _. lies_at seat_row full_share at new))) }
{
    wq_seats::word::count_word(&mut *(at as *mut Seat), which)
}
