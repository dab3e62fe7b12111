//! Steps of an owner and a sender of one queue, in one seat.
ghost use Rattle.std.specs.Prelude.{◌≡◌, ℕ, ◌<◌, ◌≤◌, Some, None, false, [], ◌∷◌, IsTrue, MatchOption, length, drop, slice_index};
ghost use Rattle.wq_words.specs.declared.event.Event.TheVariants.{End};
ghost use Rattle.wq_words.specs.History.{running, shut, IsRunning, IsClosed, IsShut};
ghost use Rattle.wq_words.specs.Legal.{IsLegal};
ghost use Rattle.wq_live.specs.Known.{Sees};
ghost use Rattle.wq_live.specs.Pairs.{pair_owner, pair_sender};
ghost use Rattle.wq_live.specs.Answers.{IsContended};
ghost use Rattle.wq_live.specs.Batch.{next_of};
ghost use Rattle.wq_live.specs.Rest.{HasRested, MayNotRest};
ghost use Rattle.wq_worker.specs.Seats.{taking, NothingWaits};
ghost use Rattle.wq_worker.specs.Resting.{HasNoneLeft, rest_events};
ghost use Rattle.wq_worker.specs.Pair.{settled, StaysOr, Both, BothFindNothing, BothBegin, BothQueue, QueuesRest};

use wq_calls::Paired;
use wq_live::{Answer, Pair};

/// Whether the queue takes no push now: it is closed, or it drains.
pub fn is_shut<P: Paired>(pair: &P) -> bool
    ensures shut { result ≡ shut (P.known pair.now).seen }
{
    pair.is_closed() || pair.is_draining()
}

/// Takes where nothing taken waits and the queue is open.
pub(crate) fn take_where_empty<P: Paired>(pair: &mut P)
    requires legal { IsLegal (P.known pair.old).layout (P.known pair.old).seen }
    ensures seen { Sees (taking (P.known pair.old).seen) 0 (pair_owner (P.known pair.old)) (pair_owner (P.known pair.new)) }
    ensures others { Sees [] 0 (pair_sender (P.known pair.old)) (pair_sender (P.known pair.new)) }
    ensures empty { next_of (P.known pair.new).seen ≡ None → NothingWaits (P.known pair.new).seen }
    ensures kept { StaysOr P.keeps pair.old pair.new }
{
    if pair.next().is_none() {
        if !is_shut::<P>(pair) {
            pair.take();
        }
    }
}

fn is_settled(answer: &Answer) -> bool
    ensures { result ≡ settled answer.now }
{
    match answer {
        Answer::Contended => false,
        _ => true,
    }
}

/// Begins the oldest number, after a take where nothing taken waits.
pub(crate) fn begin_next(pair: &mut Pair) -> Option<u32>
    requires legal { IsLegal pair.old.layout pair.old.seen }
    requires idle { ¬ IsRunning pair.old.seen }
    ensures { MatchOption result (BothFindNothing pair.old pair.new) (λ k. BothBegin k pair.old pair.new) }
{
    take_where_empty::<Pair>(pair);
    if pair.next().is_none() {
        return None;
    }
    Some(pair.begin())
}

/// Makes the take that a begin would make, and answers the oldest number that was taken and has not begun.
pub fn take_next<P: Paired>(pair: &mut P) -> Option<u32>
    requires legal { IsLegal (P.known pair.old).layout (P.known pair.old).seen }
    ensures both { Both (taking (P.known pair.old).seen) 0 (P.known pair.old) (P.known pair.new) }
    ensures next { result ≡ next_of (P.known pair.new).seen }
    ensures nothing { result ≡ None → NothingWaits (P.known pair.new).seen }
    ensures kept { StaysOr P.keeps pair.old pair.new }
{
    take_where_empty::<P>(pair);
    pair.next()
}

/// Rests, where nothing is left. False where something was pushed since the last take, drain or resume, or where the queue rests
/// already.
pub fn rest<P: Paired>(pair: &mut P) -> bool
    requires open { ¬ IsShut (P.known pair.old).seen }
    requires none { HasNoneLeft (P.known pair.old).seen }
    ensures both { Both (rest_events result) 0 (P.known pair.old) (P.known pair.new) }
    ensures open { ¬ IsShut (P.known pair.new).seen }
    ensures unclosed { ¬ IsClosed (P.known pair.new).seen }
    ensures none { HasNoneLeft (P.known pair.new).seen }
    ensures rested { IsTrue result → HasRested (P.known pair.new).seen }
    ensures refused { result ≡ false → MayNotRest (P.known pair.new).seen }
    ensures kept { P.keeps pair.old pair.new }
{
    pair.rest()
}

/// Ends what runs.
pub fn end_running<P: Paired>(pair: &mut P)
    requires runs { IsRunning (P.known pair.old).seen }
    ensures both { (k : ℕ) → running (P.known pair.old).seen ≡ Some k → Both (End k ∷ []) 0 (P.known pair.old) (P.known pair.new) }
    ensures kept { P.keeps pair.old pair.new }
{
    pair.end();
}

/// Queues one number, chained where the queue is shut. False where that was contended.
fn queue_one(pair: &mut Pair, item: u32, tries: u32) -> bool
    requires runs { IsRunning pair.old.seen }
    requires tries { 0 < tries }
    ensures queued { BothQueue item tries result pair.old pair.new }
    ensures contended { result ≡ false → IsContended pair.old.number item tries pair.new.seen }
{
    if item >= pair.layout().items {
        return true;
    }
    if is_shut::<Pair>(pair) {
        let _ = pair.chain(item);
        return true;
    }
    let answer = pair.queue_tries(item, tries);
    is_settled(&answer)
}

/// Queues the numbers from a place on. Answers the place that it came to: the end, or that of a number whose queueing was
/// contended.
pub(crate) fn queue_rest(pair: &mut Pair, follow: &[u32], from: usize, tries: u32) -> usize
    requires legal { IsLegal pair.old.layout pair.old.seen }
    requires runs { IsRunning pair.old.seen }
    requires tries { 0 < tries }
    requires from { from ≤ length follow.now }
    ensures within { result ≤ length follow.now }
    ensures queued { QueuesRest tries (drop from follow.now) (drop result follow.now) pair.old pair.new }
    ensures contended { result < length follow.now → IsContended pair.old.number (slice_index follow.now result) tries pair.new.seen }
{
    let mut at = from;
    while at < follow.len() {
        if !queue_one(pair, follow[at], tries) {
            return at;
        }
        at += 1;
    }
    at
}
