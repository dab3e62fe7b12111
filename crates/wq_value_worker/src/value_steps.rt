//! The queueings of the pairs that an execution asked for.
ghost use Rattle.std.specs.Prelude.{◌≡◌, ◌<◌};
ghost use Rattle.wq_words.specs.Legal.{IsLegal};
ghost use Rattle.wq_words.specs.History.{IsRunning};
ghost use Rattle.wq_value_worker.specs.Dealt.{dealt_of, BothDeal, BothDealOut};

use crate::value_follow::ValueFollow;
use crate::value_work::ValueWork;
use wq_values::{ValueAnswer, ValuePair};
use wq_worker::is_shut;

/// What became of a pair that was to be queued.
#[derive(Drop)]
pub(crate) enum Dealt<V> {
    /// Its item was queued with its value.
    Queued,
    /// Its item was pending, or its number is none: the value is to be given back.
    Returned(V),
    /// Other seats changed the list at each try: it is to be queued once more.
    Contended(V),
}

impl<V: Drop> Dealt<V> {
    // Closed and Draining are not answered here, since the worker alone closes and drains its queue.
    fn of(answer: ValueAnswer<V>) -> Dealt<V>
        ensures { result ≡ dealt_of answer }
    {
        match answer {
            ValueAnswer::Queued { .. } => Dealt::Queued,
            ValueAnswer::Contended(same) => Dealt::Contended(same),
            ValueAnswer::Pending(same) => Dealt::Returned(same),
            ValueAnswer::Closed(same) => Dealt::Returned(same),
            ValueAnswer::Draining(same) => Dealt::Returned(same),
        }
    }
}

// Queues one pair, chained where the queue is shut.
fn queue_pair<V: Drop>(seats: &mut ValuePair<V>, item: u32, value: V, tries: u32) -> Dealt<V>
    requires runs { IsRunning seats.old.known.seen }
    requires tries { 0 < tries }
    ensures deals { BothDeal item value tries result seats.old seats.new }
{
    if item >= seats.layout().items {
        return Dealt::Returned(value);
    }
    if is_shut::<ValuePair<V>>(seats) {
        return Dealt::of(seats.chain_value(item, value));
    }
    Dealt::of(seats.queue_value(item, value, tries))
}

/// Queues the pairs in their order, and gives back to the work those that were not queued. False where one was contended: it is
/// the first of those that are left then.
pub(crate) fn queue_pairs<V: Drop, W: ValueWork<V>>(
    seats: &mut ValuePair<V>,
    work: &mut W,
    left: &mut ValueFollow<V>,
    tries: u32,
) -> bool
    requires legal { IsLegal seats.old.known.layout seats.old.known.seen }
    requires runs { IsRunning seats.old.known.seen }
    requires tries { 0 < tries }
    ensures settles { BothDealOut W.log W.given W.takes tries result left.old.pairs left.new.pairs work.old work.new seats.old seats.new }
{
    while let Some((item, value)) = left.next() {
        match queue_pair::<V>(seats, item, value, tries) {
            Dealt::Queued => {}
            Dealt::Returned(same) => work.returned(item, same),
            Dealt::Contended(same) => {
                left.put_in_front(item, same);
                return false;
            }
        }
    }
    true
}
