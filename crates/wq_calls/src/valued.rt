//! The queueings of items with their values, by whichever part of the chair is the sender's.
ghost use Rattle.std.specs.Prelude.{◌≡◌, ◌≢◌, ◌<◌, Some};
ghost use Rattle.wq_words.specs.declared.answer.Answer.TheVariants.{Contended};
ghost use Rattle.wq_words.specs.declared.answer.Posted.TheVariants as tried;
ghost use Rattle.wq_core.specs.Words.{closed_word, draining_word};
ghost use Rattle.wq_table.specs.Chair.{HasSeen};
ghost use Rattle.wq_table.specs.SlotChairs.{part_in, HasValue, Exchanges};
ghost use Rattle.wq_table.specs.Beside.{Learns, LearnsOrStays};
ghost use Rattle.wq_calls.specs.Answers.{Answers, IsContended};
ghost use Rattle.wq_calls.specs.Sits.{sender_view, sending_in, Sends};
ghost use Rattle.wq_calls.specs.Tries.{IsHeldAfter, Settles};
ghost use Rattle.wq_calls.specs.KnownWith.{answer_of, BringsOrReturns};
ghost use Rattle.wq_calls.specs.Valued.{sender_with, IsFilledAfter, SettlesValue};

use crate::sent::{Sent, find_closed, give_up, hold_number, try_tries, try_waiting, turn_back};
use crate::value_answer::ValueAnswer;
use std::sync::Wait;
use wq_table::{Chair, WhichPart};
use wq_words::Posted;

// Empties the slot in front of the hand, in which this value lies.
pub(crate) fn take_value<V>(chair: &mut Chair<V>, number: u32) -> V
    requires filled { (v : V) × HasValue number (Some v) chair.old.hand }
    ensures exchanged { Exchanges number None (Some result) chair.old chair.new }
{
    let Some(value) = chair.exchange(number, None) else {
        unreachable!()
    };
    value
}

// What a queueing answers whose tries to push came to this. Where they did not push the item, it is given back, and its value
// comes back.
fn settle_value<V, P: WhichPart>(
    chair: &mut Chair<V>,
    sent: &mut Sent,
    item: u32,
    posted: Posted,
) -> ValueAnswer<V>
    requires sends { Sends (sending_in P.at chair.old sent.old) }
    requires item { item < sent.old.layout.items }
    requires held { IsHeldAfter posted item (sender_view (sending_in P.at chair.old sent.old)) }
    requires sees_closed { posted ≡ tried.Closed → HasSeen closed_word (part_in P.at chair.old).stage }
    requires sees { posted ≡ tried.Draining → HasSeen draining_word (part_in P.at chair.old).stage }
    requires slots { 0 < chair.old.queue.slots }
    requires filled { IsFilledAfter posted item chair.old }
    ensures sends { Sends (sending_in P.at chair.new sent.new) }
    ensures learns { LearnsOrStays P.at chair.old chair.new }
    ensures settles { Settles item posted (answer_of result) (sender_view (sending_in P.at chair.old sent.old))
        (sender_view (sending_in P.at chair.new sent.new)) }
    ensures value { SettlesValue posted result chair.old chair.new }
{
    match posted {
        Posted::Queued { first, wakes } => ValueAnswer::Queued { first, wakes },
        Posted::Closed => {
            let value = take_value::<V>(chair, item);
            find_closed::<V, P>(chair, sent, item);
            ValueAnswer::Closed(value)
        }
        Posted::Draining => {
            let value = take_value::<V>(chair, item);
            turn_back::<V, P>(chair, sent, item);
            ValueAnswer::Draining(value)
        }
        Posted::Contended => {
            let value = take_value::<V>(chair, item);
            give_up::<V, P>(chair, sent, item);
            ValueAnswer::Contended(value)
        }
    }
}

/// Queues an item with a value, with at most so many tries.
pub fn queue_value<V: Drop, P: WhichPart>(
    chair: &mut Chair<V>,
    sent: &mut Sent,
    item: u32,
    value: V,
    tries: u32,
) -> ValueAnswer<V>
    requires sends { Sends (sending_in P.at chair.old sent.old) }
    requires item { item < sent.old.layout.items }
    requires slots { 0 < chair.old.queue.slots }
    ensures sends { Sends (sending_in P.at chair.new sent.new) }
    ensures learns { Learns P.at chair.old chair.new }
    ensures answer { Answers item tries (answer_of result) (sender_view (sending_in P.at chair.old sent.old))
        (sender_view (sending_in P.at chair.new sent.new)) }
    ensures contended { answer_of result ≡ Contended → IsContended sent.old.number item tries (part_in P.at chair.new).seen }
    ensures value { BringsOrReturns item value result (sender_with P.at chair.new sent.new) }
    ensures hand { chair.new.hand ≡ chair.old.hand }
{
    if !hold_number::<V, P>(chair, sent, item) {
        return ValueAnswer::Pending(value);
    }
    chair.exchange(item, Some(value));
    let posted = try_tries::<V, P>(chair, sent, item, tries);
    settle_value::<V, P>(chair, sent, item, posted)
}

/// Queues an item with a value, and tries until no other seat changes the list meanwhile. The item is held between the tries.
pub fn queue_value_wait<R: Wait, V: Drop, P: WhichPart>(
    rt: &R,
    chair: &mut Chair<V>,
    sent: &mut Sent,
    item: u32,
    value: V,
) -> ValueAnswer<V>
    requires sends { Sends (sending_in P.at chair.old sent.old) }
    requires item { item < sent.old.layout.items }
    requires slots { 0 < chair.old.queue.slots }
    ensures sends { Sends (sending_in P.at chair.new sent.new) }
    ensures learns { Learns P.at chair.old chair.new }
    ensures answer { Answers item 0 (answer_of result) (sender_view (sending_in P.at chair.old sent.old))
        (sender_view (sending_in P.at chair.new sent.new)) }
    ensures settled { answer_of result ≢ Contended }
    ensures value { BringsOrReturns item value result (sender_with P.at chair.new sent.new) }
    ensures hand { chair.new.hand ≡ chair.old.hand }
{
    if !hold_number::<V, P>(chair, sent, item) {
        return ValueAnswer::Pending(value);
    }
    chair.exchange(item, Some(value));
    let posted = try_waiting::<R, V, P>(rt, chair, sent, item);
    settle_value::<V, P>(chair, sent, item, posted)
}
