//! What a sender keeps beside its chair, and its queueings, by whichever part of the chair is the sender's.
ghost use Rattle.std.specs.Prelude.{◌≡◌, ◌≢◌, ◌<◌, ◌≤◌, [], ◌∷◌, None};
ghost use Rattle.wq_words.specs.declared.event.Event.TheVariants.{Back};
ghost use Rattle.wq_words.specs.declared.event.Why.TheVariants as why;
ghost use Rattle.wq_words.specs.History.{Holds};
ghost use Rattle.wq_words.specs.Numbers.{number_count};
ghost use Rattle.wq_words.specs.declared.answer.Answer.TheVariants.{Contended};
ghost use Rattle.wq_words.specs.declared.answer.Posted.TheVariants as tried;
ghost use Rattle.wq_core.specs.Words.{closed_word, draining_word};
ghost use Rattle.wq_table.specs.Chair.{HasSeen};
ghost use Rattle.wq_table.specs.SlotChairs.{part_in};
ghost use Rattle.wq_table.specs.Beside.{Learns, LearnsOrStays};
ghost use Rattle.wq_calls.specs.Known.{Sees};
ghost use Rattle.wq_calls.specs.Counts.{sender_counts};
ghost use Rattle.wq_calls.specs.Answers.{TestsAndSets, Answers, IsContended};
ghost use Rattle.wq_calls.specs.Sits.{sender_view, sending_in, Sends};
ghost use Rattle.wq_calls.specs.Tries.{Tries, IsHeldAfter, Settles};
ghost use Rattle.wq_calls.specs.Hands.{HoldsSlot, IsToBring, IsEmptied, IsEmptiedAfter, LeavesHand, PostsSlot, SettlesSlot, QueuesSlot};

use crate::counts::SenderCounts;
use crate::spins::{Pauses, Spins};
use crate::trying::try_push;
use std::sync::Wait;
use wq_table::{Chair, WhichPart};
use wq_words::{Answer, Layout, Posted};

/// What a sender keeps of what it has seen, and how long it gives way after a lost exchange.
#[derive(Drop)]
pub struct Sent {
    /// The size of its queue.
    pub layout: Layout,
    /// Its number.
    pub number: u32,
    /// What it has counted of its own events.
    pub counts: SenderCounts,
    /// How long it gives way.
    pub spins: Spins,
}

impl Sent {
    /// Of a sender that has seen nothing.
    pub fn new(layout: Layout, number: u32) -> Sent
        ensures { (result.layout ≡ layout) × (result.number ≡ number) × (result.counts ≡ sender_counts number []) }
    {
        Sent {
            layout,
            number,
            counts: SenderCounts {
                queued: 0,
                pending: 0,
                closed: 0,
                draining: 0,
                contended: 0,
            },
            spins: Spins::default(),
        }
    }
}

/// Sets the PENDING bit of a number, whose slot comes to hand with nothing in it.
pub fn hold_number<V, P: WhichPart>(chair: &mut Chair<V>, sent: &mut Sent, number: u32) -> bool
    requires sends { Sends (sending_in P.at chair.old sent.old) }
    requires number { number < number_count sent.old.layout }
    ensures sends { Sends (sending_in P.at chair.new sent.new) }
    ensures learns { Learns P.at chair.old chair.new }
    ensures seen { TestsAndSets number result (sender_view (sending_in P.at chair.old sent.old))
        (sender_view (sending_in P.at chair.new sent.new)) }
    ensures slots { HoldsSlot number result chair.old chair.new }
{
    if chair.hold::<P>(number) == 0 {
        return true;
    }
    sent.counts.pending = sent.counts.pending.saturating_add(1);
    false
}

// One try to push a number that this sender holds: look, link, push. A sender that finds the queue shut holds it still.
pub(crate) fn attempt<V, P: WhichPart>(chair: &mut Chair<V>, sent: &mut Sent, number: u32) -> Posted
    requires sends { Sends (sending_in P.at chair.old sent.old) }
    requires number { number < number_count sent.old.layout }
    requires held { Holds (part_in P.at chair.old).seen sent.old.number number }
    requires slot { IsToBring sent.old.layout.items number chair.old }
    ensures sends { Sends (sending_in P.at chair.new sent.new) }
    ensures learns { Learns P.at chair.old chair.new }
    ensures sees_closed { result ≡ tried.Closed → HasSeen closed_word (part_in P.at chair.new).stage }
    ensures sees { result ≡ tried.Draining → HasSeen draining_word (part_in P.at chair.new).stage }
    ensures posts { Tries number 1 result (sender_view (sending_in P.at chair.old sent.old))
        (sender_view (sending_in P.at chair.new sent.new)) }
    ensures slots { PostsSlot P.at number result chair.old chair.new }
{
    let posted = try_push::<V, P>(chair, number);
    match &posted {
        Posted::Queued { .. } => sent.counts.queued = sent.counts.queued.saturating_add(1),
        Posted::Closed => {}
        Posted::Draining => {}
        Posted::Contended => {}
    }
    posted
}

// Gives up a number that this sender holds, after as many tries as were asked for.
pub(crate) fn give_up<V, P: WhichPart>(chair: &mut Chair<V>, sent: &mut Sent, number: u32)
    requires sends { Sends (sending_in P.at chair.old sent.old) }
    requires number { number < number_count sent.old.layout }
    requires held { Holds (part_in P.at chair.old).seen sent.old.number number }
    requires slot { IsEmptied number chair.old }
    ensures sends { Sends (sending_in P.at chair.new sent.new) }
    ensures learns { Learns P.at chair.old chair.new }
    ensures gives { Sees (Back sent.old.number number why.Contended ∷ []) 0 (sender_view (sending_in P.at chair.old sent.old))
        (sender_view (sending_in P.at chair.new sent.new)) }
    ensures slots { LeavesHand chair.old chair.new }
{
    chair.back_contended::<P>(number);
    sent.counts.contended = sent.counts.contended.saturating_add(1);
}

/// Gives back a number that this sender holds, since it saw the queue closed.
pub fn find_closed<V, P: WhichPart>(chair: &mut Chair<V>, sent: &mut Sent, number: u32)
    requires sends { Sends (sending_in P.at chair.old sent.old) }
    requires number { number < number_count sent.old.layout }
    requires held { Holds (part_in P.at chair.old).seen sent.old.number number }
    requires sees { HasSeen closed_word (part_in P.at chair.old).stage }
    requires slot { IsEmptied number chair.old }
    ensures sends { Sends (sending_in P.at chair.new sent.new) }
    ensures learns { Learns P.at chair.old chair.new }
    ensures gives { Sees (Back sent.old.number number why.Closed ∷ []) 0 (sender_view (sending_in P.at chair.old sent.old))
        (sender_view (sending_in P.at chair.new sent.new)) }
    ensures slots { LeavesHand chair.old chair.new }
{
    chair.back_closed::<P>(number);
    sent.counts.closed = sent.counts.closed.saturating_add(1);
}

// Gives back a number that this sender holds, since it saw the queue draining.
pub(crate) fn turn_back<V, P: WhichPart>(chair: &mut Chair<V>, sent: &mut Sent, number: u32)
    requires sends { Sends (sending_in P.at chair.old sent.old) }
    requires number { number < number_count sent.old.layout }
    requires held { Holds (part_in P.at chair.old).seen sent.old.number number }
    requires sees { HasSeen draining_word (part_in P.at chair.old).stage }
    requires slot { IsEmptied number chair.old }
    ensures sends { Sends (sending_in P.at chair.new sent.new) }
    ensures learns { Learns P.at chair.old chair.new }
    ensures gives { Sees (Back sent.old.number number why.Draining ∷ []) 0 (sender_view (sending_in P.at chair.old sent.old))
        (sender_view (sending_in P.at chair.new sent.new)) }
    ensures slots { LeavesHand chair.old chair.new }
{
    chair.back_draining::<P>(number);
    sent.counts.draining = sent.counts.draining.saturating_add(1);
}

/// Tries to push a number that this sender holds, so many times, and at least once. It spins between the tries.
pub fn try_tries<V, P: WhichPart>(
    chair: &mut Chair<V>,
    sent: &mut Sent,
    number: u32,
    tries: u32,
) -> Posted
    requires sends { Sends (sending_in P.at chair.old sent.old) }
    requires number { number < number_count sent.old.layout }
    requires held { Holds (part_in P.at chair.old).seen sent.old.number number }
    requires slot { IsToBring sent.old.layout.items number chair.old }
    ensures sends { Sends (sending_in P.at chair.new sent.new) }
    ensures learns { Learns P.at chair.old chair.new }
    ensures sees_closed { result ≡ tried.Closed → HasSeen closed_word (part_in P.at chair.new).stage }
    ensures sees { result ≡ tried.Draining → HasSeen draining_word (part_in P.at chair.new).stage }
    ensures posts { Tries number tries result (sender_view (sending_in P.at chair.old sent.old))
        (sender_view (sending_in P.at chair.new sent.new)) }
    ensures slots { PostsSlot P.at number result chair.old chair.new }
{
    let mut pauses = Pauses::new(sent.spins);
    for _ in 1..tries {
        match attempt::<V, P>(chair, sent, number) {
            Posted::Contended => pauses.pass(),
            posted => return posted,
        }
    }
    attempt::<V, P>(chair, sent, number)
}

// Tries to push a number that this sender holds, until no other seat changes the list meanwhile.
pub(crate) fn try_waiting<R: Wait, V, P: WhichPart>(
    rt: &R,
    chair: &mut Chair<V>,
    sent: &mut Sent,
    number: u32,
) -> Posted
    requires sends { Sends (sending_in P.at chair.old sent.old) }
    requires number { number < number_count sent.old.layout }
    requires held { Holds (part_in P.at chair.old).seen sent.old.number number }
    requires slot { IsToBring sent.old.layout.items number chair.old }
    ensures sends { Sends (sending_in P.at chair.new sent.new) }
    ensures learns { Learns P.at chair.old chair.new }
    ensures sees_closed { result ≡ tried.Closed → HasSeen closed_word (part_in P.at chair.new).stage }
    ensures sees { result ≡ tried.Draining → HasSeen draining_word (part_in P.at chair.new).stage }
    ensures posts { Tries number 0 result (sender_view (sending_in P.at chair.old sent.old))
        (sender_view (sending_in P.at chair.new sent.new)) }
    ensures slots { PostsSlot P.at number result chair.old chair.new }
    ensures settled { result ≢ tried.Contended }
{
    let mut pauses = Pauses::new(sent.spins);
    for _ in rt.forever() {
        match attempt::<V, P>(chair, sent, number) {
            Posted::Contended => pauses.pass(),
            posted => return posted,
        }
    }
    unreachable!()
}

// What a queueing answers whose tries to push came to this. Where they did not push the number, its slot is empty, and it is
// given back.
pub(crate) fn settle<V, P: WhichPart>(
    chair: &mut Chair<V>,
    sent: &mut Sent,
    number: u32,
    posted: Posted,
) -> Answer
    requires sends { Sends (sending_in P.at chair.old sent.old) }
    requires number { number < number_count sent.old.layout }
    requires held { IsHeldAfter posted number (sender_view (sending_in P.at chair.old sent.old)) }
    requires sees_closed { posted ≡ tried.Closed → HasSeen closed_word (part_in P.at chair.old).stage }
    requires sees { posted ≡ tried.Draining → HasSeen draining_word (part_in P.at chair.old).stage }
    requires slot { IsEmptiedAfter posted number chair.old }
    ensures sends { Sends (sending_in P.at chair.new sent.new) }
    ensures learns { LearnsOrStays P.at chair.old chair.new }
    ensures settles { Settles number posted result (sender_view (sending_in P.at chair.old sent.old))
        (sender_view (sending_in P.at chair.new sent.new)) }
    ensures slots { SettlesSlot posted chair.old chair.new }
{
    match posted {
        Posted::Queued { first, wakes } => Answer::Queued { first, wakes },
        Posted::Closed => {
            find_closed::<V, P>(chair, sent, number);
            Answer::Closed
        }
        Posted::Draining => {
            turn_back::<V, P>(chair, sent, number);
            Answer::Draining
        }
        Posted::Contended => {
            give_up::<V, P>(chair, sent, number);
            Answer::Contended
        }
    }
}

/// Queues a number that brings nothing, with at most so many tries.
pub fn queue_number<V, P: WhichPart>(
    chair: &mut Chair<V>,
    sent: &mut Sent,
    number: u32,
    tries: u32,
) -> Answer
    requires sends { Sends (sending_in P.at chair.old sent.old) }
    requires number { number < number_count sent.old.layout }
    requires bare { 0 < chair.old.queue.slots → sent.old.layout.items ≤ number }
    ensures sends { Sends (sending_in P.at chair.new sent.new) }
    ensures learns { Learns P.at chair.old chair.new }
    ensures answer { Answers number tries result (sender_view (sending_in P.at chair.old sent.old))
        (sender_view (sending_in P.at chair.new sent.new)) }
    ensures contended { result ≡ Contended → IsContended sent.old.number number tries (part_in P.at chair.new).seen }
    ensures slots { QueuesSlot P.at number None result chair.old chair.new }
{
    if !hold_number::<V, P>(chair, sent, number) {
        return Answer::Pending;
    }
    let posted = try_tries::<V, P>(chair, sent, number, tries);
    settle::<V, P>(chair, sent, number, posted)
}

/// Queues a number that brings nothing, and tries until no other seat changes the list meanwhile. The number is held between
/// the tries.
pub fn queue_waiting<R: Wait, V, P: WhichPart>(
    rt: &R,
    chair: &mut Chair<V>,
    sent: &mut Sent,
    number: u32,
) -> Answer
    requires sends { Sends (sending_in P.at chair.old sent.old) }
    requires number { number < number_count sent.old.layout }
    requires bare { 0 < chair.old.queue.slots → sent.old.layout.items ≤ number }
    ensures sends { Sends (sending_in P.at chair.new sent.new) }
    ensures learns { Learns P.at chair.old chair.new }
    ensures answer { Answers number 0 result (sender_view (sending_in P.at chair.old sent.old))
        (sender_view (sending_in P.at chair.new sent.new)) }
    ensures settled { result ≢ Contended }
    ensures slots { QueuesSlot P.at number None result chair.old chair.new }
{
    if !hold_number::<V, P>(chair, sent, number) {
        return Answer::Pending;
    }
    let posted = try_waiting::<R, V, P>(rt, chair, sent, number);
    settle::<V, P>(chair, sent, number, posted)
}
