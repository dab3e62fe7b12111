//! The seats of a queue, and their atomic steps.
ghost use Rattle.std.specs.Prelude.{◌≡◌, ℕ, ◌+◌, ◌%◌, ◌^◌, ◌<◌, ◌==◌, [], ◌∷◌, ◌++◌, Some, None, length, bit_or, bit_and};
ghost use prog.Atomic.{either};
ghost use Rattle.wq_words.specs.Numbers.{number_count};
ghost use Rattle.wq_words.specs.Valued.{Carries};
ghost use Rattle.wq_words.specs.declared.event.Why.TheVariants.{Closed, Draining, Contended, Cancelled};
ghost use Rattle.wq_words.specs.History.{Holds, IsClosed, IsShut, IsDraining, IsRunning};
ghost use Rattle.wq_core.specs.Words.{word_count, closed_word, draining_word, TakesPushes, link_word};
ghost use Rattle.wq_core.specs.declared.step.Step.TheVariants.{Hold, Look, Link, Push, Back, Check, Take, Close, Drain, Resume, Walk, Begin, End, Chain, Turn, Rest};
ghost use Rattle.wq_table.specs.Plays.{Performs};
ghost use Rattle.wq_table.specs.Chair.{IsSender, HasSeen, HasLinked, HasNone, IsOwner, IsToWalk, IsToTurn, IsToBegin, HasWalked};
ghost use Rattle.wq_table.specs.SlotSteps.{GoesBy, in_front};
ghost use Rattle.wq_table.specs.SlotChairs.{part_in, ValueSteps, HasSlot, HasValue, Exchanges, TurnsHand, ValueMeet, ValueMeetAll, ValueJoined};

use super::table::{
    Ahead, BeginStep, Blank, CancelStep, ChainStep, CheckStep, CloseStep, DrainStep, EndStep,
    FindClosedStep, FindDrainingStep, GiveUpStep, HoldStep, Kind, LinkStep, LookStep, Makes, Off,
    PushStep, RestStep, ResumeStep, SeeAll, Stores, TakeStep, TurnStep, WalkStep, WhichPart,
};
use super::values::{MakesAsSaid, Nothing, Says, SharedWords, TableSeat, Words};
use std::marker::{Brand, Model};
use std::mem::replace;
use std::sync::Arc;
use wq_core::place::{HEAD, done_place, item_place, link_place, link_word};
use wq_words::{BUSY, Head, Layout};

/// A seat of a queue: a sender's or the owner's, or one that speaks for two of these and has a part for each. Each of its steps
/// is one operation on one word of the table, by one of its parts, and its other part has then seen all that has happened. Where
/// the items bring values the table has a slot for each number, and the chair has some of them in hand, each with what lies in it.
#[derive(Drop)]
pub struct Chair<V> {
    pub(crate) words: Arc<Words<V>>,
    // for a chair of its own again for the second part: one that is made then may want memory
    pub(crate) spare: Option<Arc<Words<V>>>,
    pub(crate) seat: TableSeat<V>,
    pub(crate) layout: Layout,
}

impl<V> Model for Chair<V> {
    ghost use Rattle.wq_table.specs.SlotChairs.{ValueStanding, value_standing, ValueSits};

    ghost Value = { ValueStanding V };

    ghost view = { value_standing };

    ghost invariant = { ValueSits };
}

// The seat speaks for all that the other spoke for, too, which comes in front, and the other speaks for nobody.
fn take_in<V>(table: &SharedWords<V>, seat: &mut TableSeat<V>, other: &mut TableSeat<V>)
    requires words { 0 < table.now.table_id.words }
    requires seat { seat.old.table_id ≡ table.now.table_id }
    requires other { other.old.table_id ≡ table.now.table_id }
    requires empty { other.old.me.1 ≡ [] }
    ensures queue { seat.new.table_id ≡ seat.old.table_id }
    ensures parts { seat.new.me ≡ (other.old.me.0 ++ seat.old.me.0, seat.old.me.1) }
{
    let blank: TableSeat<V> = table.split_seat::<Blank>(seat);
    let theirs = replace(other, blank);
    table.join_seat::<Ahead>(seat, theirs);
}

// One operation each on the word at a place. The kind says which step of the seat it is.
impl<V> Chair<V> {
    fn load<K: Kind, P: WhichPart>(&mut self, place: usize) -> u64
        requires place { place < word_count (number_count (part_in P.at self.old).layout) }
        requires performs { Performs (part_in P.at self.old) (K.step place 0 (part_in P.at self.old).layout) place (λ n. n) (λ n. n) }
        requires goes { GoesBy self.old.queue.slots (part_in P.at self.old) None (K.step place 0 (part_in P.at self.old).layout) self.old.hand }
        ensures { ValueSteps P.at None (K.step place 0 (part_in P.at self.old).layout) result self.old self.new }
    {
        self.words.shared.load::<Makes<K, P>>(&mut self.seat, place)
    }

    fn store<K: Kind, P: WhichPart>(&mut self, place: usize, new: u64)
        requires place { place < word_count (number_count (part_in P.at self.old).layout) }
        requires performs { Performs (part_in P.at self.old) (K.step place new (part_in P.at self.old).layout) place (λ n. new) (λ n. new) }
        requires goes { GoesBy self.old.queue.slots (part_in P.at self.old) None (K.step place new (part_in P.at self.old).layout) self.old.hand }
        ensures { ValueSteps P.at None (K.step place new (part_in P.at self.old).layout) new self.old self.new }
    {
        self.words
            .shared
            .store::<Stores<K, P>>(&mut self.seat, place, new);
    }

    fn swap<K: Kind, P: WhichPart>(&mut self, place: usize, new: u64) -> u64
        requires place { place < word_count (number_count (part_in P.at self.old).layout) }
        requires performs { Performs (part_in P.at self.old) (K.step place 0 (part_in P.at self.old).layout) place (λ n. new) (λ n. n) }
        requires goes { GoesBy self.old.queue.slots (part_in P.at self.old) None (K.step place 0 (part_in P.at self.old).layout) self.old.hand }
        ensures { ValueSteps P.at None (K.step place 0 (part_in P.at self.old).layout) result self.old self.new }
    {
        self.words
            .shared
            .swap::<Makes<K, P>>(&mut self.seat, place, new)
    }

    fn replace<K: Kind, P: WhichPart>(&mut self, place: usize, old: u64, new: u64) -> u64
        requires place { place < word_count (number_count (part_in P.at self.old).layout) }
        requires performs { Performs (part_in P.at self.old) (K.step place new (part_in P.at self.old).layout) place (λ n. either (n == old) new n) (λ n. n) }
        requires goes { GoesBy self.old.queue.slots (part_in P.at self.old) None (K.step place new (part_in P.at self.old).layout) self.old.hand }
        ensures { ValueSteps P.at None (K.step place new (part_in P.at self.old).layout) result self.old self.new }
    {
        self.words
            .shared
            .compare_exchange::<Makes<K, P>>(&mut self.seat, place, old, new)
    }

    fn or<K: Kind, P: WhichPart, G: Says<V>>(&mut self, place: usize, bits: u64) -> u64
        requires place { place < word_count (number_count (part_in P.at self.old).layout) }
        requires performs { Performs (part_in P.at self.old) (K.step place 0 (part_in P.at self.old).layout) place (λ n. bit_or n bits) (λ n. n) }
        requires goes { GoesBy self.old.queue.slots (part_in P.at self.old) G.said (K.step place 0 (part_in P.at self.old).layout) self.old.hand }
        ensures { ValueSteps P.at G.said (K.step place 0 (part_in P.at self.old).layout) result self.old self.new }
    {
        self.words
            .shared
            .fetch_or::<MakesAsSaid<K, P, G>>(&mut self.seat, place, bits)
    }

    fn and<K: Kind, P: WhichPart>(&mut self, place: usize, bits: u64) -> u64
        requires place { place < word_count (number_count (part_in P.at self.old).layout) }
        requires performs { Performs (part_in P.at self.old) (K.step place 0 (part_in P.at self.old).layout) place (λ n. bit_and n bits) (λ n. n) }
        requires goes { GoesBy self.old.queue.slots (part_in P.at self.old) None (K.step place 0 (part_in P.at self.old).layout) self.old.hand }
        ensures { ValueSteps P.at None (K.step place 0 (part_in P.at self.old).layout) result self.old self.new }
    {
        self.words
            .shared
            .fetch_and::<Makes<K, P>>(&mut self.seat, place, bits)
    }

    fn add<K: Kind, P: WhichPart>(&mut self, place: usize, more: u64) -> u64
        requires place { place < word_count (number_count (part_in P.at self.old).layout) }
        requires performs { Performs (part_in P.at self.old) (K.step place 0 (part_in P.at self.old).layout) place (λ n. (n + more) % 2 ^ 64) (λ n. n) }
        requires goes { GoesBy self.old.queue.slots (part_in P.at self.old) None (K.step place 0 (part_in P.at self.old).layout) self.old.hand }
        ensures { ValueSteps P.at None (K.step place 0 (part_in P.at self.old).layout) result self.old self.new }
    {
        self.words
            .shared
            .fetch_add::<Makes<K, P>>(&mut self.seat, place, more)
    }
}

impl<V> Chair<V> {
    /// A sender sets the PENDING bit of a number, and learns its item word as it was. Where it was clear the number's slot comes to
    /// hand, with nothing in it.
    pub fn hold<P: WhichPart>(&mut self, number: u32) -> u64
        requires sender { IsSender (part_in P.at self.old).stage }
        requires number { number < number_count (part_in P.at self.old).layout }
        ensures step { ValueSteps P.at None (Hold number) result self.old self.new }
    {
        let place = item_place(self.layout, number);
        self.or::<HoldStep, P, Nothing>(place, 1)
    }

    /// A sender loads the head.
    pub fn look<P: WhichPart>(&mut self) -> u64
        requires sender { IsSender (part_in P.at self.old).stage }
        ensures step { ValueSteps P.at None Look result self.old self.new }
    {
        self.load::<LookStep, P>(HEAD)
    }

    /// A sender stores the link to the head that it saw as the link of a number that it holds.
    pub fn link<P: WhichPart>(&mut self, number: u32, seen: u64)
        requires number { number < number_count (part_in P.at self.old).layout }
        requires held { Holds (part_in P.at self.old).seen (part_in P.at self.old).seat number }
        requires seen { HasSeen seen (part_in P.at self.old).stage }
        requires open { TakesPushes seen }
        ensures step { ValueSteps P.at None (Link number) (link_word seen) self.old self.new }
    {
        let place = link_place(number);
        let word = link_word(seen);
        self.store::<LinkStep, P>(place, word);
    }

    /// A sender exchanges the head that it saw for the number that it linked to it, and learns the head as it was. Where that wins the
    /// number's slot goes with it.
    pub fn push<P: WhichPart>(&mut self, number: u32, seen: u64) -> u64
        requires number { number < number_count (part_in P.at self.old).layout }
        requires linked { HasLinked seen number (part_in P.at self.old).stage }
        requires slot { 0 < self.old.queue.slots → HasSlot number self.old.hand }
        requires carries { 0 < self.old.queue.slots → Carries (part_in P.at self.old).layout.items number (in_front self.old.hand) }
        ensures step { ValueSteps P.at None (Push number) result self.old self.new }
    {
        // opens the chair, whose invariant says how many slots there are
        let _ = &self.layout;
        let word = Head::Item(number).to_word();
        self.replace::<PushStep, P>(HEAD, seen, word)
    }

    /// A sender that saw the queue closed clears the PENDING bit of a number that it holds, whose slot it has emptied.
    pub fn back_closed<P: WhichPart>(&mut self, number: u32)
        requires number { number < number_count (part_in P.at self.old).layout }
        requires held { Holds (part_in P.at self.old).seen (part_in P.at self.old).seat number }
        requires closed { HasSeen closed_word (part_in P.at self.old).stage }
        requires slot { 0 < self.old.queue.slots → HasValue number None self.old.hand }
        ensures step { (word : ℕ) × ValueSteps P.at None (Back number Closed) word self.old self.new }
    {
        let place = item_place(self.layout, number);
        self.and::<FindClosedStep, P>(place, 0);
    }

    /// A sender that saw the queue draining clears the PENDING bit of a number that it holds, whose slot it has emptied.
    pub fn back_draining<P: WhichPart>(&mut self, number: u32)
        requires number { number < number_count (part_in P.at self.old).layout }
        requires held { Holds (part_in P.at self.old).seen (part_in P.at self.old).seat number }
        requires draining { HasSeen draining_word (part_in P.at self.old).stage }
        requires slot { 0 < self.old.queue.slots → HasValue number None self.old.hand }
        ensures step { (word : ℕ) × ValueSteps P.at None (Back number Draining) word self.old self.new }
    {
        let place = item_place(self.layout, number);
        self.and::<FindDrainingStep, P>(place, 0);
    }

    /// A sender whose tries were all lost clears the PENDING bit of a number that it holds, whose slot it has emptied.
    pub fn back_contended<P: WhichPart>(&mut self, number: u32)
        requires sender { IsSender (part_in P.at self.old).stage }
        requires number { number < number_count (part_in P.at self.old).layout }
        requires held { Holds (part_in P.at self.old).seen (part_in P.at self.old).seat number }
        requires slot { 0 < self.old.queue.slots → HasValue number None self.old.hand }
        ensures step { (word : ℕ) × ValueSteps P.at None (Back number Contended) word self.old self.new }
    {
        let place = item_place(self.layout, number);
        self.and::<GiveUpStep, P>(place, 0);
    }

    /// A sender clears the PENDING bit of a number that it holds, whose slot it has emptied.
    pub fn back_cancelled<P: WhichPart>(&mut self, number: u32)
        requires sender { IsSender (part_in P.at self.old).stage }
        requires number { number < number_count (part_in P.at self.old).layout }
        requires held { Holds (part_in P.at self.old).seen (part_in P.at self.old).seat number }
        requires slot { 0 < self.old.queue.slots → HasValue number None self.old.hand }
        ensures step { (word : ℕ) × ValueSteps P.at None (Back number Cancelled) word self.old self.new }
    {
        let place = item_place(self.layout, number);
        self.and::<CancelStep, P>(place, 0);
    }

    /// A sender loads an item word.
    pub fn check<P: WhichPart>(&mut self, number: u32) -> u64
        requires sender { IsSender (part_in P.at self.old).stage }
        requires number { number < number_count (part_in P.at self.old).layout }
        ensures step { ValueSteps P.at None (Check number) result self.old self.new }
    {
        let place = item_place(self.layout, number);
        self.load::<CheckStep, P>(place)
    }

    /// The owner takes the whole list, leaves the mark of a queue at work, and learns the head as it was.
    pub fn take<P: WhichPart>(&mut self) -> u64
        requires open { ¬ IsShut (part_in P.at self.old).seen }
        requires walked { HasWalked (part_in P.at self.old).stage }
        requires empty { HasNone (part_in P.at self.old).stage }
        ensures step { ValueSteps P.at None Take result self.old self.new }
    {
        self.swap::<TakeStep, P>(HEAD, BUSY)
    }

    /// The owner takes the whole list and leaves the closed mark.
    pub fn close<P: WhichPart>(&mut self) -> u64
        requires unclosed { ¬ IsClosed (part_in P.at self.old).seen }
        requires walked { HasWalked (part_in P.at self.old).stage }
        ensures step { ValueSteps P.at None Close result self.old self.new }
    {
        let word = Head::Closed.to_word();
        self.swap::<CloseStep, P>(HEAD, word)
    }

    /// The owner takes the whole list and leaves the draining mark.
    pub fn drain<P: WhichPart>(&mut self) -> u64
        requires open { ¬ IsShut (part_in P.at self.old).seen }
        requires walked { HasWalked (part_in P.at self.old).stage }
        ensures step { ValueSteps P.at None Drain result self.old self.new }
    {
        let word = Head::Draining.to_word();
        self.swap::<DrainStep, P>(HEAD, word)
    }

    /// The owner, with nothing that waits or runs, leaves the mark of a queue at work in place of the draining mark.
    pub fn resume<P: WhichPart>(&mut self)
        requires draining { IsDraining (part_in P.at self.old).seen }
        requires walked { HasWalked (part_in P.at self.old).stage }
        requires empty { HasNone (part_in P.at self.old).stage }
        requires idle { ¬ IsRunning (part_in P.at self.old).seen }
        ensures step { (word : ℕ) × ValueSteps P.at None Resume word self.old self.new }
    {
        self.swap::<ResumeStep, P>(HEAD, BUSY);
    }

    /// The owner loads the link of the number that it walks next, or of the oldest number of its batch once it has walked all.
    /// The slot of the number that it walks comes to hand, with what the number brought.
    pub fn walk<P: WhichPart>(&mut self, number: u32) -> u64
        requires number { number < number_count (part_in P.at self.old).layout }
        requires next { IsToWalk number (part_in P.at self.old).stage }
        ensures step { ValueSteps P.at None Walk result self.old self.new }
    {
        // opens the chair, whose invariant says how many slots there are
        let _ = &self.layout;
        let place = link_place(number);
        self.load::<WalkStep, P>(place)
    }

    /// The owner stores a number as the link of one that it walked or that waits in its batch.
    pub fn turn<P: WhichPart>(&mut self, number: u32, next: u32)
        requires number { number < number_count (part_in P.at self.old).layout }
        requires next { next < number_count (part_in P.at self.old).layout }
        requires taken { IsToTurn number (part_in P.at self.old).stage }
        ensures step { ValueSteps P.at None (Turn number (Some next)) (next + 1) self.old self.new }
    {
        let place = link_place(number);
        let word = Head::Item(next).to_word();
        self.store::<TurnStep, P>(place, word);
    }

    /// The owner clears the PENDING bit of the oldest number of its batch, whose slot it has emptied and which then runs.
    pub fn begin<P: WhichPart>(&mut self, number: u32)
        requires number { number < number_count (part_in P.at self.old).layout }
        requires next { IsToBegin number (part_in P.at self.old).stage }
        requires idle { ¬ IsRunning (part_in P.at self.old).seen }
        requires slot { 0 < self.old.queue.slots → HasValue number None self.old.hand }
        ensures step { (word : ℕ) × ValueSteps P.at None Begin word self.old self.new }
    {
        let place = item_place(self.layout, number);
        self.and::<BeginStep, P>(place, 0);
    }

    /// The owner counts the execution that runs as ended.
    pub fn end<P: WhichPart>(&mut self)
        requires owner { IsOwner (part_in P.at self.old).stage }
        requires runs { IsRunning (part_in P.at self.old).seen }
        ensures step { (word : ℕ) × ValueSteps P.at None End word self.old self.new }
    {
        let place = done_place(self.layout);
        self.add::<EndStep, P>(place, 1);
    }

    // The owner sets the PENDING bit of an item while the queue is shut.
    fn chain_as<P: WhichPart, G: Says<V>>(&mut self, number: u32) -> u64
        requires item { number < (part_in P.at self.old).layout.items }
        requires shut { IsShut (part_in P.at self.old).seen }
        requires walked { HasWalked (part_in P.at self.old).stage }
        requires runs { IsRunning (part_in P.at self.old).seen }
        requires said { 0 < self.old.queue.slots → Carries (part_in P.at self.old).layout.items number G.said }
        ensures step { ValueSteps P.at G.said (Chain number) result self.old self.new }
    {
        let place = item_place(self.layout, number);
        self.or::<ChainStep, P, G>(place, 1)
    }

    /// The owner sets the PENDING bit of an item while the queue, whose table has no slots, is shut, and learns its item word as it
    /// was.
    pub fn chain<P: WhichPart>(&mut self, number: u32) -> u64
        requires none { self.old.queue.slots ≡ 0 }
        requires item { number < (part_in P.at self.old).layout.items }
        requires shut { IsShut (part_in P.at self.old).seen }
        requires walked { HasWalked (part_in P.at self.old).stage }
        requires runs { IsRunning (part_in P.at self.old).seen }
        ensures step { ValueSteps P.at None (Chain number) result self.old self.new }
    {
        self.chain_as::<P, Nothing>(number)
    }

    /// The owner sets the PENDING bit of an item while the queue is shut, and learns its item word as it was. Where it was clear the
    /// item is accepted with this value, and its slot comes to hand, where the value is to be put.
    pub fn chain_value<P: WhichPart>(&mut self, number: u32, value: &V) -> u64
        requires item { number < (part_in P.at self.old).layout.items }
        requires shut { IsShut (part_in P.at self.old).seen }
        requires walked { HasWalked (part_in P.at self.old).stage }
        requires runs { IsRunning (part_in P.at self.old).seen }
        ensures step { ValueSteps P.at (Some value.now) (Chain number) result self.old self.new }
    {
        self.chain_said::<P, Brand>(number, value)
    }

    // The same, where the ghost member is the value.
    fn chain_said<P: WhichPart, G: Says<V>>(&mut self, number: u32, value: &V) -> u64
        requires item { number < (part_in P.at self.old).layout.items }
        requires shut { IsShut (part_in P.at self.old).seen }
        requires walked { HasWalked (part_in P.at self.old).stage }
        requires runs { IsRunning (part_in P.at self.old).seen }
        requires said { G.said ≡ Some value.now }
        ensures step { ValueSteps P.at (Some value.now) (Chain number) result self.old self.new }
    {
        let _ = value;
        self.chain_as::<P, G>(number)
    }

    /// The owner, with nothing that waits or runs, exchanges the mark of a queue at work for that of a queue that rests, and
    /// learns the head as it was.
    pub fn rest<P: WhichPart>(&mut self) -> u64
        requires open { ¬ IsShut (part_in P.at self.old).seen }
        requires walked { HasWalked (part_in P.at self.old).stage }
        requires empty { HasNone (part_in P.at self.old).stage }
        requires idle { ¬ IsRunning (part_in P.at self.old).seen }
        ensures step { ValueSteps P.at None Rest result self.old self.new }
    {
        let word = Head::Empty.to_word();
        self.replace::<RestStep, P>(HEAD, BUSY, word)
    }

    /// Reads and writes the slot in front of the hand.
    pub fn exchange(&mut self, number: u32, value: Option<V>) -> Option<V>
        requires slot { HasSlot number self.old.hand }
        ensures exchanged { Exchanges number value result self.old self.new }
    {
        let table = &self.words.shared;
        table.exchange(&mut self.seat, number as usize, value)
    }

    /// The slot in front of the hand goes behind the others. It does nothing at run time.
    pub fn turn_hand(&mut self)
        ensures turned { TurnsHand self.old self.new }
    {
        self.seat.turn();
    }

    /// Two seats of one queue meet, of which the other has nothing in hand: afterwards each has seen all that has happened, and
    /// knows all that was brought.
    pub fn meet(&mut self, other: &mut Chair<V>)
        requires queue { self.old.queue ≡ other.old.queue }
        requires empty { other.old.hand ≡ [] }
        requires alone { other.old.others ≡ [] }
        ensures met { ValueMeet self.old other.old self.new other.new }
    {
        let table = &self.words.shared;
        let theirs = &mut other.seat;
        take_in(table, &mut self.seat, theirs);
        table.load::<SeeAll>(&mut self.seat, done_place(self.layout));
        other.seat = table.split_seat::<Off>(&mut self.seat);
    }

    /// Three seats of one queue meet, of which the others have nothing in hand: afterwards each has seen all that has happened,
    /// and knows all that was brought.
    pub fn meet_both(&mut self, other: &mut Chair<V>, third: &mut Chair<V>)
        requires other { self.old.queue ≡ other.old.queue }
        requires third { self.old.queue ≡ third.old.queue }
        requires empty { (other.old.hand ≡ []) × (third.old.hand ≡ []) }
        requires alone { (other.old.others ≡ []) × (third.old.others ≡ []) }
        ensures all { ValueMeetAll self.old other.old third.old self.new other.new third.new }
    {
        let table = &self.words.shared;
        take_in(table, &mut self.seat, &mut other.seat);
        take_in(table, &mut self.seat, &mut third.seat);
        table.load::<SeeAll>(&mut self.seat, done_place(self.layout));
        third.seat = table.split_seat::<Off>(&mut self.seat);
        other.seat = table.split_seat::<Off>(&mut self.seat);
    }
}

impl<V: Drop> Chair<V> {
    /// Two chairs of one queue become one, whose parts have seen all that has happened and know all that was brought. The first
    /// has one part, which comes first, and keeps its hand. The other has nothing in hand.
    pub fn join(self, other: Chair<V>) -> Chair<V>
        requires queue { other.queue ≡ self.queue }
        requires empty { other.hand ≡ [] }
        requires alone { self.others ≡ [] }
        ensures joined { ValueJoined self other result }
    {
        let Chair {
            words,
            spare: _,
            mut seat,
            layout,
        } = self;
        let Chair {
            words: spare,
            spare: _,
            seat: theirs,
            layout: _,
        } = other;
        let table = &words.shared;
        // what is joined comes in front, so the seat's own part goes out meanwhile
        let mine: TableSeat<V> = table.split_seat::<Off>(&mut seat);
        table.join_seat::<Ahead>(&mut seat, theirs);
        table.join_seat::<Ahead>(&mut seat, mine);
        table.load::<SeeAll>(&mut seat, done_place(layout));
        Chair {
            words,
            spare: Some(spare),
            seat,
            layout,
        }
    }

    /// A chair of its own again for each part of a chair of two. The first keeps the hand.
    pub fn split(self) -> (Chair<V>, Chair<V>)
        requires two { length self.others ≡ 1 }
        ensures first { (result.0.queue ≡ self.queue) × (result.0.first ≡ self.first) × (result.0.others ≡ []) × (result.0.hand ≡ self.hand) }
        ensures second { (result.1.queue ≡ self.queue) × (result.1.first ∷ [] ≡ self.others) × (result.1.others ≡ []) × (result.1.hand ≡ []) }
    {
        let Chair {
            words,
            spare,
            mut seat,
            layout,
        } = self;
        let Some(spare) = spare else { unreachable!() };
        let table = &words.shared;
        let front: TableSeat<V> = table.split_seat::<Off>(&mut seat);
        let back: TableSeat<V> = table.split_seat::<Off>(&mut seat);
        table.join_seat::<Ahead>(&mut seat, front);
        let first = Chair {
            words,
            spare: None,
            seat,
            layout,
        };
        let second = Chair {
            words: spare,
            spare: None,
            seat: back,
            layout,
        };
        (first, second)
    }
}
