//! The machine in memory, step by step.
ghost use Rattle.std.specs.Prelude.{◌≡◌, ◌<◌, ◌↔◌, IsTrue, IfOk, IfErr, IfSome, OnOk, OnErr, [], length, get_or, Some, None};
ghost use Rattle.wq_words.specs.Numbers.{number_count};
ghost use Rattle.wq_words.specs.History.{accepted, begun, Holds, IsClosed, IsShut, IsDraining, IsRunning};
ghost use Rattle.wq_core.specs.declared.step.Seat.TheVariants.{Sender, Owner};
ghost use Rattle.wq_core.specs.declared.step.Step.TheVariants.{Hold, Look, Link, Push, Back, Check, Take, Close, Drain, Resume, Walk, Begin, End, Chain, Turn};
ghost use Rattle.wq_core.specs.declared.step.Step.TheVariants.{Rest};
ghost use Rattle.wq_core.specs.Words.{number_at, head_at};
ghost use Rattle.wq_core.specs.Machine.{opening, IsEnabled, HasSeenOpen, HasSeenCause, MaySwap, after_swap, after, reply_to, nothing_seen, private, head, link};
ghost use Rattle.wq_core.specs.Machine.{unlinked};
ghost use Rattle.wq_core.specs.Sound.{IsSound};
ghost use Rattle.wq_core.specs.Made.{is_senders, IsSeated, IsNumbered, IsPlaced, IsMade};
ghost use Rattle.wq_machine.specs.Refusal.{MayTakeMemory, IsRefused};

use crate::refusal::StepError;
use std::alloc::{AllocError, Global};
use std::marker::Model;
use wq_core::place::{
    HEAD, done_place, head_at, item_of, item_place, link_place, link_word, number_at, word_at,
    word_count,
};
use wq_core::{Private, Reply, Seat, Step};
use wq_words::{BUSY, Event, Head, Layout, Why};

const NOTHING_SEEN: Private = Private {
    seen: None,
    linked: None,
};

/// The machine of one queue: its words, what its seats keep in private, and what has happened so far. Any seat may be
/// given any step; what has happened is then a legal history.
#[derive(Drop)]
pub struct Core {
    alloc: Global,
    pub(crate) layout: Layout,
    words: Vec<u64>,
    seats: Vec<Private>,
    cursor: Option<u32>,
    // newest first, so that a walk adds at the end and a begin takes from there
    walked: Vec<u32>,
    batch: Vec<u32>,
    history: Vec<Event>,
    // who holds each number, and which number runs: the history says it too, but only to whoever reads it through
    holders: Vec<Option<u32>>,
    running: Option<u32>,
}

impl Model for Core {
    ghost use Rattle.wq_core.specs.Machine.{Machine};

    ghost Value = { Machine };

    ghost use Rattle.wq_machine.specs.Stored.{stored_machine, IsStored};

    ghost view = { λ c. stored_machine c.layout c.words.items c.seats.items c.cursor c.walked.items c.batch.items c.history.items };

    ghost invariant = { λ c. IsStored (stored_machine c.layout c.words.items c.seats.items c.cursor c.walked.items c.batch.items c.history.items)
        c.holders.items c.running };
}

impl Core {
    /// A queue in which nothing has happened.
    ///
    /// # Errors
    /// Memory for its words or its seats was refused.
    pub fn new(alloc: Global, layout: Layout) -> Result<Core, AllocError>
        ensures opening { IfOk result (λ core. core ≡ opening layout) }
    {
        let count = layout.number_count() as usize;
        Ok(Core {
            alloc,
            layout,
            words: vec![in alloc; 0; word_count(layout)]?,
            seats: vec![in alloc; NOTHING_SEEN; layout.senders as usize]?,
            cursor: None,
            walked: Vec::new(alloc),
            batch: Vec::new(alloc),
            history: Vec::new(alloc),
            holders: vec![in alloc; None; count]?,
            running: None,
        })
    }

    /// The machine's invariant, which a caller has in hand after the call. It computes nothing.
    pub fn sound(&self)
        ensures holds { IsSound self.now }
    {
        // opens the machine, whose invariant says this
        let _ = &self.words;
    }

    /// The events so far, oldest first.
    pub fn history(&self) -> &[Event]
        ensures events { result.now ≡ self.now.history }
    {
        &self.history
    }

    /// The numbers whose queueing was answered true, or that were chained, in order.
    ///
    /// # Errors
    /// Memory for the list was refused.
    pub fn accepted(&self) -> Result<Vec<u32>, AllocError>
        ensures numbers { IfOk result (λ numbers. numbers.items ≡ accepted self.now.history) }
    {
        let mut numbers = Vec::with_capacity(self.alloc, self.history.len())?;
        numbers.extend(
            self.history
                .iter()
                .filter_map(|event| event.accepted_number()),
        )?;
        Ok(numbers)
    }

    /// The numbers that have begun to execute, in order.
    ///
    /// # Errors
    /// Memory for the list was refused.
    pub fn begun(&self) -> Result<Vec<u32>, AllocError>
        ensures numbers { IfOk result (λ numbers. numbers.items ≡ begun self.now.history) }
    {
        let mut numbers = Vec::with_capacity(self.alloc, self.history.len())?;
        numbers.extend(self.history.iter().filter_map(|event| event.begun_number()))?;
        Ok(numbers)
    }

    /// One step of the machine, and its reply. After an error nothing has changed. Only a step that adds an event, or a Walk of
    /// a number that is still to be walked, may want memory.
    pub fn step(&mut self, seat: Seat, step: Step) -> Result<Reply, StepError>
        ensures made { OnOk result (IsMade self.old seat step) }
        ensures reply { IfOk result (λ reply. reply ≡ reply_to self.old seat step) }
        ensures after { OnOk result (self.new ≡ after self.old seat step) }
        ensures refused { IfErr result (IsRefused self.old seat step) }
        ensures unchanged { OnErr result (self.new ≡ self.old) }
    {
        if !is_seated(self.layout, seat, step) {
            return Err(StepError::NoSeat);
        }
        if !is_numbered(self.layout, step) {
            return Err(StepError::NoItem);
        }
        if !self.is_enabled(seat, step) {
            return Err(StepError::NotEnabled);
        }
        self.make(seat, step).map_err(|_| StepError::Memory)
    }

    fn is_enabled(&self, seat: Seat, step: Step) -> bool
        requires { IsPlaced self.now.layout seat step }
        ensures { IsTrue result ↔ IsEnabled self.now seat step }
    {
        match (seat, step) {
            (Seat::Sender(_), Step::Hold(_)) => true,
            (Seat::Sender(_), Step::Look) => true,
            (Seat::Sender(sender), Step::Link(number)) => {
                self.is_held(sender, number) && has_seen_open(self.private(sender).seen)
            }
            (Seat::Sender(sender), Step::Push(number)) => {
                self.private(sender).linked == Some(number)
            }
            (Seat::Sender(sender), Step::Back(number, why)) => {
                self.is_held(sender, number) && has_seen_cause(why, self.private(sender).seen)
            }
            (Seat::Sender(_), Step::Check(_)) => true,
            (Seat::Owner, Step::Take) => {
                !self.is_shut() && self.cursor.is_none() && self.batch.is_empty()
            }
            (Seat::Owner, Step::Close) => !self.is_closed() && self.cursor.is_none(),
            (Seat::Owner, Step::Drain) => !self.is_shut() && self.cursor.is_none(),
            (Seat::Owner, Step::Resume) => self.is_draining() && self.is_idle(),
            (Seat::Owner, Step::Walk) => self.cursor.is_some() || !self.batch.is_empty(),
            (Seat::Owner, Step::Begin) => {
                self.cursor.is_none() && !self.batch.is_empty() && !self.is_running()
            }
            (Seat::Owner, Step::End) => self.is_running(),
            (Seat::Owner, Step::Chain(_)) => {
                self.is_shut() && self.cursor.is_none() && self.is_running()
            }
            (Seat::Owner, Step::Turn(number, _)) => {
                self.walked.contains(&number) || self.batch.contains(&number)
            }
            (Seat::Owner, Step::Rest) => !self.is_shut() && self.is_idle(),
            _ => unreachable!(),
        }
    }

    fn is_held(&self, sender: u32, number: u32) -> bool
        requires { number < number_count self.now.layout }
        ensures { IsTrue result ↔ Holds self.now.history sender number }
    {
        is_holder(&self.holders, number, sender)
    }

    fn is_closed(&self) -> bool
        ensures { IsTrue result ↔ IsClosed self.now.history }
    {
        word(&self.words, HEAD) == Head::Closed.to_word()
    }

    fn is_draining(&self) -> bool
        ensures { IsTrue result ↔ IsDraining self.now.history }
    {
        word(&self.words, HEAD) == Head::Draining.to_word()
    }

    // Whether the queue takes no push now.
    fn is_shut(&self) -> bool
        ensures { IsTrue result ↔ IsShut self.now.history }
    {
        self.is_closed() || self.is_draining()
    }

    // Whether the owner has nothing in hand: nothing is to be walked, nothing taken waits, and nothing runs.
    fn is_idle(&self) -> bool
        ensures { IsTrue result ↔ ((self.now.cursor ≡ None) × (self.now.batch ≡ []) × (¬ IsRunning self.now.history)) }
    {
        self.cursor.is_none() && self.batch.is_empty() && !self.is_running()
    }

    fn is_running(&self) -> bool
        ensures { IsTrue result ↔ IsRunning self.now.history }
    {
        self.running.is_some()
    }

    fn private(&self, sender: u32) -> Private
        requires { sender < self.now.layout.senders }
        ensures { result ≡ private self.now sender }
    {
        private_at(&self.seats, sender)
    }

    // A step that is enabled.
    fn make(&mut self, seat: Seat, step: Step) -> Result<Reply, AllocError>
        requires { IsMade self.old seat step }
        ensures reply { IfOk result (λ reply. reply ≡ reply_to self.old seat step) }
        ensures after { OnOk result (self.new ≡ after self.old seat step) }
        ensures memory { OnErr result (MayTakeMemory self.old seat step) }
        ensures unchanged { OnErr result (self.new ≡ self.old) }
    {
        match (seat, step) {
            (Seat::Sender(sender), Step::Hold(number)) => self.hold(sender, number),
            (Seat::Sender(sender), Step::Look) => Ok(self.look(sender)),
            (Seat::Sender(sender), Step::Link(number)) => Ok(self.link(sender, number)),
            (Seat::Sender(sender), Step::Push(number)) => self.push(sender, number),
            (Seat::Sender(sender), Step::Back(number, why)) => self.back(sender, number, why),
            (Seat::Sender(sender), Step::Check(number)) => Ok(self.check(sender, number)),
            (Seat::Owner, Step::Take) => self.take(),
            (Seat::Owner, Step::Close) => self.close(),
            (Seat::Owner, Step::Drain) => self.drain(),
            (Seat::Owner, Step::Resume) => self.resume(),
            (Seat::Owner, Step::Walk) => self.walk(),
            (Seat::Owner, Step::Begin) => self.begin(),
            (Seat::Owner, Step::End) => self.end(),
            (Seat::Owner, Step::Chain(number)) => self.chain(number),
            (Seat::Owner, Step::Turn(number, next)) => Ok(self.turn(number, next)),
            (Seat::Owner, Step::Rest) => self.rest(),
            _ => unreachable!(),
        }
    }

    fn hold(&mut self, sender: u32, number: u32) -> Result<Reply, AllocError>
        requires { IsMade self.old (Sender sender) (Hold number) }
        ensures reply { IfOk result (λ reply. reply ≡ reply_to self.old (Sender sender) (Hold number)) }
        ensures after { OnOk result (self.new ≡ after self.old (Sender sender) (Hold number)) }
        ensures unchanged { OnErr result (self.new ≡ self.old) }
    {
        let place = item_place(self.layout, number);
        if word(&self.words, place) != 0 {
            self.history.push(Event::Busy(sender, number))?;
            return Ok(Reply::Busy);
        }
        self.history.push(Event::Hold(sender, number))?;
        self.words[place] = 1;
        self.holders[number as usize] = Some(sender);
        Ok(Reply::Held)
    }

    fn look(&mut self, sender: u32) -> Reply
        requires { IsMade self.old (Sender sender) Look }
        ensures reply { result ≡ reply_to self.old (Sender sender) Look }
        ensures after { self.new ≡ after self.old (Sender sender) Look }
    {
        let head = word(&self.words, HEAD);
        self.seats[sender as usize] = Private {
            seen: Some(head),
            linked: None,
        };
        Reply::Looked(head_at(head))
    }

    fn link(&mut self, sender: u32, number: u32) -> Reply
        requires { IsMade self.old (Sender sender) (Link number) }
        ensures reply { result ≡ reply_to self.old (Sender sender) (Link number) }
        ensures after { self.new ≡ after self.old (Sender sender) (Link number) }
    {
        let seat = private_at(&self.seats, sender);
        self.words[link_place(number)] = link_word(seat.seen.unwrap_or(0));
        self.seats[sender as usize] = Private {
            seen: seat.seen,
            linked: Some(number),
        };
        Reply::Linked
    }

    fn push(&mut self, sender: u32, number: u32) -> Result<Reply, AllocError>
        requires { IsMade self.old (Sender sender) (Push number) }
        ensures reply { IfOk result (λ reply. reply ≡ reply_to self.old (Sender sender) (Push number)) }
        ensures after { OnOk result (self.new ≡ after self.old (Sender sender) (Push number)) }
        ensures memory { OnErr result (MayTakeMemory self.old (Sender sender) (Push number)) }
        ensures unchanged { OnErr result (self.new ≡ self.old) }
    {
        let seen = private_at(&self.seats, sender).seen.unwrap_or(0);
        let head = word(&self.words, HEAD);
        if head != seen {
            self.seats[sender as usize] = NOTHING_SEEN;
            return Ok(Reply::Lost);
        }
        self.history.push(Event::Push(sender, number))?;
        self.words[HEAD] = Head::Item(number).to_word();
        self.holders[number as usize] = None;
        self.seats[sender as usize] = NOTHING_SEEN;
        Ok(Reply::Pushed {
            first: link_word(seen) == Head::Empty.to_word(),
            wakes: seen == Head::Empty.to_word(),
        })
    }

    fn back(&mut self, sender: u32, number: u32, why: Why) -> Result<Reply, AllocError>
        requires { IsMade self.old (Sender sender) (Back number why) }
        ensures reply { IfOk result (λ reply. reply ≡ reply_to self.old (Sender sender) (Back number why)) }
        ensures after { OnOk result (self.new ≡ after self.old (Sender sender) (Back number why)) }
        ensures unchanged { OnErr result (self.new ≡ self.old) }
    {
        let seat = private_at(&self.seats, sender);
        self.history.push(Event::Back(sender, number, why))?;
        self.words[item_place(self.layout, number)] = 0;
        self.holders[number as usize] = None;
        self.seats[sender as usize] = unlinked(seat, number);
        Ok(Reply::GivenBack)
    }

    fn check(&self, sender: u32, number: u32) -> Reply
        requires { IsMade self.now (Sender sender) (Check number) }
        ensures reply { result ≡ reply_to self.now (Sender sender) (Check number) }
    {
        if word(&self.words, item_place(self.layout, number)) == 0 {
            Reply::Idle
        } else {
            Reply::Pending
        }
    }

    // Swaps the head. What stood there is walked next, and is the answer.
    fn swap(&mut self, new: u64, event: Event) -> Result<Head, AllocError>
        requires { MaySwap self.old new event }
        ensures found { IfOk result (λ found. found ≡ head_at (head self.old)) }
        ensures after { OnOk result (self.new ≡ after_swap self.old new event) }
        ensures unchanged { OnErr result (self.new ≡ self.old) }
    {
        let found = head_at(word(&self.words, HEAD));
        self.history.push(event)?;
        self.words[HEAD] = new;
        self.cursor = item_of(found);
        Ok(found)
    }

    fn take(&mut self) -> Result<Reply, AllocError>
        requires { IsMade self.old Owner Take }
        ensures reply { IfOk result (λ reply. reply ≡ reply_to self.old Owner Take) }
        ensures after { OnOk result (self.new ≡ after self.old Owner Take) }
        ensures unchanged { OnErr result (self.new ≡ self.old) }
    {
        let head = self.swap(BUSY, Event::Take)?;
        Ok(Reply::Took(head))
    }

    fn close(&mut self) -> Result<Reply, AllocError>
        requires { IsMade self.old Owner Close }
        ensures reply { IfOk result (λ reply. reply ≡ reply_to self.old Owner Close) }
        ensures after { OnOk result (self.new ≡ after self.old Owner Close) }
        ensures unchanged { OnErr result (self.new ≡ self.old) }
    {
        let head = self.swap(Head::Closed.to_word(), Event::Close)?;
        Ok(Reply::Closed(head))
    }

    fn drain(&mut self) -> Result<Reply, AllocError>
        requires { IsMade self.old Owner Drain }
        ensures reply { IfOk result (λ reply. reply ≡ reply_to self.old Owner Drain) }
        ensures after { OnOk result (self.new ≡ after self.old Owner Drain) }
        ensures unchanged { OnErr result (self.new ≡ self.old) }
    {
        let head = self.swap(Head::Draining.to_word(), Event::Drain)?;
        Ok(Reply::Drained(head))
    }

    fn resume(&mut self) -> Result<Reply, AllocError>
        requires { IsMade self.old Owner Resume }
        ensures reply { IfOk result (λ reply. reply ≡ reply_to self.old Owner Resume) }
        ensures after { OnOk result (self.new ≡ after self.old Owner Resume) }
        ensures unchanged { OnErr result (self.new ≡ self.old) }
    {
        self.swap(BUSY, Event::Resume)?;
        Ok(Reply::Resumed)
    }

    fn walk(&mut self) -> Result<Reply, AllocError>
        requires { IsMade self.old Owner Walk }
        ensures reply { IfOk result (λ reply. reply ≡ reply_to self.old Owner Walk) }
        ensures after { OnOk result (self.new ≡ after self.old Owner Walk) }
        ensures memory { OnErr result (MayTakeMemory self.old Owner Walk) }
        ensures unchanged { OnErr result (self.new ≡ self.old) }
    {
        let Some(number) = self.cursor else {
            let first = self.batch[self.batch.len() - 1];
            return Ok(Reply::Walked(self.linked(first)));
        };
        let next = self.linked(number);
        self.walked.reserve(self.batch.len() + 1)?;
        self.walked.push(number)?;
        self.cursor = next;
        if next.is_none() {
            self.walked.append(&mut self.batch)?;
            std::mem::swap(&mut self.walked, &mut self.batch);
        }
        Ok(Reply::Walked(next))
    }

    // The number that the link of this one leads to, if any.
    fn linked(&self, number: u32) -> Option<u32>
        requires { number < number_count self.now.layout }
        ensures { result ≡ number_at (link self.now number) }
    {
        number_at(word(&self.words, link_place(number)))
    }

    fn begin(&mut self) -> Result<Reply, AllocError>
        requires { IsMade self.old Owner Begin }
        ensures reply { IfOk result (λ reply. reply ≡ reply_to self.old Owner Begin) }
        ensures after { OnOk result (self.new ≡ after self.old Owner Begin) }
        ensures unchanged { OnErr result (self.new ≡ self.old) }
    {
        let last = self.batch.len() - 1;
        let number = self.batch[last];
        let bit = item_place(self.layout, number);
        self.history.push(Event::Begin(number))?;
        self.batch.truncate(last);
        self.words[bit] = 0;
        self.running = Some(number);
        Ok(Reply::Began(number))
    }

    fn end(&mut self) -> Result<Reply, AllocError>
        requires { IsMade self.old Owner End }
        ensures reply { IfOk result (λ reply. reply ≡ reply_to self.old Owner End) }
        ensures after { OnOk result (self.new ≡ after self.old Owner End) }
        ensures unchanged { OnErr result (self.new ≡ self.old) }
    {
        let Some(number) = self.running else {
            unreachable!()
        };
        let place = done_place(self.layout);
        let done = word(&self.words, place);
        self.history.push(Event::End(number))?;
        self.words[place] = done.wrapping_add(1);
        self.running = None;
        Ok(Reply::Ended(number))
    }

    fn chain(&mut self, number: u32) -> Result<Reply, AllocError>
        requires { IsMade self.old Owner (Chain number) }
        ensures reply { IfOk result (λ reply. reply ≡ reply_to self.old Owner (Chain number)) }
        ensures after { OnOk result (self.new ≡ after self.old Owner (Chain number)) }
        ensures unchanged { OnErr result (self.new ≡ self.old) }
    {
        let place = item_place(self.layout, number);
        if word(&self.words, place) != 0 {
            self.history.push(Event::ChainBusy(number))?;
            return Ok(Reply::ChainBusy);
        }
        self.batch.reserve(1)?;
        self.history.push(Event::Chain(number))?;
        self.batch.insert(0, number)?;
        self.words[place] = 1;
        Ok(Reply::Chained)
    }

    fn turn(&mut self, number: u32, next: Option<u32>) -> Reply
        requires { IsMade self.old Owner (Turn number next) }
        ensures reply { result ≡ reply_to self.old Owner (Turn number next) }
        ensures after { self.new ≡ after self.old Owner (Turn number next) }
    {
        self.words[link_place(number)] = word_at(next);
        Reply::Turned
    }

    fn rest(&mut self) -> Result<Reply, AllocError>
        requires { IsMade self.old Owner Rest }
        ensures reply { IfOk result (λ reply. reply ≡ reply_to self.old Owner Rest) }
        ensures after { OnOk result (self.new ≡ after self.old Owner Rest) }
        ensures memory { OnErr result (MayTakeMemory self.old Owner Rest) }
        ensures unchanged { OnErr result (self.new ≡ self.old) }
    {
        let head = word(&self.words, HEAD);
        if head != BUSY {
            return Ok(Reply::Lost);
        }
        self.history.push(Event::Rest)?;
        self.words[HEAD] = Head::Empty.to_word();
        Ok(Reply::Rested)
    }
}

// Whether the step is one of a sender's kinds.
fn is_senders(step: Step) -> bool
    ensures { result ≡ is_senders step }
{
    match step {
        Step::Hold(_)
        | Step::Look
        | Step::Link(_)
        | Step::Push(_)
        | Step::Back(_, _)
        | Step::Check(_) => true,
        Step::Take
        | Step::Close
        | Step::Drain
        | Step::Resume
        | Step::Walk
        | Step::Begin
        | Step::End
        | Step::Chain(_)
        | Step::Turn(_, _)
        | Step::Rest => false,
    }
}

fn is_seated(layout: Layout, seat: Seat, step: Step) -> bool
    ensures { IsTrue result ↔ IsSeated layout seat step }
{
    match seat {
        Seat::Sender(sender) => sender < layout.senders && is_senders(step),
        Seat::Owner => !is_senders(step),
    }
}

fn is_numbered(layout: Layout, step: Step) -> bool
    ensures { IsTrue result ↔ IsNumbered layout step }
{
    let count = layout.number_count();
    match step {
        Step::Hold(number)
        | Step::Link(number)
        | Step::Push(number)
        | Step::Back(number, _)
        | Step::Check(number) => number < count,
        Step::Chain(number) => number < layout.items,
        Step::Turn(number, next) => number < count && is_below(next, count),
        _ => true,
    }
}

// Whether the number, where there is one, is below a count.
fn is_below(number: Option<u32>, count: u32) -> bool
    ensures { IsTrue result ↔ IfSome number (λ k. k < count) }
{
    match number {
        Some(number) => number < count,
        None => true,
    }
}

// Whether a sender saw the head of a queue that takes pushes.
fn has_seen_open(seen: Option<u64>) -> bool
    ensures { IsTrue result ↔ HasSeenOpen seen }
{
    match seen {
        Some(word) => word != Head::Closed.to_word() && word != Head::Draining.to_word(),
        None => false,
    }
}

// Whether a sender saw what it gives a number back for.
fn has_seen_cause(why: Why, seen: Option<u64>) -> bool
    ensures { IsTrue result ↔ HasSeenCause why seen }
{
    match why {
        Why::Closed => seen == Some(Head::Closed.to_word()),
        Why::Draining => seen == Some(Head::Draining.to_word()),
        Why::Contended | Why::Cancelled => true,
    }
}

// Whether this sender is the one that holds the number.
fn is_holder(holders: &[Option<u32>], number: u32, sender: u32) -> bool
    requires { number < length holders.now }
    ensures { IsTrue result ↔ (get_or holders.now number None ≡ Some sender) }
{
    holders[number as usize] == Some(sender)
}

fn private_at(seats: &[Private], sender: u32) -> Private
    requires { sender < length seats.now }
    ensures { result ≡ get_or seats.now sender nothing_seen }
{
    seats[sender as usize]
}

// What a sender keeps once it has given the number back.
fn unlinked(seat: Private, number: u32) -> Private
    ensures { result ≡ unlinked seat number }
{
    Private {
        seen: seat.seen,
        linked: match seat.linked {
            Some(linked) if linked != number => Some(linked),
            _ => None,
        },
    }
}

// The word at a place.
fn word(words: &[u64], place: usize) -> u64
    requires { place < length words.now }
    ensures { result ≡ get_or words.now place 0 }
{
    words[place]
}
