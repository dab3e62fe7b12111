//! The delay table of a queue.
ghost use Rattle.std.specs.Prelude.{◌≡◌, ◌≢◌, ℕ, ◌+◌, ◌^◌, ◌<◌, ◌↔◌, IfOk, IfErr, IfSome, Bool, IsTrue, [], ◌∷◌, ◌++◌, length, take, true, false, MatchOption};
ghost use Rattle.wq_words.specs.declared.answer.Armed.TheVariants as armed;
ghost use Rattle.wq_words.specs.declared.answer.Modified.TheVariants as modified;
ghost use Rattle.wq_words.specs.History.{Holds, accepted};
ghost use Rattle.wq_words.specs.Headline.{KeepsHeadline};
ghost use Rattle.wq_words.specs.Seen.{own};
ghost use Rattle.wq_live.specs.Known.{IsSame, Sees};
ghost use Rattle.wq_live.specs.Answers.{IsContended};
ghost use Rattle.wq_words.specs.DelayTable.{items, on_table, due_part, is_too_far, IsOrdered};
ghost use Rattle.wq_delay.specs.Rows.{IsFirstDue};
ghost use Rattle.wq_delay.specs.Delay.{IsFit, KeepsTable, Arms, Cancels, Modifies, PostsOne, PostsDue, Advances, Looks, GivesAllBack};

use crate::answer::{Advance, Backwards, NoRoom, armed_of, modified_of, modified_of_posted};
use crate::timetable::Timetable;
use std::alloc::{AllocError, Global};
use std::marker::Model;
use wq_live::Sender;
use wq_words::{Armed, Layout, Modified, Posted};

const LONGEST: u64 = 4_294_967_295;

// The tick after a delay, where neither the delay, nor the tick, nor the number of the next arming is too large.
fn tick_after(now: u64, next: u128, delay: u64) -> Option<u64>
    ensures far { MatchOption result (is_too_far delay (record { entries = []; tick = now; next = next }) ≡ true)
        (λ due. is_too_far delay (record { entries = []; tick = now; next = next }) ≡ false) }
    ensures due { IfSome result (λ due. due ≡ now + delay) }
{
    if delay > LONGEST || next > u64::MAX as u128 {
        return None;
    }
    now.checked_add(delay)
}

/// A sender, and the items that it holds until their ticks. One that is dropped leaves them pending for good; `dissolve` gives
/// them back.
#[derive(Drop)]
pub struct Delay {
    alloc: Global,
    sender: Sender,
    table: Timetable,
    next: u128,
    looked: u32,
}

impl Model for Delay {
    ghost use Rattle.std.specs.Prelude.{◌≡◌};
    ghost use Rattle.wq_delay.specs.Delay.{DelayState, FitsTable};

    ghost Value = { DelayState };

    ghost view = { λ d. record { sender = d.sender; table = record { entries = d.table.entries; tick = d.table.tick; next = d.next }; looked = d.looked } };

    ghost invariant = { λ d. (d.table.size ≡ d.sender.layout.items)
        × FitsTable d.sender (record { entries = d.table.entries; tick = d.table.tick; next = d.next }) };
}

impl Delay {
    /// A delay table at the tick `now`, with nothing on it, over a sender that holds nothing. Where memory is refused the
    /// sender is given back.
    pub fn new(alloc: Global, sender: Sender, now: u64) -> Result<Delay, NoRoom>
        requires { (k : ℕ) → ¬ Holds sender.seen sender.number k }
        ensures made { IfOk result (λ d. (d.sender ≡ sender) × (d.table ≡ record { entries = []; tick = now; next = 0 })) }
        ensures fit { IfOk result IsFit }
        ensures looked { IfOk result (λ d. d.looked ≡ 0) }
        ensures refused { IfErr result (λ e. e.sender ≡ sender) }
    {
        match Timetable::new(alloc, sender.layout().items, now) {
            Ok(table) => Ok(Delay {
                alloc,
                sender,
                table,
                next: 0,
                looked: 0,
            }),
            Err(AllocError) => Err(NoRoom { sender }),
        }
    }

    /// What holds of every delay table: its items stand in order, and are those that its sender holds. What its sender has seen
    /// is legal, so it keeps the headline.
    pub fn fit(&self)
        ensures fit { IsFit self.now }
        ensures headline { KeepsHeadline self.now.sender.seen }
        ensures held { (k : ℕ) → on_table k self.now.table.entries ≡ true → Holds self.now.sender.seen self.now.sender.number k }
        ensures free { (k : ℕ) → on_table k self.now.table.entries ≡ false → ¬ Holds self.now.sender.seen self.now.sender.number k }
    {
        // opens the table, whose invariant says this
        let _ = &self.sender;
    }

    /// The size of its queue, and what `fit` says.
    pub fn layout(&self) -> Layout
        ensures layout { result ≡ self.now.sender.layout }
        ensures fit { IsFit self.now }
    {
        self.sender.layout()
    }

    /// How many items are on the table.
    pub fn len(&self) -> usize
        ensures entries { result ≡ length self.now.table.entries }
    {
        self.table.len()
    }

    /// Whether nothing is on the table. Its sender then holds nothing.
    pub fn is_empty(&self) -> bool
        ensures empty { IsTrue result ↔ (self.now.table.entries ≡ []) }
        ensures free { IsTrue result → (k : ℕ) → ¬ Holds self.now.sender.seen self.now.sender.number k }
    {
        self.table.len() == 0
    }

    /// Whether an item is on the table.
    pub fn has(&self, item: u32) -> bool
        requires { item < self.now.sender.layout.items }
        ensures on { result ≡ on_table item self.now.table.entries }
    {
        self.table.has(item)
    }

    /// How many slots of the wheel the last answered advance looked at, by its own count: one for each tick, or each slot once where
    /// that is fewer. Of a slot whose earliest tick has not come it looks at that tick, and at no item.
    pub fn looked(&self) -> u32
        ensures count { result ≡ self.now.looked }
    {
        self.looked
    }

    /// Puts an idle item on the table, due so many ticks from now, and with delay 0 queues it at once with at most so many
    /// tries (`queue_delayed_work`). A delay is at most `2^32 - 1`. With a delay above 0 the queue is not looked at: where it is closed
    /// the item goes on the table, and an advance gives it back.
    pub fn arm(&mut self, item: u32, delay: u64, tries: u32) -> Armed
        requires item { item < self.old.sender.layout.items }
        requires tries { 0 < tries }
        ensures answer { Arms item delay tries result self.old self.new }
        ensures contended { result ≡ armed.Contended → IsContended self.old.sender.number item tries self.new.sender.seen }
        ensures same { IsSame self.old.sender self.new.sender }
        ensures far { (result ≡ armed.TooFar) ↔ IsTrue (is_too_far delay self.old.table) }
        ensures memory { result ≢ armed.Memory }
        ensures looked { self.new.looked ≡ self.old.looked }
        ensures accepted { (first wakes : Bool) → result ≡ armed.Queued first wakes
            → accepted (own self.old.sender.number self.new.sender.seen) ≡ accepted (own self.old.sender.number self.old.sender.seen) ++ item ∷ [] }
        ensures unqueued { ((first wakes : Bool) → result ≢ armed.Queued first wakes)
            → accepted (own self.new.sender.number self.new.sender.seen) ≡ accepted (own self.old.sender.number self.old.sender.seen) }
        ensures on { result ≡ armed.OnTable → on_table item self.new.table.entries ≡ true }
        ensures other_items { (k : ℕ) → k ≢ item → on_table k self.new.table.entries ≡ on_table k self.old.table.entries }
    {
        let Some(due) = tick_after(self.table.tick(), self.next, delay) else {
            return Armed::TooFar;
        };
        if delay == 0 {
            return armed_of(self.sender.queue_tries(item, tries));
        }
        if !self.sender.hold(item) {
            return Armed::Pending;
        }
        self.table.put(item, due, self.next as u64);
        self.next += 1;
        Armed::OnTable
    }

    /// Takes an item off the table and gives it back (`cancel_delayed_work`). False where it is not on the table.
    pub fn cancel(&mut self, item: u32) -> bool
        requires { item < self.old.sender.layout.items }
        ensures answer { Cancels item result self.old self.new }
        ensures unqueued { accepted (own self.new.sender.number self.new.sender.seen) ≡ accepted (own self.old.sender.number self.old.sender.seen) }
        ensures same { IsSame self.old.sender self.new.sender }
        ensures looked { self.new.looked ≡ self.old.looked }
        ensures was { result ≡ on_table item self.old.table.entries }
        ensures off { on_table item self.new.table.entries ≡ false }
        ensures other_items { (k : ℕ) → k ≢ item → on_table k self.new.table.entries ≡ on_table k self.old.table.entries }
    {
        if !self.table.take(item) {
            return false;
        }
        self.sender.give_back(item);
        true
    }

    /// Gives an item on the table a new tick, so many ticks from now, and a new arming, and with delay 0 queues it at once with
    /// at most so many tries. Arms an idle item, as `arm` (`mod_delayed_work`). A delay is at most `2^32 - 1`. Where the post of
    /// an item on the table is contended, nothing of the call marks its start, as with `Sender::post`. `WasIdle` and `Moved` do
    /// not say whether a push was the first on the list or found the owner at rest, and nobody else is told: after either with a
    /// delay of 0 wake whoever executes and parks, also a worker in `serve`, and announce a queue of a pool.
    pub fn modify(&mut self, item: u32, delay: u64, tries: u32) -> Modified
        requires item { item < self.old.sender.layout.items }
        requires tries { 0 < tries }
        ensures answer { Modifies item delay tries result self.old self.new }
        ensures contended { result ≡ modified.Contended → on_table item self.old.table.entries ≡ false
            → IsContended self.old.sender.number item tries self.new.sender.seen }
        ensures accepted { result ≡ modified.WasIdle → delay ≡ 0
            → accepted (own self.old.sender.number self.new.sender.seen) ≡ accepted (own self.old.sender.number self.old.sender.seen) ++ item ∷ [] }
        ensures posted { result ≡ modified.Moved → delay ≡ 0
            → accepted (own self.old.sender.number self.new.sender.seen) ≡ accepted (own self.old.sender.number self.old.sender.seen) ++ item ∷ [] }
        ensures unqueued { result ≢ modified.WasIdle → result ≢ modified.Moved
            → accepted (own self.new.sender.number self.new.sender.seen) ≡ accepted (own self.old.sender.number self.old.sender.seen) }
        ensures delayed { 0 < delay
            → accepted (own self.new.sender.number self.new.sender.seen) ≡ accepted (own self.old.sender.number self.old.sender.seen) }
        ensures same { IsSame self.old.sender self.new.sender }
        ensures far { (result ≡ modified.TooFar) ↔ IsTrue (is_too_far delay self.old.table) }
        ensures memory { result ≢ modified.Memory }
        ensures looked { self.new.looked ≡ self.old.looked }
        ensures on { result ≡ modified.WasIdle → 0 < delay → on_table item self.new.table.entries ≡ true }
        ensures still_on { result ≡ modified.Moved → 0 < delay → on_table item self.new.table.entries ≡ true }
        ensures other_items { (k : ℕ) → k ≢ item → on_table k self.new.table.entries ≡ on_table k self.old.table.entries }
    {
        let Some(due) = tick_after(self.table.tick(), self.next, delay) else {
            return Modified::TooFar;
        };
        if !self.table.has(item) {
            return modified_of(self.arm(item, delay, tries));
        }
        if delay == 0 {
            return modified_of_posted(self.post_item(item, tries));
        }
        self.table.replace(item, due, self.next as u64);
        self.next += 1;
        Modified::Moved
    }

    // Posts an item on the table, which leaves the table unless the post is contended or finds the queue draining.
    fn post_item(&mut self, item: u32, tries: u32) -> Posted
        requires item { item < self.old.sender.layout.items }
        requires tries { 0 < tries }
        requires on { on_table item self.old.table.entries ≡ true }
        ensures posts { PostsOne item tries result self.old self.new }
        ensures looked { self.new.looked ≡ self.old.looked }
    {
        match self.sender.post(item, tries) {
            Posted::Contended => Posted::Contended,
            Posted::Draining => Posted::Draining,
            posted => {
                self.table.take(item);
                posted
            }
        }
    }

    // The first item on the table, where it is due at the present tick.
    fn first_due(&mut self) -> Option<u32>
        ensures same { self.new ≡ self.old }
        ensures ordered { IsOrdered self.old.table.entries }
        ensures first { MatchOption result (due_part self.old.table.tick self.old.table.entries ≡ [])
            (λ k. IsFirstDue self.old.table.tick k self.old.table.entries) }
        ensures low { IfSome result (λ k. k < self.old.sender.layout.items) }
    {
        self.table.first_due()
    }

    // Posts the items that are due at the present tick, in order, until a post is contended or finds the queue draining. How
    // many were queued, and how many given back.
    fn post_due(&mut self, tries: u32) -> (u32, u32)
        requires tries { 0 < tries }
        requires few { length self.old.table.entries < 2 ^ 32 }
        ensures tick { self.new.table.tick ≡ self.old.table.tick }
        ensures sum { result.0 + result.1 + length self.new.table.entries ≡ length self.old.table.entries }
        ensures posts { PostsDue self.old.table.tick tries self.old self.new result.0 result.1 }
        ensures looked { self.new.looked ≡ self.old.looked }
    {
        // opens the table, whose invariant says this
        let _ = &self.sender;
        let mut pushed = 0;
        let mut refused = 0;
        while let Some(item) = self.first_due() {
            match self.post_item(item, tries) {
                Posted::Queued { .. } => pushed += 1,
                Posted::Closed => refused += 1,
                Posted::Contended => return (pushed, refused),
                Posted::Draining => return (pushed, refused),
            }
        }
        (pushed, refused)
    }

    /// The items that are due at a tick, in the order in which they go out: by their ticks, and at one tick by their armings.
    ///
    /// # Errors
    /// Memory for the list was refused.
    pub fn due_list(&self, now: u64) -> Result<Vec<u32>, AllocError>
        ensures listed { IfOk result (λ list. list.items ≡ items (due_part now self.now.table.entries)) }
    {
        self.table.list_due(self.alloc, now)
    }

    /// Afterwards the table's sender and the other have each seen all that both had seen.
    pub fn meet(&mut self, other: &mut Sender)
        requires { self.old.sender.queue ≡ other.old.queue }
        ensures this { KeepsTable [] 0 self.old self.new }
        ensures that { Sees [] 0 other.old other.new }
        ensures own { (own self.old.sender.number self.new.sender.seen ≡ own self.old.sender.number self.old.sender.seen)
            × (own other.old.number other.new.seen ≡ own other.old.number other.old.seen) }
        ensures both { other.new.seen ≡ self.new.sender.seen }
        ensures layout { other.old.layout ≡ self.old.sender.layout }
        ensures looked { self.new.looked ≡ self.old.looked }
    {
        self.sender.meet(other);
    }

    /// Leads the table on to a tick and queues what is due, in order, each with at most so many tries. Where the queue is
    /// closed an item is given back. Where a post is contended, or finds the queue draining, the call ends, and the item stays
    /// on the table with those after it: they go out first at the next advance, after a drain once the queue is resumed.
    ///
    /// A push may be the first on the list, or find the owner at rest, and what an advance did does not say so, nor is anybody else
    /// told: wherever `pushed` is not 0 wake whoever executes and parks, also a worker in `serve`, and announce a queue of a pool.
    /// One wake too many costs a look; after one too few nothing of the queue runs until the next.
    ///
    /// # Errors
    /// `Backwards` where the tick is before the present one; nothing has changed.
    pub fn advance(&mut self, now: u64, tries: u32) -> Result<Advance, Backwards>
        requires { 0 < tries }
        ensures answer { Advances now tries result self.old self.new }
        ensures accepted { IfOk result (λ a. accepted (own self.old.sender.number self.new.sender.seen)
            ≡ accepted (own self.old.sender.number self.old.sender.seen) ++ items (take a.pushed (due_part now self.old.table.entries))) }
        ensures unqueued { IfErr result (λ e. accepted (own self.new.sender.number self.new.sender.seen)
            ≡ accepted (own self.old.sender.number self.old.sender.seen)) }
        ensures same { IsSame self.old.sender self.new.sender }
        ensures looked { Looks result now self.old self.new }
    {
        if now < self.table.tick() {
            return Err(Backwards);
        }
        let armed = self.table.len() as u32;
        self.looked = self.table.lead_on(now);
        let (pushed, refused) = self.post_due(tries);
        Ok(Advance {
            pushed,
            refused,
            waiting: armed - pushed - refused,
        })
    }

    /// Gives back all that is on the table, and leaves the sender.
    pub fn dissolve(self) -> Sender
        ensures given { GivesAllBack self result }
        ensures unqueued { accepted (own result.number result.seen) ≡ accepted (own self.sender.number self.sender.seen) }
        ensures same { IsSame self.sender result }
        ensures free { (k : ℕ) → ¬ Holds result.seen result.number k }
    {
        let Delay {
            mut sender,
            mut table,
            ..
        } = self;
        for item in 0..table.size() {
            if table.take(item) {
                sender.give_back(item);
            }
        }
        sender
    }
}
