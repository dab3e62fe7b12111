//! The owner's part of a chair, which is the first, and what the owner keeps beside it: its calls, with or without values.
ghost use Rattle.std.specs.Prelude.{◌≡◌, ◌≢◌, ℕ, ◌+◌, ◌<◌, ◌≤◌, ◌↔◌, false, [], ◌∷◌, ◌++◌, Some, IsSome, IfSome, IsTrue, length, slice_get};
ghost use mathlib.Core.List.{IsPrefix};
ghost use Rattle.wq_words.specs.declared.event.Event.TheVariants.{Take, Close, Drain, Resume, Begin, End};
ghost use Rattle.wq_words.specs.Numbers.{number_count};
ghost use Rattle.wq_words.specs.History.{IsClosed, IsShut, IsDraining, closed, IsRunning, running, accepted, begun, ended};
ghost use Rattle.wq_words.specs.Legal.{IsComplete, HasRunOut};
ghost use Rattle.wq_words.specs.Counting.{capped};
ghost use Rattle.wq_words.specs.Valued.{Carries};
ghost use Rattle.wq_core.specs.Words.{head_at, item_of};
ghost use Rattle.atomic_table.specs.Seated.{TableId};
ghost use Rattle.wq_table.specs.Plays.{tail_of};
ghost use Rattle.wq_table.specs.SlotChairs.{value_owner};
ghost use Rattle.wq_table.specs.Beside.{Learns, LearnsOrStays};
ghost use Rattle.wq_words.specs.Seen.{own, owner_seat};
ghost use Rattle.wq_calls.specs.Known.{IsSame, Sees};
ghost use Rattle.wq_calls.specs.Answers.{Chains, IsFinal};
ghost use Rattle.wq_calls.specs.Batch.{batch, next_of, TakesAll};
ghost use Rattle.wq_calls.specs.Rest.{Rests, HasRested, MayNotRest};
ghost use Rattle.wq_calls.specs.Laws.{queued_number};
ghost use Rattle.wq_calls.specs.Row.{IsRowOf};
ghost use Rattle.wq_calls.specs.Sits.{owning, owner_view, OwnsQueue, Stands, OnlySees, HasRow, HasBoth, HasFirst, kept_batch, walking};
ghost use Rattle.wq_calls.specs.KnownWith.{answer_of, ChainsOrReturns};
ghost use Rattle.wq_calls.specs.Valued.{owner_with};
ghost use Rattle.wq_calls.specs.Hands.{OwnsSlots, OwnsEmptied, OwnsSeat, TurnedSlots, TurnsHands};

use crate::answer::Done;
use crate::counts::OwnerCounts;
use crate::row::Row;
use crate::value_answer::ValueAnswer;
use wq_core::place::{head_at, item_of, number_at};
use wq_table::{Chair, First};
use wq_words::{Answer, BUSY, Layout};

/// Whether the queue takes pushes.
#[derive(Clone, Copy, Drop, PartialEq, Eq)]
pub enum Phase {
    /// It does.
    Open,
    /// Not until it is resumed.
    Draining,
    /// Not any more.
    Closed,
}

/// The chair, of which the first part is the owner's, and what the owner keeps of what it has seen.
#[derive(Drop)]
pub struct OwnerSeat<V> {
    /// Its words, and what it has seen of them.
    pub chair: Chair<V>,
    /// The size of its queue.
    pub layout: Layout,
    /// What was taken and has not begun.
    pub row: Row,
    /// The number that runs.
    pub running: Option<u32>,
    /// Whether the queue takes pushes.
    pub phase: Phase,
    /// What it has counted of its own events.
    pub counts: OwnerCounts,
}

impl<V> OwnerSeat<V> {
    /// Of an owner that has seen nothing.
    pub fn new(chair: Chair<V>, layout: Layout) -> OwnerSeat<V>
        requires unseen { (queue : TableId) × (chair ≡ value_owner queue layout) }
        ensures chair { result.chair ≡ chair }
        ensures layout { result.layout ≡ layout }
        ensures owns { OwnsSeat result }
    {
        OwnerSeat {
            chair,
            layout,
            row: Row::empty(),
            running: None,
            phase: Phase::Open,
            counts: OwnerCounts {
                chained: 0,
                chain_busy: 0,
                ended: 0,
            },
        }
    }
}

// Walks what was taken, from this number on, and turns its links, so that it stands oldest first.
pub(crate) fn turn_taken<V>(chair: &mut Chair<V>, first: Option<u32>) -> Row
    requires stands { Stands chair.old.first.part }
    requires stage { chair.old.first.part.stage ≡ walking first [] (kept_batch chair.old.first.part.stage) }
    requires slots { OwnsSlots chair.old (kept_batch chair.old.first.part.stage) }
    ensures learns { LearnsOrStays 0 chair.old chair.new }
    ensures follows { OnlySees chair.old.first.part chair.new.first.part }
    ensures stands { Stands chair.new.first.part }
    ensures turned { TurnedSlots (kept_batch chair.old.first.part.stage) result chair.old chair.new }
{
    let Some(last) = first else {
        return Row::empty();
    };
    let mut row = Row::of_one(last);
    let mut next = number_at(chair.walk::<First>(last));
    while let Some(number) = next {
        next = number_at(chair.walk::<First>(number));
        chair.turn::<First>(number, row.front);
        row.front = number;
        row.count += 1;
    }
    row
}

// Hangs one row behind another, by one link.
pub(crate) fn hang<V>(chair: &mut Chair<V>, row: Row, more: Row) -> Row
    requires stands { Stands chair.old.first.part }
    requires both { HasBoth row more chair.old.first.part }
    ensures learns { LearnsOrStays 0 chair.old chair.new }
    ensures follows { OnlySees chair.old.first.part chair.new.first.part }
    ensures stands { Stands chair.new.first.part }
    ensures stage { chair.new.first.part.stage ≡ chair.old.first.part.stage }
    ensures has_row { HasRow result chair.new.first.part }
    ensures count { result.count ≡ row.count + more.count }
    ensures hand { chair.new.hand ≡ chair.old.hand }
{
    if more.count == 0 {
        return row;
    }
    if row.count == 0 {
        return more;
    }
    chair.turn::<First>(row.last, more.front);
    Row {
        front: row.front,
        last: more.last,
        count: row.count + more.count,
    }
}

// Walks what was taken, from the number at this head on, and hangs it behind what waits.
pub(crate) fn walk_all<V>(chair: &mut Chair<V>, row: Row, head: u64) -> Row
    requires stands { Stands chair.old.first.part }
    requires stage { chair.old.first.part.stage ≡ walking (item_of (head_at head)) [] (kept_batch chair.old.first.part.stage) }
    requires row { IsRowOf chair.old.first.part.words row (kept_batch chair.old.first.part.stage) }
    requires slots { OwnsSlots chair.old (kept_batch chair.old.first.part.stage) }
    ensures learns { LearnsOrStays 0 chair.old chair.new }
    ensures follows { OnlySees chair.old.first.part chair.new.first.part }
    ensures stands { Stands chair.new.first.part }
    ensures has_row { HasRow result chair.new.first.part }
    ensures more { row.count ≤ result.count }
    ensures behind { IsPrefix (kept_batch chair.old.first.part.stage) (kept_batch chair.new.first.part.stage) }
    ensures slots { OwnsSlots chair.new (kept_batch chair.new.first.part.stage) }
{
    let taken = turn_taken::<V>(chair, item_of(head_at(head)));
    turn_hand::<V>(chair, taken.count);
    hang::<V>(chair, row, taken)
}

// Turns the hand so many times. It does nothing at run time.
fn turn_hand<V>(chair: &mut Chair<V>, count: u32)
    ensures turned { TurnsHands count chair.old chair.new }
{
    for _ in 0..count {
        chair.turn_hand();
    }
}

// What is left of a row without its first number, whose link is loaded while nobody else can write it.
pub(crate) fn without_first<V>(chair: &mut Chair<V>, row: Row) -> Row
    requires stands { Stands chair.old.first.part }
    requires has_row { HasRow row chair.old.first.part }
    requires some { 0 < row.count }
    ensures learns { LearnsOrStays 0 chair.old chair.new }
    ensures follows { OnlySees chair.old.first.part chair.new.first.part }
    ensures stands { Stands chair.new.first.part }
    ensures stage { chair.new.first.part.stage ≡ chair.old.first.part.stage }
    ensures first { HasFirst row.front result chair.new.first.part }
    ensures hand { chair.new.hand ≡ chair.old.hand }
{
    if row.count == 1 {
        return Row::empty();
    }
    match number_at(chair.walk::<First>(row.front)) {
        Some(front) => Row {
            front,
            last: row.last,
            count: row.count - 1,
        },
        None => unreachable!(),
    }
}

// The calls of an owner, as `Owner` of `wq_live` and `ValueOwner` of `wq_values` have them.
impl<V: Drop> OwnerSeat<V> {
    /// Takes all that stands on the list, and answers how many that is.
    pub fn take(&mut self) -> u32
        requires owns { OwnsSeat self.old }
        requires open { ¬ IsShut (owner_view (owning self.old)).seen }
        requires empty { batch (owner_view (owning self.old)).seen ≡ [] }
        ensures owns { OwnsSeat self.new }
        ensures learns { Learns 0 self.old.chair self.new.chair }
        ensures seen { Sees (Take ∷ []) 0 (owner_view (owning self.old)) (owner_view (owning self.new)) }
        ensures unqueued { accepted (own owner_seat (owner_view (owning self.new)).seen) ≡ accepted (own owner_seat (owner_view (owning self.old)).seen) }
        ensures executions { (begun (owner_view (owning self.new)).seen ≡ begun (owner_view (owning self.old)).seen)
            × (ended (owner_view (owning self.new)).seen ≡ ended (owner_view (owning self.old)).seen) }
        ensures takes { TakesAll Take result (owner_view (owning self.new)).seen }
        ensures count { result ≡ length (batch (owner_view (owning self.new)).seen) }
        ensures open { ¬ IsShut (owner_view (owning self.new)).seen }
        ensures unclosed { ¬ IsClosed (owner_view (owning self.new)).seen }
        ensures idle { ¬ IsRunning (owner_view (owning self.old)).seen → ¬ IsRunning (owner_view (owning self.new)).seen }
        ensures runs { IsRunning (owner_view (owning self.old)).seen → IsRunning (owner_view (owning self.new)).seen }
    {
        let head = self.chair.take::<First>();
        self.row = walk_all::<V>(&mut self.chair, self.row, head);
        self.row.count
    }

    /// Closes the queue, takes all that stands on the list, and answers how many that is.
    pub fn close(&mut self) -> u32
        requires owns { OwnsSeat self.old }
        requires unclosed { ¬ IsClosed (owner_view (owning self.old)).seen }
        ensures owns { OwnsSeat self.new }
        ensures learns { Learns 0 self.old.chair self.new.chair }
        ensures seen { Sees (Close ∷ []) 0 (owner_view (owning self.old)) (owner_view (owning self.new)) }
        ensures unqueued { accepted (own owner_seat (owner_view (owning self.new)).seen) ≡ accepted (own owner_seat (owner_view (owning self.old)).seen) }
        ensures executions { (begun (owner_view (owning self.new)).seen ≡ begun (owner_view (owning self.old)).seen)
            × (ended (owner_view (owning self.new)).seen ≡ ended (owner_view (owning self.old)).seen) }
        ensures takes { TakesAll Close result (owner_view (owning self.new)).seen }
        ensures behind { IsPrefix (batch (owner_view (owning self.old)).seen) (batch (owner_view (owning self.new)).seen) }
        ensures count { length (batch (owner_view (owning self.new)).seen) ≡ length (batch (owner_view (owning self.old)).seen) + result }
        ensures closed { IsClosed (owner_view (owning self.new)).seen }
        ensures shut { IsShut (owner_view (owning self.new)).seen }
        ensures idle { ¬ IsRunning (owner_view (owning self.old)).seen → ¬ IsRunning (owner_view (owning self.new)).seen }
        ensures runs { IsRunning (owner_view (owning self.old)).seen → IsRunning (owner_view (owning self.new)).seen }
    {
        let had = self.row.count;
        let head = self.chair.close::<First>();
        self.phase = Phase::Closed;
        self.row = walk_all::<V>(&mut self.chair, self.row, head);
        self.row.count - had
    }

    /// Begins a drain: takes all that stands on the list, and answers how many that is.
    pub fn drain(&mut self) -> u32
        requires owns { OwnsSeat self.old }
        requires open { ¬ IsShut (owner_view (owning self.old)).seen }
        ensures owns { OwnsSeat self.new }
        ensures learns { Learns 0 self.old.chair self.new.chair }
        ensures seen { Sees (Drain ∷ []) 0 (owner_view (owning self.old)) (owner_view (owning self.new)) }
        ensures unqueued { accepted (own owner_seat (owner_view (owning self.new)).seen) ≡ accepted (own owner_seat (owner_view (owning self.old)).seen) }
        ensures executions { (begun (owner_view (owning self.new)).seen ≡ begun (owner_view (owning self.old)).seen)
            × (ended (owner_view (owning self.new)).seen ≡ ended (owner_view (owning self.old)).seen) }
        ensures takes { TakesAll Drain result (owner_view (owning self.new)).seen }
        ensures behind { IsPrefix (batch (owner_view (owning self.old)).seen) (batch (owner_view (owning self.new)).seen) }
        ensures count { length (batch (owner_view (owning self.new)).seen) ≡ length (batch (owner_view (owning self.old)).seen) + result }
        ensures draining { IsDraining (owner_view (owning self.new)).seen }
        ensures shut { IsShut (owner_view (owning self.new)).seen }
        ensures unclosed { ¬ IsClosed (owner_view (owning self.new)).seen }
        ensures idle { ¬ IsRunning (owner_view (owning self.old)).seen → ¬ IsRunning (owner_view (owning self.new)).seen }
        ensures runs { IsRunning (owner_view (owning self.old)).seen → IsRunning (owner_view (owning self.new)).seen }
    {
        let had = self.row.count;
        let head = self.chair.drain::<First>();
        self.phase = Phase::Draining;
        self.row = walk_all::<V>(&mut self.chair, self.row, head);
        self.row.count - had
    }

    /// Ends a drain, once all that was accepted has ended.
    pub fn resume(&mut self)
        requires owns { OwnsSeat self.old }
        requires draining { IsDraining (owner_view (owning self.old)).seen }
        requires empty { batch (owner_view (owning self.old)).seen ≡ [] }
        requires idle { ¬ IsRunning (owner_view (owning self.old)).seen }
        ensures owns { OwnsSeat self.new }
        ensures learns { Learns 0 self.old.chair self.new.chair }
        ensures seen { Sees (Resume ∷ []) 0 (owner_view (owning self.old)) (owner_view (owning self.new)) }
        ensures unqueued { accepted (own owner_seat (owner_view (owning self.new)).seen) ≡ accepted (own owner_seat (owner_view (owning self.old)).seen) }
        ensures executions { (begun (owner_view (owning self.new)).seen ≡ begun (owner_view (owning self.old)).seen)
            × (ended (owner_view (owning self.new)).seen ≡ ended (owner_view (owning self.old)).seen) }
        ensures open { ¬ IsShut (owner_view (owning self.new)).seen }
        ensures unclosed { ¬ IsClosed (owner_view (owning self.new)).seen }
        ensures empty { batch (owner_view (owning self.new)).seen ≡ [] }
        ensures idle { ¬ IsRunning (owner_view (owning self.new)).seen }
    {
        self.chair.resume::<First>();
        self.phase = Phase::Open;
    }

    /// Whether the queue drains.
    pub fn is_draining(&self) -> bool
        requires owns { OwnsSeat self.now }
        ensures draining { IsTrue result ↔ IsDraining (owner_view (owning self.now)).seen }
        ensures else_open { result ≡ false → ¬ IsClosed (owner_view (owning self.now)).seen → ¬ IsShut (owner_view (owning self.now)).seen }
    {
        matches!(self.phase, Phase::Draining)
    }

    /// Whether it has closed the queue.
    pub fn is_closed(&self) -> bool
        requires owns { OwnsSeat self.now }
        ensures closed { result ≡ closed (owner_view (owning self.now)).seen }
    {
        matches!(self.phase, Phase::Closed)
    }

    /// Whether the queue drains and all that was accepted has ended.
    pub fn drained(&self) -> bool
        requires owns { OwnsSeat self.now }
        ensures drained { IsTrue result ↔ (IsDraining (owner_view (owning self.now)).seen × HasRunOut (owner_view (owning self.now)).seen) }
        ensures all { IsTrue result → (ended (owner_view (owning self.now)).seen ≡ begun (owner_view (owning self.now)).seen)
            × (begun (owner_view (owning self.now)).seen ≡ accepted (owner_view (owning self.now)).seen) }
        ensures resumable { IsTrue result → (batch (owner_view (owning self.now)).seen ≡ []) × (¬ IsRunning (owner_view (owning self.now)).seen) }
        ensures finished { IsDraining (owner_view (owning self.now)).seen → batch (owner_view (owning self.now)).seen ≡ []
            → ¬ IsRunning (owner_view (owning self.now)).seen → IsTrue result }
    {
        if !self.is_draining() {
            return false;
        }
        if self.row.count != 0 {
            return false;
        }
        self.running.is_none()
    }

    /// Some where the queue is closed and all that was accepted has ended.
    pub fn done(&self) -> Option<Done>
        requires owns { OwnsSeat self.now }
        ensures complete { IsSome result ↔ IsComplete (owner_view (owning self.now)).seen }
        ensures count { IfSome result (λ done. done.ended ≡ capped (length (ended (owner_view (owning self.now)).seen))) }
        ensures all { IsSome result → (ended (owner_view (owning self.now)).seen ≡ begun (owner_view (owning self.now)).seen)
            × (begun (owner_view (owning self.now)).seen ≡ accepted (owner_view (owning self.now)).seen) }
        ensures last { IsSome result → IsFinal (owner_view (owning self.now)).layout (owner_view (owning self.now)).seen }
        ensures finished { IsClosed (owner_view (owning self.now)).seen → batch (owner_view (owning self.now)).seen ≡ []
            → ¬ IsRunning (owner_view (owning self.now)).seen → IsSome result }
    {
        if !self.is_closed() || self.row.count != 0 || self.running.is_some() {
            return None;
        }
        Some(Done {
            ended: self.counts.ended,
        })
    }

    /// The oldest number that was taken and has not begun.
    pub fn next(&self) -> Option<u32>
        requires owns { OwnsSeat self.now }
        ensures first { result ≡ next_of (owner_view (owning self.now)).seen }
    {
        if self.row.count == 0 {
            return None;
        }
        Some(self.row.front)
    }

    /// How many numbers were taken and have not begun.
    pub fn waiting(&self) -> u32
        requires owns { OwnsSeat self.now }
        ensures count { result ≡ length (batch (owner_view (owning self.now)).seen) }
        ensures few { result ≤ number_count (owner_view (owning self.now)).layout }
    {
        self.row.count
    }

    /// Begins the execution of `next`, whose slot is empty.
    pub fn begin(&mut self) -> u32
        requires owns { OwnsQueue (owning self.old) }
        requires slots { OwnsEmptied self.old.chair self.old.row.front (tail_of (kept_batch self.old.chair.first.part.stage)) }
        requires waits { batch (owner_view (owning self.old)).seen ≢ [] }
        requires idle { ¬ IsRunning (owner_view (owning self.old)).seen }
        ensures owns { OwnsSeat self.new }
        ensures learns { Learns 0 self.old.chair self.new.chair }
        ensures next { next_of (owner_view (owning self.old)).seen ≡ Some result }
        ensures seen { Sees (Begin result ∷ []) 0 (owner_view (owning self.old)) (owner_view (owning self.new)) }
        ensures unqueued { accepted (own owner_seat (owner_view (owning self.new)).seen) ≡ accepted (own owner_seat (owner_view (owning self.old)).seen) }
        ensures executions { (begun (owner_view (owning self.new)).seen ≡ begun (owner_view (owning self.old)).seen ++ result ∷ [])
            × (ended (owner_view (owning self.new)).seen ≡ ended (owner_view (owning self.old)).seen) }
        ensures batch { batch (owner_view (owning self.old)).seen ≡ result ∷ batch (owner_view (owning self.new)).seen }
        ensures runs { IsRunning (owner_view (owning self.new)).seen }
        ensures running { running (owner_view (owning self.new)).seen ≡ Some result }
        ensures shut { IsShut (owner_view (owning self.old)).seen → IsShut (owner_view (owning self.new)).seen }
        ensures closed { IsClosed (owner_view (owning self.old)).seen → IsClosed (owner_view (owning self.new)).seen }
        ensures open { ¬ IsShut (owner_view (owning self.old)).seen → ¬ IsShut (owner_view (owning self.new)).seen }
        ensures unclosed { ¬ IsClosed (owner_view (owning self.old)).seen → ¬ IsClosed (owner_view (owning self.new)).seen }
    {
        let number = self.row.front;
        self.row = without_first::<V>(&mut self.chair, self.row);
        self.chair.begin::<First>(number);
        self.running = Some(number);
        number
    }

    /// Ends the execution that runs.
    pub fn end(&mut self)
        requires owns { OwnsSeat self.old }
        requires runs { IsRunning (owner_view (owning self.old)).seen }
        ensures owns { OwnsSeat self.new }
        ensures learns { Learns 0 self.old.chair self.new.chair }
        ensures seen { (k : ℕ) → running (owner_view (owning self.old)).seen ≡ Some k
            → Sees (End k ∷ []) 0 (owner_view (owning self.old)) (owner_view (owning self.new)) }
        ensures same { IsSame (owner_view (owning self.old)) (owner_view (owning self.new)) }
        ensures unqueued { accepted (own owner_seat (owner_view (owning self.new)).seen) ≡ accepted (own owner_seat (owner_view (owning self.old)).seen) }
        ensures executions { (begun (owner_view (owning self.new)).seen ≡ begun (owner_view (owning self.old)).seen)
            × ((k : ℕ) → running (owner_view (owning self.old)).seen ≡ Some k
            → ended (owner_view (owning self.new)).seen ≡ ended (owner_view (owning self.old)).seen ++ k ∷ []) }
        ensures batch { batch (owner_view (owning self.new)).seen ≡ batch (owner_view (owning self.old)).seen }
        ensures idle { ¬ IsRunning (owner_view (owning self.new)).seen }
        ensures shut { IsShut (owner_view (owning self.old)).seen → IsShut (owner_view (owning self.new)).seen }
        ensures closed { IsClosed (owner_view (owning self.old)).seen → IsClosed (owner_view (owning self.new)).seen }
        ensures open { ¬ IsShut (owner_view (owning self.old)).seen → ¬ IsShut (owner_view (owning self.new)).seen }
        ensures unclosed { ¬ IsClosed (owner_view (owning self.old)).seen → ¬ IsClosed (owner_view (owning self.new)).seen }
    {
        self.chair.end::<First>();
        self.running = None;
        self.counts.ended = self.counts.ended.saturating_add(1);
    }

    /// Says once that the queue rests. False where it may not rest.
    pub fn rest(&mut self) -> bool
        requires owns { OwnsSeat self.old }
        requires open { ¬ IsShut (owner_view (owning self.old)).seen }
        requires empty { batch (owner_view (owning self.old)).seen ≡ [] }
        requires idle { ¬ IsRunning (owner_view (owning self.old)).seen }
        ensures owns { OwnsSeat self.new }
        ensures learns { Learns 0 self.old.chair self.new.chair }
        ensures seen { Rests result (owner_view (owning self.old)) (owner_view (owning self.new)) }
        ensures unqueued { accepted (own owner_seat (owner_view (owning self.new)).seen) ≡ accepted (own owner_seat (owner_view (owning self.old)).seen) }
        ensures executions { (begun (owner_view (owning self.new)).seen ≡ begun (owner_view (owning self.old)).seen)
            × (ended (owner_view (owning self.new)).seen ≡ ended (owner_view (owning self.old)).seen) }
        ensures rested { IsTrue result → HasRested (owner_view (owning self.new)).seen }
        ensures refused { result ≡ false → MayNotRest (owner_view (owning self.new)).seen }
        ensures same { IsSame (owner_view (owning self.old)) (owner_view (owning self.new)) }
        ensures open { ¬ IsShut (owner_view (owning self.new)).seen }
        ensures unclosed { ¬ IsClosed (owner_view (owning self.new)).seen }
        ensures empty { batch (owner_view (owning self.new)).seen ≡ [] }
        ensures idle { ¬ IsRunning (owner_view (owning self.new)).seen }
    {
        let head = self.chair.rest::<First>();
        head == BUSY
    }

    /// Queues an item that brings nothing behind all that waits, from the execution that runs while the queue takes no push.
    pub fn chain(&mut self, item: u32) -> Answer
        requires owns { OwnsSeat self.old }
        requires bare { self.old.chair.queue.slots ≡ 0 }
        requires item { item < (owner_view (owning self.old)).layout.items }
        requires shut { IsShut (owner_view (owning self.old)).seen }
        requires runs { IsRunning (owner_view (owning self.old)).seen }
        ensures owns { OwnsSeat self.new }
        ensures learns { Learns 0 self.old.chair self.new.chair }
        ensures answer { Chains item result (owner_view (owning self.old)) (owner_view (owning self.new)) }
        ensures same { IsSame (owner_view (owning self.old)) (owner_view (owning self.new)) }
        ensures batch { batch (owner_view (owning self.new)).seen ≡ batch (owner_view (owning self.old)).seen ++ queued_number item result }
        ensures executions { (begun (owner_view (owning self.new)).seen ≡ begun (owner_view (owning self.old)).seen)
            × (ended (owner_view (owning self.new)).seen ≡ ended (owner_view (owning self.old)).seen) }
        ensures running { running (owner_view (owning self.new)).seen ≡ running (owner_view (owning self.old)).seen }
        ensures shut { IsShut (owner_view (owning self.new)).seen }
        ensures closed { IsClosed (owner_view (owning self.old)).seen → IsClosed (owner_view (owning self.new)).seen }
        ensures unclosed { ¬ IsClosed (owner_view (owning self.old)).seen → ¬ IsClosed (owner_view (owning self.new)).seen }
        ensures runs { IsRunning (owner_view (owning self.new)).seen }
    {
        if self.chair.chain::<First>(item) != 0 {
            self.counts.chain_busy = self.counts.chain_busy.saturating_add(1);
            return Answer::Pending;
        }
        self.row = hang::<V>(&mut self.chair, self.row, Row::of_one(item));
        self.counts.chained = self.counts.chained.saturating_add(1);
        Answer::Queued {
            first: false,
            wakes: false,
        }
    }

    /// Begins the execution of `next`, which is handed what that number brought.
    pub fn begin_value(&mut self) -> (u32, Option<V>)
        requires owns { OwnsSeat self.old }
        requires slots { 0 < self.old.chair.queue.slots }
        requires waits { batch (owner_view (owning self.old)).seen ≢ [] }
        requires idle { ¬ IsRunning (owner_view (owning self.old)).seen }
        ensures owns { OwnsSeat self.new }
        ensures learns { Learns 0 self.old.chair self.new.chair }
        ensures next { next_of (owner_view (owning self.old)).seen ≡ Some result.0 }
        ensures seen { Sees (Begin result.0 ∷ []) 0 (owner_view (owning self.old)) (owner_view (owning self.new)) }
        ensures unqueued { accepted (own owner_seat (owner_view (owning self.new)).seen) ≡ accepted (own owner_seat (owner_view (owning self.old)).seen) }
        ensures executions { (begun (owner_view (owning self.new)).seen ≡ begun (owner_view (owning self.old)).seen ++ result.0 ∷ [])
            × (ended (owner_view (owning self.new)).seen ≡ ended (owner_view (owning self.old)).seen) }
        ensures batch { batch (owner_view (owning self.old)).seen ≡ result.0 ∷ batch (owner_view (owning self.new)).seen }
        ensures value { slice_get self.new.chair.first.brought (length (begun (owner_view (owning self.old)).seen)) ≡ Some result.1 }
        ensures kind { Carries (owner_view (owning self.old)).layout.items result.0 result.1 }
        ensures runs { IsRunning (owner_view (owning self.new)).seen }
        ensures running { running (owner_view (owning self.new)).seen ≡ Some result.0 }
        ensures shut { IsShut (owner_view (owning self.old)).seen → IsShut (owner_view (owning self.new)).seen }
        ensures closed { IsClosed (owner_view (owning self.old)).seen → IsClosed (owner_view (owning self.new)).seen }
        ensures open { ¬ IsShut (owner_view (owning self.old)).seen → ¬ IsShut (owner_view (owning self.new)).seen }
        ensures unclosed { ¬ IsClosed (owner_view (owning self.old)).seen → ¬ IsClosed (owner_view (owning self.new)).seen }
    {
        let value = self.chair.exchange(self.row.front, None);
        (self.begin(), value)
    }

    /// As `chain`, of an item that brings this value. Where it is not queued the value comes back.
    pub fn chain_value(&mut self, item: u32, value: V) -> ValueAnswer<V>
        requires owns { OwnsSeat self.old }
        requires slots { 0 < self.old.chair.queue.slots }
        requires item { item < (owner_view (owning self.old)).layout.items }
        requires shut { IsShut (owner_view (owning self.old)).seen }
        requires runs { IsRunning (owner_view (owning self.old)).seen }
        ensures owns { OwnsSeat self.new }
        ensures learns { Learns 0 self.old.chair self.new.chair }
        ensures answer { Chains item (answer_of result) (owner_view (owning self.old)) (owner_view (owning self.new)) }
        ensures value { ChainsOrReturns item value result (owner_with self.new) }
        ensures same { IsSame (owner_view (owning self.old)) (owner_view (owning self.new)) }
        ensures batch { batch (owner_view (owning self.new)).seen ≡ batch (owner_view (owning self.old)).seen ++ queued_number item (answer_of result) }
        ensures executions { (begun (owner_view (owning self.new)).seen ≡ begun (owner_view (owning self.old)).seen)
            × (ended (owner_view (owning self.new)).seen ≡ ended (owner_view (owning self.old)).seen) }
        ensures running { running (owner_view (owning self.new)).seen ≡ running (owner_view (owning self.old)).seen }
        ensures shut { IsShut (owner_view (owning self.new)).seen }
        ensures closed { IsClosed (owner_view (owning self.old)).seen → IsClosed (owner_view (owning self.new)).seen }
        ensures unclosed { ¬ IsClosed (owner_view (owning self.old)).seen → ¬ IsClosed (owner_view (owning self.new)).seen }
        ensures runs { IsRunning (owner_view (owning self.new)).seen }
    {
        if self.chair.chain_value::<First>(item, &value) != 0 {
            self.counts.chain_busy = self.counts.chain_busy.saturating_add(1);
            return ValueAnswer::Pending(value);
        }
        self.chair.exchange(item, Some(value));
        self.chair.turn_hand();
        self.row = hang::<V>(&mut self.chair, self.row, Row::of_one(item));
        self.counts.chained = self.counts.chained.saturating_add(1);
        ValueAnswer::Queued {
            first: false,
            wakes: false,
        }
    }
}
