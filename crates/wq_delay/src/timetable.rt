//! Items by the ticks at which they are due: a wheel of slots, and a row of what is due.
ghost use Rattle.std.specs.Prelude.{◌≡◌, ℕ, ◌<◌, ◌≤◌, ◌-◌, true, false, [], length, min, IfOk, IfSome, MatchOption};
ghost use Rattle.wq_words.specs.Limits.{most_items};
ghost use Rattle.wq_words.specs.DelayTable.{Entry, items, on_table, due_part, placed, without, AreArmedBefore};
ghost use Rattle.std.specs.Prelude.{map, filter, take, drop, nat_le, ◌&&◌, ◌+◌, ◌*◌, ◌%◌, OnOk, List, set, slice_index, slice_index_or};
ghost use Rattle.std.specs.Vec.{vec_capacity};
ghost use Rattle.std.specs.List.{All};
ghost use Rattle.wq_delay.specs.Rows.{IsFirstDue, IsWheel, IsGathering, StillWaits, IsClean, place_in, later_than, waiting, entry_of, stands, AreFound, AreDue};
ghost use Rattle.wq_delay.specs.Rows.{remaining, RowHasRoom, PutsBehind, AreSorted, AreEarliest, WaitFrom};
ghost use Rattle.std.specs.List.Sorted.{IsPermutation};

use crate::rings::Rings;
use std::alloc::{AllocError, Global};
use std::cmp;
use std::marker::Model;

// How many slots the wheel has: an item that is due at a tick stands in the slot of that number of ticks, modulo this.
const SLOTS: u32 = 256;

// Where an item stands: the tick at which it is due, and the number of its arming.
#[derive(Clone, Copy, PartialEq, Eq, PartialOrd, Ord)]
struct DuePlace {
    due: u64,
    arming: u64,
}

// An item that is due, and the place at which it was found. They go out in the order of their places.
#[derive(Clone, Copy, PartialEq, Eq, PartialOrd, Ord)]
struct DueItem {
    place: DuePlace,
    item: u32,
}

// Where each item stands, if it is on the table. What is due later than the present tick stands in the ring of its slot, in
// the order of armings; the head of a slot's ring is the place behind all items, and of the slots before it. What is due stands
// in the row, in order, from the place `front` on, among items that have left it. It stays there until it goes out: what an
// advance finds is due later than all that stands there, and is put behind it, so no advance takes longer for what is left.
// In `earliest` stands for each slot a tick before which nothing that waits in it is due, the last of all ticks where nothing has
// waited since it was noted. An advance goes round a slot's ring only where that tick has come, and then notes the earliest tick of
// what still waits there.
#[derive(Drop)]
pub(crate) struct Timetable {
    places: Vec<Option<DuePlace>>,
    rings: Rings,
    earliest: Vec<u64>,
    row: Vec<DueItem>,
    front: usize,
    count: usize,
    tick: u64,
}

// Whether the item still stands where the row says.
fn is_there(places: &[Option<DuePlace>], entry: DueItem) -> bool
    ensures { result ≡ stands places.now entry }
{
    places.get(entry.item as usize) == Some(&Some(entry.place))
}

// The first place from `front` on whose item still stands where the row says.
fn first_there(places: &[Option<DuePlace>], row: &[DueItem], front: usize) -> usize
    ensures passed { filter (stands places.now) (take front row.now) ≡ [] → filter (stands places.now) (take result row.now) ≡ [] }
    ensures there { (d : _) → result < length row.now → stands places.now (slice_index_or row.now result d) ≡ true }
    ensures low { result ≤ length row.now }
{
    for at in front..row.len() {
        if is_there(places, row[at]) {
            return at;
        }
    }
    row.len()
}

// What stands in the row from the place `front` on and is due at a tick, in order.
fn out_by(
    alloc: Global,
    places: &[Option<DuePlace>],
    row: &[DueItem],
    front: usize,
    now: u64,
) -> Result<Vec<DueItem>, AllocError>
    ensures { IfOk result (λ list. list.items ≡ filter (λ e. nat_le e.place.due now && stands places.now e) (drop front row.now)) }
{
    row.iter()
        .skip(front)
        .copied()
        .filter(|entry| entry.place.due <= now && is_there(places, *entry))
        .collect(alloc)
}

// Adds to a list what is due at the tick `now` of the slot that is so many slots behind the one after `tick`, in its order. The
// slot's ring is passed over where nothing of it is due by then.
fn find(
    places: &[Option<DuePlace>],
    rings: &Rings,
    earliest: &[u64],
    found: &mut Vec<DueItem>,
    tick: u64,
    after: u64,
    now: u64,
) -> Result<(), AllocError>
    requires few { length places.now ≤ most_items }
    requires wheel { IsWheel (length places.now) rings.now.next.items rings.now.previous.items (λ k. later_than tick (place_in places.now k)) }
    requires earliest { AreEarliest earliest.now (λ k. later_than tick (place_in places.now k)) }
    requires after { (after < 256) × (tick + after < now) }
    requires found { AreFound places.now tick now after (map entry_of found.old.items) }
    ensures { OnOk result (AreFound places.now tick now (after + 1) (map entry_of found.new.items)) }
{
    let slot = (tick + 1 + after) % SLOTS as u64;
    if earliest[slot as usize] > now {
        return Ok(());
    }
    let head = places.len() as u32 + slot as u32;
    let mut item = rings.next[head as usize];
    while item != head {
        if let Some(place) = places[item as usize] {
            if place.due <= now {
                found.push(DueItem { place, item })?;
            }
        }
        item = rings.next[item as usize];
    }
    Ok(())
}

// Adds to what is due at the tick `tick` what is due by the tick `now`: it stands in the slots of the ticks between them.
fn find_on(
    places: &[Option<DuePlace>],
    rings: &Rings,
    earliest: &[u64],
    found: &mut Vec<DueItem>,
    tick: u64,
    now: u64,
) -> Result<(), AllocError>
    requires few { length places.now ≤ most_items }
    requires wheel { IsWheel (length places.now) rings.now.next.items rings.now.previous.items (λ k. later_than tick (place_in places.now k)) }
    requires earliest { AreEarliest earliest.now (λ k. later_than tick (place_in places.now k)) }
    requires found { AreFound places.now tick now 0 (map entry_of found.old.items) }
    ensures { OnOk result (AreDue places.now now (map entry_of found.new.items)) }
{
    let ticks = cmp::min(now.saturating_sub(tick), SLOTS as u64);
    for after in 0..ticks {
        find(places, rings, earliest, found, tick, after, now)?;
    }
    Ok(())
}

// The items of a row, in order.
fn items_of(alloc: Global, row: &[DueItem]) -> Result<Vec<u32>, AllocError>
    ensures { IfOk result (λ list. list.items ≡ map (λ e. e.item) row.now) }
{
    row.iter().map(|entry| entry.item).collect(alloc)
}

// Looks at the slot with this head, and moves what is due at the tick `now` behind the row, in the order of the slot.
fn look(places: &[Option<DuePlace>], rings: &mut Rings, row: &mut Vec<DueItem>, head: u32, now: u64)
    requires gathering { IsGathering places.now rings.old.next.items rings.old.previous.items (remaining places.now row.old.items) now }
    requires head { (length places.now ≤ head) × (head < length places.now + 256) }
    requires room { RowHasRoom places.now row.old.items (vec_capacity row.old) }
    ensures gathering { IsGathering places.now rings.new.next.items rings.new.previous.items (remaining places.now row.new.items) now }
    ensures room { RowHasRoom places.now row.new.items (vec_capacity row.new) }
    ensures grows { PutsBehind places.now row.old.items row.new.items }
    ensures fewer { StillWaits places.now (remaining places.now row.old.items) (remaining places.now row.new.items) }
    ensures clean { IsClean places.now (remaining places.now row.new.items) head now }
{
    let mut item = rings.next[head as usize];
    while item != head {
        let after = rings.next[item as usize];
        if let Some(place) = places[item as usize] {
            if place.due <= now {
                rings.take_out(item);
                row.push_reserved(DueItem { place, item });
            }
        }
        item = after;
    }
}

// A tick before which nothing that waits in the slot with this head is due: the earliest of it, or the last where nothing waits.
fn earliest_in(places: &[Option<DuePlace>], rings: &Rings, head: u32) -> u64
    requires head { (length places.now ≤ head) × (head < length places.now + 256) }
    requires wheel { (es : List Entry) × IsWheel (length places.now) rings.now.next.items rings.now.previous.items (waiting places.now es) }
    ensures { (es : List Entry) → IsWheel (length places.now) rings.now.next.items rings.now.previous.items (waiting places.now es)
        → WaitFrom places.now es head result }
{
    let mut earliest = u64::MAX;
    let mut item = rings.next[head as usize];
    while item != head {
        if let Some(place) = places[item as usize] {
            earliest = cmp::min(earliest, place.due);
        }
        item = rings.next[item as usize];
    }
    earliest
}

// Looks at a slot, where something of it may be due at the tick `now`, and notes the earliest tick of what still waits there.
fn look_at(
    places: &[Option<DuePlace>],
    rings: &mut Rings,
    row: &mut Vec<DueItem>,
    earliest: &mut Vec<u64>,
    slot: u32,
    now: u64,
)
    requires few { length places.now ≤ most_items }
    requires slot { slot < 256 }
    requires gathering { IsGathering places.now rings.old.next.items rings.old.previous.items (remaining places.now row.old.items) now }
    requires room { RowHasRoom places.now row.old.items (vec_capacity row.old) }
    requires earliest { AreEarliest earliest.old.items (waiting places.now (remaining places.now row.old.items)) }
    ensures gathering { IsGathering places.now rings.new.next.items rings.new.previous.items (remaining places.now row.new.items) now }
    ensures room { RowHasRoom places.now row.new.items (vec_capacity row.new) }
    ensures grows { PutsBehind places.now row.old.items row.new.items }
    ensures fewer { StillWaits places.now (remaining places.now row.old.items) (remaining places.now row.new.items) }
    ensures clean { IsClean places.now (remaining places.now row.new.items) (length places.now + slot) now }
    ensures earliest { AreEarliest earliest.new.items (waiting places.now (remaining places.now row.new.items)) }
{
    if earliest[slot as usize] > now {
        return;
    }
    let head = places.len() as u32 + slot;
    look(places, rings, row, head, now);
    let left = earliest_in(places, rings, head);
    earliest[slot as usize] = left;
}

// Takes out of a row what has left the table, where the row has no place from `front` on, or is longer than twice as many as there
// are items. The place from which on something may stand there.
fn tidy(places: &[Option<DuePlace>], row: &mut Vec<DueItem>, front: usize) -> usize
    requires few { length places.now ≤ most_items }
    requires passed { filter (stands places.now) (take front row.old.items) ≡ [] }
    requires enough { 3 * length places.now ≤ vec_capacity row.old }
    ensures passed { filter (stands places.now) (take result row.new.items) ≡ [] }
    ensures low { result ≤ length row.new.items }
    ensures same { filter (stands places.now) row.new.items ≡ filter (stands places.now) row.old.items }
    ensures early { (t : ℕ) → All (λ e. e.place.due ≤ t) row.old.items → All (λ e. e.place.due ≤ t) row.new.items }
    ensures room { RowHasRoom places.now row.new.items (vec_capacity row.new) }
{
    if front < row.len() && row.len() <= 2 * places.len() {
        return front;
    }
    row.retain(|entry| is_there(places, *entry));
    0
}

// Sorts what stands in a row behind so many.
fn sort_behind(row: &mut Vec<DueItem>, late: usize)
    requires { late ≤ length row.old.items }
    ensures kept { take late row.new.items ≡ take late row.old.items }
    ensures moved { IsPermutation (drop late row.old.items) (drop late row.new.items) }
    ensures sorted { AreSorted (drop late row.new.items) }
    ensures capacity { vec_capacity row.new ≡ vec_capacity row.old }
{
    row[late..].sort_unstable();
}

// Sorts what is due into the order in which it goes out.
fn sort(due: &mut Vec<DueItem>)
    ensures moved { IsPermutation due.old.items due.new.items }
    ensures sorted { AreSorted due.new.items }
{
    due.sort_unstable();
}

// Looks at the slots of the ticks after `tick` up to `now` in turn, or at each slot once where there are more ticks than slots.
// How many slots it looked at, at each of them at least at its earliest tick.
fn look_on(
    places: &[Option<DuePlace>],
    rings: &mut Rings,
    row: &mut Vec<DueItem>,
    earliest: &mut Vec<u64>,
    tick: u64,
    now: u64,
) -> u32
    requires few { length places.now ≤ most_items }
    requires gathering { IsGathering places.now rings.old.next.items rings.old.previous.items (remaining places.now row.old.items) now }
    requires room { RowHasRoom places.now row.old.items (vec_capacity row.old) }
    requires ahead { (k : ℕ) (p : _) → waiting places.now (remaining places.now row.old.items) k ≡ Some p → tick < p.due }
    requires forward { tick ≤ now }
    requires earliest { AreEarliest earliest.old.items (waiting places.now (remaining places.now row.old.items)) }
    ensures gathering { IsGathering places.now rings.new.next.items rings.new.previous.items (remaining places.now row.new.items) now }
    ensures room { RowHasRoom places.now row.new.items (vec_capacity row.new) }
    ensures grows { PutsBehind places.now row.old.items row.new.items }
    ensures done { (k : ℕ) (p : _) → waiting places.now (remaining places.now row.new.items) k ≡ Some p → now < p.due }
    ensures earliest { AreEarliest earliest.new.items (waiting places.now (remaining places.now row.new.items)) }
    ensures looked { result ≡ min (now - tick) 256 }
{
    let ticks = cmp::min(now - tick, SLOTS as u64);
    let mut looked = 0;
    for after in 0..ticks {
        let slot = (tick + 1 + after) % SLOTS as u64;
        look_at(places, rings, row, earliest, slot as u32, now);
        looked += 1;
    }
    looked
}

// The tick that stands for a slot in which nothing waits, for each.
fn idle_slots(alloc: Global) -> Result<Vec<u64>, AllocError>
    ensures { IfOk result (λ ticks. length ticks.items ≡ 256) }
{
    vec![in alloc; u64::MAX; SLOTS as usize]
}

// Notes that an item that is due at this tick waits in its slot.
fn note(earliest: &mut Vec<u64>, due: u64)
    requires { length earliest.old.items ≡ 256 }
    ensures { earliest.new.items ≡ set earliest.old.items (due % 256) (min (slice_index earliest.old.items (due % 256)) due) }
{
    let slot = (due % SLOTS as u64) as usize;
    earliest[slot] = cmp::min(earliest[slot], due);
}

impl Model for Timetable {
    ghost use Rattle.std.specs.Prelude.{length};
    ghost use Rattle.std.specs.Vec.{vec_capacity};
    ghost use Rattle.wq_delay.specs.Rows.{Rows, entries_of, place_in, later_than, IsTimetable, AreEarliest};

    ghost Value = { Rows };

    ghost view = { λ t. record { size = length t.places.items; entries = entries_of t.places.items; tick = t.tick } };

    ghost invariant = { λ t. IsTimetable t.places.items t.rings.next.items t.rings.previous.items t.row.items (vec_capacity t.row) t.front t.count t.tick
        × AreEarliest t.earliest.items (λ k. later_than t.tick (place_in t.places.items k)) };
}

impl Timetable {
    pub(crate) fn new(alloc: Global, size: u32, now: u64) -> Result<Timetable, AllocError>
        requires { size ≤ most_items }
        ensures { IfOk result (λ t. (t.size ≡ size) × (t.entries ≡ []) × (t.tick ≡ now)) }
    {
        Ok(Timetable {
            places: vec![in alloc; None; size as usize]?,
            rings: Rings::new(alloc, size + SLOTS)?,
            earliest: idle_slots(alloc)?,
            row: Vec::with_capacity(alloc, 3 * size as usize)?,
            front: 0,
            count: 0,
            tick: now,
        })
    }

    // How many items there may be: each that is on the table is below that.
    pub(crate) fn size(&self) -> u32
        ensures size { result ≡ self.now.size }
        ensures low { (k : ℕ) → on_table k self.now.entries ≡ true → k < self.now.size }
    {
        self.places.len() as u32
    }

    // How many items are on the table.
    pub(crate) fn len(&self) -> usize
        ensures count { result ≡ length self.now.entries }
        ensures few { result ≤ most_items }
    {
        self.count
    }

    // The present tick.
    pub(crate) fn tick(&self) -> u64
        ensures { result ≡ self.now.tick }
    {
        self.tick
    }

    // Whether the item is on the table.
    pub(crate) fn has(&self, item: u32) -> bool
        requires { item < self.now.size }
        ensures { result ≡ on_table item self.now.entries }
    {
        self.places[item as usize].is_some()
    }

    // Puts an item on the table that is not there, later than the present tick, with a later arming than all that stand there.
    pub(crate) fn put(&mut self, item: u32, due: u64, arming: u64)
        requires item { item < self.old.size }
        requires off { on_table item self.old.entries ≡ false }
        requires later { self.old.tick < due }
        requires last { AreArmedBefore arming self.old.entries }
        ensures size { self.new.size ≡ self.old.size }
        ensures tick { self.new.tick ≡ self.old.tick }
        ensures put { self.new.entries ≡ placed (record { due = due; arming = arming; item = item }) self.old.entries }
    {
        let slot = (due % SLOTS as u64) as u32;
        let head = self.places.len() as u32 + slot;
        self.places[item as usize] = Some(DuePlace { due, arming });
        self.rings.put_behind(item, head);
        note(&mut self.earliest, due);
        self.count += 1;
    }

    // Gives an item on the table another tick, later than the present one, and a later arming than all that stand there.
    pub(crate) fn replace(&mut self, item: u32, due: u64, arming: u64)
        requires item { item < self.old.size }
        requires later { self.old.tick < due }
        requires last { AreArmedBefore arming self.old.entries }
        ensures size { self.new.size ≡ self.old.size }
        ensures tick { self.new.tick ≡ self.old.tick }
        ensures placed { self.new.entries ≡ placed (record { due = due; arming = arming; item = item }) (without item self.old.entries) }
    {
        self.take(item);
        self.put(item, due, arming);
    }

    // Takes an item off the table. False where it is not there.
    pub(crate) fn take(&mut self, item: u32) -> bool
        requires { item < self.old.size }
        ensures size { self.new.size ≡ self.old.size }
        ensures tick { self.new.tick ≡ self.old.tick }
        ensures answer { result ≡ on_table item self.old.entries }
        ensures entries { self.new.entries ≡ without item self.old.entries }
    {
        let Some(place) = self.places[item as usize] else {
            return false;
        };
        if place.due > self.tick {
            self.rings.take_out(item);
        }
        self.places[item as usize] = None;
        self.count -= 1;
        true
    }

    // Leads the table on to a tick. How many slots it looked at, at each of them at least at its earliest tick.
    pub(crate) fn lead_on(&mut self, now: u64) -> u32
        requires { self.old.tick ≤ now }
        ensures size { self.new.size ≡ self.old.size }
        ensures tick { self.new.tick ≡ now }
        ensures entries { self.new.entries ≡ self.old.entries }
        ensures looked { result ≡ min (now - self.old.tick) 256 }
    {
        let places = self.places.as_slice();
        self.front = tidy(places, &mut self.row, self.front);
        let late = self.row.len();
        let looked = look_on(
            places,
            &mut self.rings,
            &mut self.row,
            &mut self.earliest,
            self.tick,
            now,
        );
        sort_behind(&mut self.row, late);
        self.tick = now;
        looked
    }

    // The first item, where it is due.
    pub(crate) fn first_due(&mut self) -> Option<u32>
        ensures same { self.new ≡ self.old }
        ensures first { MatchOption result (due_part self.old.tick self.old.entries ≡ []) (λ k. IsFirstDue self.old.tick k self.old.entries) }
        ensures low { IfSome result (λ k. k < self.old.size) }
    {
        self.front = first_there(&self.places, &self.row, self.front);
        if self.front == self.row.len() {
            return None;
        }
        Some(self.row[self.front].item)
    }

    // The items that are due at a tick, in order: those in the row, and those in the slots up to the tick.
    pub(crate) fn list_due(&self, alloc: Global, now: u64) -> Result<Vec<u32>, AllocError>
        ensures { IfOk result (λ list. list.items ≡ items (due_part now self.now.entries)) }
    {
        if self.count == 0 {
            return Ok(Vec::new(alloc));
        }
        let mut due = out_by(alloc, &self.places, &self.row, self.front, now)?;
        find_on(
            &self.places,
            &self.rings,
            &self.earliest,
            &mut due,
            self.tick,
            now,
        )?;
        sort(&mut due);
        items_of(alloc, &due)
    }
}
