//! Rings of places: each place is linked to the next of its ring and to the previous one.
ghost use Rattle.std.specs.Prelude.{◌≡◌, ◌<◌, length, set, slice_index, IfOk};
ghost use Rattle.std.specs.List.{range_with_len};

use std::alloc::{AllocError, Global};

// Two rows of links. A place that is its own next is alone.
#[derive(Drop)]
pub(crate) struct Rings {
    pub(crate) next: Vec<u32>,
    pub(crate) previous: Vec<u32>,
}

impl Rings {
    // Rings of one place each.
    pub(crate) fn new(alloc: Global, places: u32) -> Result<Rings, AllocError>
        ensures next { IfOk result (λ r. r.next.items ≡ range_with_len 0 places) }
        ensures previous { IfOk result (λ r. r.previous.items ≡ range_with_len 0 places) }
    {
        let next = (0..places).collect(alloc)?;
        let previous = (0..places).collect(alloc)?;
        Ok(Rings { next, previous })
    }

    // Puts a place that is alone behind the last of a ring: that is the one before its head.
    pub(crate) fn put_behind(&mut self, place: u32, head: u32)
        requires place { (place < length self.old.next.items) × (place < length self.old.previous.items) }
        requires head { (head < length self.old.next.items) × (head < length self.old.previous.items) }
        requires last { slice_index self.old.previous.items head < length self.old.next.items }
        ensures next { self.new.next.items ≡ set (set self.old.next.items (slice_index self.old.previous.items head) place) place head }
        ensures previous { self.new.previous.items ≡ set (set self.old.previous.items head place) place (slice_index self.old.previous.items head) }
    {
        let last = self.previous[head as usize];
        self.next[last as usize] = place;
        self.next[place as usize] = head;
        self.previous[head as usize] = place;
        self.previous[place as usize] = last;
    }

    // Takes a place out of its ring, and leaves it alone.
    pub(crate) fn take_out(&mut self, place: u32)
        requires place { (place < length self.old.next.items) × (place < length self.old.previous.items) }
        requires next { slice_index self.old.next.items place < length self.old.previous.items }
        requires previous { slice_index self.old.previous.items place < length self.old.next.items }
        ensures next { self.new.next.items
            ≡ set (set self.old.next.items (slice_index self.old.previous.items place) (slice_index self.old.next.items place)) place place }
        ensures previous { self.new.previous.items
            ≡ set (set self.old.previous.items (slice_index self.old.next.items place) (slice_index self.old.previous.items place)) place place }
    {
        let after = self.next[place as usize];
        let before = self.previous[place as usize];
        self.next[before as usize] = after;
        self.next[place as usize] = place;
        self.previous[after as usize] = before;
        self.previous[place as usize] = place;
    }
}
