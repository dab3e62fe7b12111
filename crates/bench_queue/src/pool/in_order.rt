//! A work that counts its runs, and those of them that are out of their sender's order.
ghost use Rattle.std.specs.Prelude.{◌≡◌, [], IfOk};

use std::alloc::{AllocError, Global};
use std::mem::replace;
use trail::Trail;
use wq_worker::{Follow, Work};

/// How many items a sender has on one queue.
pub const SLICE: u32 = 64;

/// A work whose senders queue their slices of items in turn, each from the first item to the last, again and again.
#[derive(Drop)]
pub struct InOrder {
    ran: Trail,
    count: u64,
    strays: u64,
    // Which item of each sender comes next.
    next: Vec<u32>,
}

/// Whether it is another item than what comes next of its sender, which is then the one after it.
fn is_stray(next: &mut [u32], item: u32) -> bool {
    let (sender, place) = (item / SLICE, item % SLICE);
    let follows = sender
        .saturating_mul(SLICE)
        .saturating_add((place + 1) % SLICE);
    match next.get_mut(sender as usize) {
        Some(next) => replace(next, follows) != item,
        None => true,
    }
}

impl InOrder {
    pub fn new(alloc: Global, senders: u32) -> Result<InOrder, AllocError>
        ensures { IfOk result (λ work. work.ran.items ≡ []) }
    {
        let mut next = Vec::new(alloc);
        for sender in 0..senders {
            next.push(sender.saturating_mul(SLICE))?;
        }
        Ok(InOrder {
            ran: Trail::new(),
            count: 0,
            strays: 0,
            next,
        })
    }

    /// How many items it has run.
    pub fn count(&self) -> u64 {
        self.count
    }

    /// How many of them were not what comes next of their sender.
    pub fn strays(&self) -> u64 {
        self.strays
    }
}

impl Work for InOrder {
    ghost log = { λ w. w.ran.items };

    ghost may = { λ w k follow v. follow ≡ [] };

    fn run(&mut self, item: u32) -> Follow {
        self.ran = self.ran.and(item);
        self.count = self.count.saturating_add(1);
        let stray = is_stray(self.next.as_mut_slice(), item);
        self.strays = self.strays.saturating_add(u64::from(stray));
        Follow::new()
    }
}
