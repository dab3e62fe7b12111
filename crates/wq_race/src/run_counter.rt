//! A work that counts its runs.
ghost use Rattle.std.specs.Prelude.{◌≡◌, [], length};
ghost use Rattle.wq_words.specs.Counting.{capped};

use trail::Trail;
use wq_worker::{Follow, Work};

/// A work that counts its runs, and asks for nothing to follow.
#[derive(Drop)]
pub struct RunCounter {
    ran: Trail,
    count: u64,
    ghost counted: { count ≡ capped (length ran.items) },
}

impl RunCounter {
    /// A work that has run nothing.
    pub fn new() -> RunCounter
        ensures none { result.ran.items ≡ [] }
    {
        RunCounter {
            ran: Trail::new(),
            count: 0,
        }
    }

    /// How many items it ran. The count stops at `2^64 - 1`.
    pub fn count(&self) -> u64
        ensures ran { result ≡ capped (length self.now.ran.items) }
    {
        self.count
    }
}

impl Work for RunCounter {
    ghost log = { λ w. w.ran.items };

    ghost may = { λ w k follow v. follow ≡ [] };

    fn run(&mut self, item: u32) -> Follow {
        self.ran = self.ran.and(item);
        self.count = self.count.saturating_add(1);
        Follow::new()
    }
}
