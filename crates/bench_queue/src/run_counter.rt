//! A work that counts its runs where another thread can see them.
ghost use Rattle.std.specs.Prelude.{◌≡◌, []};

use std::alloc::{AllocError, Global};
use std::sync::Arc;
use std::sync::atomic::{AtomicU64, Ordering};
use trail::Trail;
use wq_worker::{Follow, Work};

/// What a thread sees of a work's runs: none yet.
pub fn shown(alloc: Global) -> Result<Arc<AtomicU64, Global>, AllocError> {
    Ok(Arc::new(alloc, AtomicU64::new(0))?)
}

/// A work that shows how many items it has run from so many on, and asks for nothing to follow.
#[derive(Drop)]
pub struct RunCounter {
    ran: Trail,
    count: u64,
    from: u64,
    shown: Arc<AtomicU64, Global>,
}

impl RunCounter {
    pub fn new(from: u64, shown: Arc<AtomicU64, Global>) -> RunCounter
        ensures none { result.ran.items ≡ [] }
    {
        RunCounter {
            ran: Trail::new(),
            count: 0,
            from,
            shown,
        }
    }

    /// How many items it has run.
    pub fn count(&self) -> u64 {
        self.count
    }
}

impl Work for RunCounter {
    ghost log = { λ w. w.ran.items };

    ghost may = { λ w k follow v. follow ≡ [] };

    fn run(&mut self, item: u32) -> Follow {
        self.ran = self.ran.and(item);
        self.count = self.count.saturating_add(1);
        if self.count >= self.from {
            self.shown.store(self.count, Ordering::SeqCst);
        }
        Follow::new()
    }
}
