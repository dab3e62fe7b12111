//! What each item's function answers, as the work of a worker.
ghost use Rattle.std.specs.Prelude.{◌≡◌, ◌≤◌, [], length, slice_set, replicate, IfOk};
ghost use Rattle.wq_meaning.specs.Execution.{follow_of, no_follow};

use arrayvec::ArrayVec;
use std::alloc::{AllocError, Global};
use trail::Trail;
use wq_worker::{Follow, Work};

// For each item the list that its function answers, empty at first.
#[derive(Drop)]
pub(crate) struct Lists {
    follows: Vec<Follow>,
    ran: Trail,
}

// A list of the same items.
fn copy_of(items: &[u32]) -> Follow
    requires { length items.now ≤ 4 }
    ensures { result.items ≡ items.now }
{
    let mut copy = Follow::new();
    for item in items {
        copy.push(*item);
    }
    copy
}

impl Work for Lists {
    ghost log = { λ w. w.ran.items };

    ghost may = { λ w k f v. (f ≡ follow_of w.follows.items k) × (v.follows ≡ w.follows) };

    fn run(&mut self, item: u32) -> Follow {
        self.ran = self.ran.and(item);
        match self.follows.get(item as usize) {
            Some(follow) => copy_of(follow.as_slice()),
            None => Follow::new(),
        }
    }
}

impl Lists {
    // Empty lists for so many items.
    pub(crate) fn new(alloc: Global, items: u32) -> Result<Lists, AllocError>
        ensures lists { IfOk result (λ w. w.follows.items ≡ replicate items no_follow) }
        ensures unrun { IfOk result (λ w. w.ran.items ≡ []) }
    {
        Ok(Lists {
            follows: vec![in alloc; Follow::new(); items as usize]?,
            ran: Trail::new(),
        })
    }

    // From now on the item's function answers this list.
    pub(crate) fn set(&mut self, item: u32, follow: &Follow)
        ensures lists { self.new.follows.items ≡ slice_set self.old.follows.items item follow.now }
        ensures ran { self.new.ran ≡ self.old.ran }
    {
        if let Some(place) = self.follows.get_mut(item as usize) {
            *place = copy_of(follow.as_slice());
        }
    }
}
