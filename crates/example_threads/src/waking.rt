//! How a sender wakes whoever executes what it queued.
use crossbeam_utils::sync::{Parker, Unparker};
use std::alloc::{AllocError, Global};
use wq_live::Answer;

/// Which answer of a queueing wakes.
#[derive(Clone, Copy)]
pub(crate) enum WakesOn {
    /// `wakes`, for an owner that rests before it parks: once a rest, not once an item.
    Rest,
    /// `first`, for a worker that serves: it parks and never rests, so `wakes` says nothing of it.
    EmptyList,
}

/// Wakes whoever executes, where the answer of a queueing says so.
#[derive(Drop)]
pub(crate) struct Waker {
    pub(crate) unparker: Unparker,
    pub(crate) on: WakesOn,
}

/// A parker for whoever executes, and a waker that unparks it.
pub(crate) fn parker_and_waker(alloc: Global, on: WakesOn) -> Result<(Parker, Waker), AllocError> {
    let parker = Parker::new(alloc)?;
    let unparker = parker.unparker().clone()?;
    Ok((parker, Waker { unparker, on }))
}

impl Waker {
    pub(crate) fn wake(&self, answer: Answer) {
        let Answer::Queued { first, wakes } = answer else {
            return;
        };
        let is_wanted = match self.on {
            WakesOn::Rest => wakes,
            WakesOn::EmptyList => first,
        };
        if is_wanted {
            self.unparker.unpark();
        }
    }
}
