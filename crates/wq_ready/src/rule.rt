//! The rule of a ready queue, what its passes know, and what its steps tell.
use crate::event::ReadyEvent;
use crate::size::Size;
use crossbeam_queue::RuledArrayQueue;
use crossbeam_queue::protocol::{Lesson, Outcome, Protocol, Split};
use std::marker::{Brand, PhantomData};
use trail::GhostList;

/// What a pass knows: the size, the callers that it speaks for, `count` of them from `first` on, and the history that it has
/// seen. No value of it is made.
pub struct PassPart {
    pub size: Size,
    pub first: u64,
    pub count: u64,
    pub seen: GhostList<ReadyEvent>,
}

/// What waits and what the passes know belong to one history.
pub struct Law;

impl Protocol<u32, PassPart> for Law {
    ghost use Rattle.wq_ready.specs.Rule.{KeptReady, opening_part};

    ghost holds = { KeptReady };

    ghost first = { opening_part };
}

/// Numbers of queues, under that rule.
pub type Numbers = RuledArrayQueue<u32, PassPart, Law>;

/// A size that each call picks for itself, since a rule has no parameter that could carry it.
pub trait HasSize {
    ghost use Rattle.wq_ready.specs.declared.size.Size.{Size};

    ghost size: { Size };
}

impl HasSize for Brand {
    ghost size = { record { queues = 0; callers = 0 } };
}

/// The first pass learns the size, and speaks for all callers.
pub struct Sizes<B> {
    marker: PhantomData<B>,
}

impl<B: HasSize> Split<PassPart> for Sizes<B> {
    ghost use Rattle.wq_ready.specs.Rule.{all_callers, no_caller};

    ghost left = { λ ready_part. all_callers B.size };

    ghost right = { λ ready_part. no_caller B.size };
}

/// The first caller gets a pass of its own.
pub struct Parts;

impl Split<PassPart> for Parts {
    ghost use Rattle.wq_ready.specs.Rule.{first_caller, later_callers};

    ghost left = { later_callers };

    ghost right = { first_caller };
}

/// The caller announces.
pub struct Announcing;

impl Outcome<u32, PassPart> for Announcing {
    ghost use Rattle.wq_ready.specs.Rule.{announces};

    ghost then = { announces };
}

impl Lesson<u32, PassPart> for Announcing {
    ghost use Rattle.wq_ready.specs.Rule.{CanWait};

    ghost fact = { CanWait };
}

/// The caller picks.
pub struct Picking;

impl Outcome<u32, PassPart> for Picking {
    ghost use Rattle.wq_ready.specs.Rule.{picks};

    ghost then = { picks };
}

impl Lesson<u32, PassPart> for Picking {
    ghost use Rattle.wq_ready.specs.Rule.{CanWait};

    ghost fact = { CanWait };
}
