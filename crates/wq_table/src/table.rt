//! What a seat of a queue knows of its words, and which kinds of steps it makes.
use std::marker::PhantomData;
use trail::GhostList;
use wq_core::Private;
use wq_words::{Event, Layout};

/// What a seat of a queue knows, but for what is brought. No value of it is made.
pub struct Part {
    /// Its number.
    pub seat: u64,
    /// The size of the queue.
    pub layout: Layout,
    /// The history that it has seen.
    pub seen: GhostList<Event>,
    /// The words as its last step left them.
    pub words: GhostList<u64>,
    /// What it keeps in private.
    pub stage: Stage,
}

/// What a seat keeps in private.
pub enum Stage {
    /// A sender's last look and the number that it linked.
    Sends(Private),
    /// The number that the owner walks next, what it walked, and its batch, the two lists oldest first.
    Owns(Option<u32>, GhostList<u32>, GhostList<u32>),
}

/// The rule: the words and the private parts of all seats are a sound state of the machine, each seat has seen a
/// beginning of its history, with all its own events, and some seat all of it, and the links of what the owner took and has
/// not begun are as the owner left them. Where there are slots, what a number brought lies in its slot while it waits to be
/// walked.
pub struct Law;

// Which step of a seat an operation is.
pub(crate) trait Kind {
    ghost use Rattle.wq_table.specs.Plays as plays;

    ghost step: { plays.Kind };
}

/// Which part of a chair makes a step, by its place. A chair of fewer parts has its last one make it.
pub trait WhichPart {
    ghost use Rattle.std.specs.Prelude.{ℕ};

    ghost at: { ℕ };
}

/// The first part.
pub struct First;

impl WhichPart for First {
    ghost at = { 0 };
}

/// The second part.
pub struct Second;

impl WhichPart for Second {
    ghost at = { 1 };
}

// The part at the place makes the step of this kind.
pub(crate) struct Makes<K, P> {
    of: PhantomData<(K, P)>,
}

// The same of a store, where the new word says which step it is.
pub(crate) struct Stores<K, P> {
    of: PhantomData<(K, P)>,
}

pub(crate) struct HoldStep;

impl Kind for HoldStep {
    ghost use Rattle.wq_table.specs.Plays.{holds};

    ghost step = { holds };
}

pub(crate) struct LookStep;

impl Kind for LookStep {
    ghost use Rattle.wq_table.specs.Plays.{looks};

    ghost step = { looks };
}

pub(crate) struct LinkStep;

impl Kind for LinkStep {
    ghost use Rattle.wq_table.specs.Plays.{links};

    ghost step = { links };
}

pub(crate) struct PushStep;

impl Kind for PushStep {
    ghost use Rattle.wq_table.specs.Plays.{pushes};

    ghost step = { pushes };
}

pub(crate) struct FindClosedStep;

impl Kind for FindClosedStep {
    ghost use Rattle.wq_table.specs.Plays.{finds_closed};

    ghost step = { finds_closed };
}

pub(crate) struct FindDrainingStep;

impl Kind for FindDrainingStep {
    ghost use Rattle.wq_table.specs.Plays.{finds_draining};

    ghost step = { finds_draining };
}

pub(crate) struct GiveUpStep;

impl Kind for GiveUpStep {
    ghost use Rattle.wq_table.specs.Plays.{gives_up};

    ghost step = { gives_up };
}

pub(crate) struct CancelStep;

impl Kind for CancelStep {
    ghost use Rattle.wq_table.specs.Plays.{cancels};

    ghost step = { cancels };
}

pub(crate) struct CheckStep;

impl Kind for CheckStep {
    ghost use Rattle.wq_table.specs.Plays.{checks};

    ghost step = { checks };
}

pub(crate) struct TakeStep;

impl Kind for TakeStep {
    ghost use Rattle.wq_table.specs.Plays.{takes};

    ghost step = { takes };
}

pub(crate) struct CloseStep;

impl Kind for CloseStep {
    ghost use Rattle.wq_table.specs.Plays.{closes};

    ghost step = { closes };
}

pub(crate) struct DrainStep;

impl Kind for DrainStep {
    ghost use Rattle.wq_table.specs.Plays.{drains};

    ghost step = { drains };
}

pub(crate) struct ResumeStep;

impl Kind for ResumeStep {
    ghost use Rattle.wq_table.specs.Plays.{resumes};

    ghost step = { resumes };
}

pub(crate) struct WalkStep;

impl Kind for WalkStep {
    ghost use Rattle.wq_table.specs.Plays.{walks};

    ghost step = { walks };
}

pub(crate) struct TurnStep;

impl Kind for TurnStep {
    ghost use Rattle.wq_table.specs.Plays.{turns_link};

    ghost step = { turns_link };
}

pub(crate) struct BeginStep;

impl Kind for BeginStep {
    ghost use Rattle.wq_table.specs.Plays.{begins};

    ghost step = { begins };
}

pub(crate) struct EndStep;

impl Kind for EndStep {
    ghost use Rattle.wq_table.specs.Plays.{ends};

    ghost step = { ends };
}

pub(crate) struct ChainStep;

impl Kind for ChainStep {
    ghost use Rattle.wq_table.specs.Plays.{chains};

    ghost step = { chains };
}

pub(crate) struct RestStep;

impl Kind for RestStep {
    ghost use Rattle.wq_table.specs.Plays.{rests};

    ghost step = { rests };
}

// The seats of a view see all that has happened.
pub(crate) struct SeeAll;

// The first part goes to a new seat.
pub(crate) struct Off;

// A new seat that speaks for nobody, which can stand in for one that is taken out of its place.
pub(crate) struct Blank;

// The second seat's parts come first, and it is left with none.
pub(crate) struct Ahead;
