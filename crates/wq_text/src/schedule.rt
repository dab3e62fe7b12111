//! A schedule that was read.
ghost use Rattle.std.specs.Prelude.{◌≡◌, All};
ghost use Rattle.wq_text.specs.Turns.{PlacedIn, All_PlacedIn-prop};

use wq_core::{Seat, Step};
use wq_words::Layout;

/// The numbers of a queue, and the steps of its seats in turn: seats and numbers are the queue's.
#[derive(Drop)]
pub struct Schedule {
    layout: Layout,
    turns: Vec<(Seat, Step)>,
    ghost fits: { All (PlacedIn layout) turns.items } by { All_PlacedIn-prop layout turns.items },
}

impl Schedule {
    ghost use Rattle.wq_text.specs.Schedule.{schedule_layout, turns_of};

    /// A schedule of these turns.
    pub fn new(layout: Layout, turns: Vec<(Seat, Step)>) -> Schedule
        requires { All (PlacedIn layout) turns.items }
        ensures layout { schedule_layout result ≡ layout }
        ensures turns { turns_of result ≡ turns.items }
    {
        Schedule { layout, turns }
    }

    /// The numbers of its queue.
    pub fn layout(&self) -> &Layout
        ensures numbers { result.now ≡ schedule_layout self.now }
    {
        &self.layout
    }

    /// Whose step it is and which, in turn.
    pub fn turns(&self) -> &[(Seat, Step)]
        ensures value { result.now ≡ turns_of self.now }
        ensures fits { All (PlacedIn (schedule_layout self.now)) result.now }
    {
        &self.turns
    }
}
