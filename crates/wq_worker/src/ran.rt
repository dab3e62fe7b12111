//! What one step of a worker did.
ghost use Rattle.std.specs.Prelude.{◌<◌};
ghost use Rattle.wq_words.specs.Numbers.{number_count};
ghost use Rattle.wq_worker.specs.Step.{IsKind};

use wq_words::Layout;

/// What one step of a worker did.
#[derive(Clone, Copy, Debug, PartialEq, Eq)]
pub enum Ran {
    /// The item was executed.
    Item(u32),
    /// The barrier was executed. Barriers are counted from 0, as by `Sender::flush_begin`.
    Barrier(u32),
    /// The stop item was executed.
    Stop,
    /// Nothing waits.
    Nothing,
    /// The number runs and has not ended, since the queueing of an item that it asked for was contended.
    Owing(u32),
}

impl Ran {
    /// What the execution of this number was.
    pub fn of(layout: Layout, number: u32) -> Ran
        requires { number < number_count layout }
        ensures { IsKind layout number result }
    {
        if number < layout.items {
            return Ran::Item(number);
        }
        if number - layout.items < layout.barriers {
            return Ran::Barrier(number - layout.items);
        }
        Ran::Stop
    }
}
