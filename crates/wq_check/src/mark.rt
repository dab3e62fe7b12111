//! What is seen of a queue from outside.
ghost use Rattle.std.specs.Prelude.{◌≡◌};
ghost use Rattle.wq_check.specs.Trace.{number_of};

/// What a trace shows of one item.
#[derive(Clone, Copy, Debug, PartialEq, Eq)]
pub enum Mark {
    /// A queueing of the item was answered true (`workqueue_queue_work`).
    Queue(u32),
    /// Its function was called (`workqueue_execute_start`).
    Start(u32),
    /// Its function returned (`workqueue_execute_end`).
    End(u32),
}

impl Mark {
    // The item that it is of.
    pub(crate) fn number(self) -> u32
        ensures { result ≡ number_of self }
    {
        match self {
            Mark::Queue(number) | Mark::Start(number) | Mark::End(number) => number,
        }
    }
}
