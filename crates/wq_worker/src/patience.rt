//! How a worker that serves passes time between its takes.
use crossbeam_utils::Backoff;
use crossbeam_utils::sync::Parker;
use std::sync::Wait;
use wq_live::Spins;

/// A take of fewer numbers than this is short: the worker is quicker than the senders. Each take moves the line of the head
/// from a sender to the worker and back, which is most of what a number costs then. So a worker that serves passes a pause
/// after a short take, and the next one finds more; an item that comes alone behind it may wait for the pause.
pub const SHORT_TAKE: u32 = 128;

/// What a worker that serves knows of its last steps.
#[derive(Drop)]
pub(crate) struct Patience {
    // How many executions ended since the last take.
    ended: u32,
    // How long nothing has waited.
    idle: Backoff,
    // What passes after a short take.
    spins: Spins,
}

impl Patience {
    pub(crate) fn new(spins: Spins) -> Patience {
        Patience {
            ended: 0,
            idle: Backoff::new(),
            spins,
        }
    }

    /// After an execution, with so many numbers that were taken and wait. A take comes next where there is none: then the pause
    /// passes, if the last take was short.
    pub(crate) fn after_execution(&mut self, waiting: u32) {
        self.idle.reset();
        self.ended = self.ended.saturating_add(1);
        if waiting > 0 {
            return;
        }
        if self.ended < SHORT_TAKE {
            self.spins.pass();
        }
        self.ended = 0;
    }

    /// Where nothing waits. It snoozes some times before it parks, so that a queue that gets its next number soon pays for no
    /// call of the system.
    pub(crate) fn snooze_or_park<R: Wait>(&mut self, rt: &R, parker: &Parker) {
        if self.idle.is_completed() {
            parker.park(rt);
        } else {
            self.idle.snooze();
        }
    }
}
