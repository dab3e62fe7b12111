//! What is called around each execution of an item.

/// Called by the thread that has the queue in hand, around each execution of an item within a turn's work. What a pool executes as
/// it is taken apart passes no gate.
pub trait Gate {
    /// The item is about to be run.
    fn before(&self, queue: u32, item: u32);

    /// The item's execution has ended.
    fn after(&self, queue: u32, item: u32);
}

/// A gate that does nothing.
pub struct NoGate;

impl Gate for NoGate {
    fn before(&self, _queue: u32, _item: u32) {}

    fn after(&self, _queue: u32, _item: u32) {}
}
