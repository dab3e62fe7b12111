//! Plans of a run of a queue by live threads.
ghost use Rattle.wq_plan.specs.Plan.{AreInPlanLimits, IsLayoutOf};

use wq_words::Layout;

/// So many queues and threads that serve them, and so many senders in threads of their own, each of which queues so many items
/// of its own on each queue.
#[derive(Clone, Copy, Debug, PartialEq, Eq)]
pub struct Plan {
    /// 1 to 8.
    pub queues: u32,
    /// 1 to 8.
    pub workers: u32,
    /// 1 to 32.
    pub senders: u32,
    /// 1 to 4,096, and at most 4,096 over all senders.
    pub own: u32,
    ghost in_limits: { AreInPlanLimits queues workers senders own },
}

impl Plan {
    /// The size of each queue: the senders' own items, one barrier, and two senders more, the worker's and the program's.
    pub fn layout(self) -> Layout
        ensures size { IsLayoutOf self.senders self.own result }
    {
        match Layout::new(self.senders * self.own, 1, self.senders + 2) {
            Ok(layout) => layout,
            Err(_) => unreachable!(),
        }
    }
}
