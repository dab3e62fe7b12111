//! What a script asks for.
ghost use Rattle.std.specs.Prelude.{◌↔◌, All, IsTrue};
ghost use Rattle.wq_text.specs.Fits.{Fits, IsItem};

use arrayvec::ArrayVec;
use wq_words::Layout;

/// The items that one run of an item's function answers, to be queued in this order: at most four.
pub type Follow = ArrayVec<u32, 4>;

/// One command of a script. Senders, items and barriers are numbers of the script, each counted from 0.
#[derive(Drop)]
pub enum Command {
    /// The sender queues the item (`queue_work`).
    Queue { sender: u32, item: u32 },
    /// At most so many executions, up to that of the stop item.
    Run(u32),
    /// The queue is closed, and what waits on its list is taken.
    Close,
    /// Seven lines of counts.
    Report,
    /// From now on the item's function answers these items.
    Follow { item: u32, follow: Follow },
    /// The sender queues the barrier (`flush_workqueue` without its wait).
    Flush { sender: u32, barrier: u32 },
    /// The sender asks whether the barrier's PENDING bit is clear.
    Done { sender: u32, barrier: u32 },
    /// The sender queues the stop item.
    Stop(u32),
    /// At most so many executions of a closed queue: the drain of version 1, which an open queue answers `not closed`.
    Drain(u32),
    /// At most so many executions of a queue that takes no push meanwhile (`drain_workqueue`): the drain of version 2, in which
    /// an open queue drains, and takes pushes again once nothing is left.
    DrainAndResume(u32),
    /// Whether the item's PENDING bit is set (`work_pending`).
    Check(u32),
    /// The item is queued after so many ticks (`queue_delayed_work`).
    Arm { item: u32, delay: u64 },
    /// The item goes off the delay table (`cancel_delayed_work`).
    Cancel(u32),
    /// The item's delay begins again, with so many ticks (`mod_delayed_work`).
    Modify { item: u32, delay: u64 },
    /// The tick is now this one, and the items that are due are queued.
    Advance(u64),
}

/// Whether the queue has all of these items.
fn has_items(layout: &Layout, items: &[u32]) -> bool
    ensures { IsTrue result ↔ All (IsItem layout.now) items.now }
{
    let count = layout.items;
    items.iter().all(|item| *item < count)
}

impl Command {
    /// Whether the queue has the senders, items and barriers that the command names.
    pub fn fits(&self, layout: &Layout) -> bool
        ensures within { IsTrue result ↔ Fits layout.now self.now }
    {
        match self {
            Command::Queue { sender, item } => *sender < layout.senders && *item < layout.items,
            Command::Follow { item, follow } => *item < layout.items && has_items(layout, follow),
            Command::Flush { sender, barrier } | Command::Done { sender, barrier } => {
                *sender < layout.senders && *barrier < layout.barriers
            }
            Command::Stop(sender) => *sender < layout.senders,
            Command::Check(item)
            | Command::Cancel(item)
            | Command::Arm { item, .. }
            | Command::Modify { item, .. } => *item < layout.items,
            Command::Run(_)
            | Command::Drain(_)
            | Command::DrainAndResume(_)
            | Command::Close
            | Command::Report
            | Command::Advance(_) => true,
        }
    }
}
