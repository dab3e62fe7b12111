//! What happens to a queue.
ghost use Rattle.std.specs.Prelude.{◌≡◌, ◌↔◌, IsTrue};
ghost use Rattle.wq_words.specs.History.{accepted_by, begun_by, ended_by, sets_pending, clears_pending, starts_hold, stops_hold, is_drain, is_resume};
ghost use Rattle.wq_words.specs.Legal.{HasSeat, HasNumber};

use crate::layout::Layout;

/// Why a sender gave a held number back without pushing it.
#[derive(Clone, Copy, Debug, PartialEq, Eq)]
pub enum Why {
    /// The queue was seen closed.
    Closed,
    /// Other seats changed the head at each try.
    Contended,
    /// The sender changed its mind.
    Cancelled,
    /// The queue was seen draining.
    Draining,
}

/// What one atomic step adds to the history of a queue. The first four are by the sender that they name first, all
/// others by the owner; then comes the number.
#[derive(Clone, Copy, Debug, PartialEq, Eq)]
pub enum Event {
    /// The sender found the PENDING bit clear and set it: the number is held by it (`test_and_set_bit` in
    /// `queue_work`).
    Hold(u32, u32),
    /// The sender found the PENDING bit set, so `queue_work` answers false.
    Busy(u32, u32),
    /// The sender put the number that it holds on the list (`llist_add`).
    Push(u32, u32),
    /// The sender cleared the PENDING bit of a number that it holds.
    Back(u32, u32, Why),
    /// The owner took the whole list (`llist_del_all`).
    Take,
    /// The owner took the whole list and left the closed mark (`destroy_workqueue`).
    Close,
    /// The owner took the whole list and left the draining mark (`drain_workqueue`).
    Drain,
    /// The owner, with all that was accepted executed, ended the drain: the queue takes pushes again.
    Resume,
    /// The owner cleared the PENDING bit and began the execution.
    Begin(u32),
    /// The execution ended.
    End(u32),
    /// While the queue takes no push, closed or draining, the running execution queued the number behind all that waits
    /// (chain queueing in `drain_workqueue`).
    Chain(u32),
    /// While the queue takes no push, the running execution found the PENDING bit set.
    ChainBusy(u32),
    /// The owner, with all that was accepted executed, found the list empty and left it marked as resting: the next push
    /// wakes it, if no take or drain comes before it.
    Rest,
}

impl Event {
    /// The number that is accepted by it: it was pushed or chained.
    pub fn accepted_number(self) -> Option<u32>
        ensures accepted { result ≡ accepted_by self }
    {
        match self {
            Event::Push(_, number) | Event::Chain(number) => Some(number),
            _ => None,
        }
    }

    /// The number whose execution begins with it.
    pub fn begun_number(self) -> Option<u32>
        ensures begun { result ≡ begun_by self }
    {
        match self {
            Event::Begin(number) => Some(number),
            _ => None,
        }
    }

    /// The number whose execution ends with it.
    pub fn ended_number(self) -> Option<u32>
        ensures ended { result ≡ ended_by self }
    {
        match self {
            Event::End(number) => Some(number),
            _ => None,
        }
    }

    // Whether it sets the PENDING bit of the number.
    pub(crate) fn sets_pending(self, number: u32) -> bool
        ensures { result ≡ sets_pending number self }
    {
        match self {
            Event::Hold(_, held) => held == number,
            Event::Chain(chained) => chained == number,
            _ => false,
        }
    }

    // Whether it clears the PENDING bit of the number.
    pub(crate) fn clears_pending(self, number: u32) -> bool
        ensures { result ≡ clears_pending number self }
    {
        match self {
            Event::Back(_, returned, _) => returned == number,
            Event::Begin(begun) => begun == number,
            _ => false,
        }
    }

    // Whether the sender holds the number from it on.
    pub(crate) fn starts_hold(self, sender: u32, number: u32) -> bool
        ensures { result ≡ starts_hold sender number self }
    {
        match self {
            Event::Hold(holder, held) => held == number && holder == sender,
            _ => false,
        }
    }

    // Whether the sender held the number up to it.
    pub(crate) fn stops_hold(self, sender: u32, number: u32) -> bool
        ensures { result ≡ stops_hold sender number self }
    {
        match self {
            Event::Push(holder, pushed) => pushed == number && holder == sender,
            Event::Back(holder, returned, _) => returned == number && holder == sender,
            _ => false,
        }
    }

    // Whether it begins a drain.
    pub(crate) fn is_drain(self) -> bool
        ensures { result ≡ is_drain self }
    {
        matches!(self, Event::Drain)
    }

    // Whether it ends a drain.
    pub(crate) fn is_resume(self) -> bool
        ensures { result ≡ is_resume self }
    {
        matches!(self, Event::Resume)
    }

    /// Whether its sender, if it has one, is one of the queue's.
    pub fn has_seat(self, layout: &Layout) -> bool
        ensures seat { IsTrue result ↔ HasSeat layout.now self }
    {
        match self {
            Event::Hold(sender, _)
            | Event::Busy(sender, _)
            | Event::Push(sender, _)
            | Event::Back(sender, _, _) => sender < layout.senders,
            _ => true,
        }
    }

    /// Whether its number, if it has one, is one of the queue's, and an item where it is chained.
    pub fn has_number(self, layout: &Layout) -> bool
        ensures number { IsTrue result ↔ HasNumber layout.now self }
    {
        let count = layout.number_count();
        match self {
            Event::Hold(_, number)
            | Event::Busy(_, number)
            | Event::Push(_, number)
            | Event::Back(_, number, _)
            | Event::Begin(number)
            | Event::End(number) => number < count,
            Event::Chain(number) | Event::ChainBusy(number) => number < layout.items,
            Event::Take | Event::Close | Event::Drain | Event::Resume | Event::Rest => true,
        }
    }
}
