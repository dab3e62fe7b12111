//! What a seat of a queue may do to its words in one atomic step, and what it is answered.
use wq_words::{Head, Why};

/// Whose step it is.
#[derive(Clone, Copy, Debug, PartialEq, Eq)]
pub enum Seat {
    /// The sender of this number.
    Sender(u32),
    /// The one who takes and executes.
    Owner,
}

/// One atomic step: an operation on one word of the queue. The first six are a sender's, the others the owner's.
#[derive(Clone, Copy, Debug, PartialEq, Eq)]
pub enum Step {
    /// Sets the number's PENDING bit (`test_and_set_bit` in `queue_work`).
    Hold(u32),
    /// Loads the head.
    Look,
    /// Stores the head that was seen as the link of a held number (`llist_add`, before its exchange).
    Link(u32),
    /// Exchanges the head that was seen for the linked number (`llist_add`).
    Push(u32),
    /// Clears the PENDING bit of a held number.
    Back(u32, Why),
    /// Loads the number's PENDING bit (`work_pending`).
    Check(u32),
    /// Takes the whole list (`llist_del_all`).
    Take,
    /// Takes the whole list and leaves the closed mark.
    Close,
    /// Takes the whole list and leaves the draining mark (`drain_workqueue`).
    Drain,
    /// Takes the draining mark away: the list is empty, and takes pushes again.
    Resume,
    /// Loads the link of the number that is to be walked next, or of the oldest taken number once all is walked.
    Walk,
    /// Clears the PENDING bit of the oldest taken number, which then runs.
    Begin,
    /// Counts the execution that runs as ended.
    End,
    /// Sets an item's PENDING bit and queues it behind all that waits (chain queueing in `drain_workqueue`).
    Chain(u32),
    /// Stores the link of a number that was taken and walked and has not begun (`llist_reverse_order`): another number, or
    /// the end.
    Turn(u32, Option<u32>),
    /// Marks the empty list as resting, where nothing was pushed since it was taken last.
    Rest,
}

/// What an enabled step is answered.
#[derive(Clone, Copy, Debug, PartialEq, Eq)]
pub enum Reply {
    /// To Hold: the bit was clear, and the sender holds the number now.
    Held,
    /// To Hold: the bit was set.
    Busy,
    /// To Look: the head.
    Looked(Head),
    /// To Link.
    Linked,
    /// To Push: the exchange was made. `first` says that the list was empty, `wakes` that it rested.
    Pushed { first: bool, wakes: bool },
    /// To Push and Rest: the head was another, and nothing was exchanged.
    Lost,
    /// To Back.
    GivenBack,
    /// To Check: the bit is set.
    Pending,
    /// To Check: the bit is clear.
    Idle,
    /// To Take: the head that was taken.
    Took(Head),
    /// To Close: the head that was taken.
    Closed(Head),
    /// To Drain: the head that was taken.
    Drained(Head),
    /// To Resume.
    Resumed,
    /// To Walk: the number that the link leads to, if any.
    Walked(Option<u32>),
    /// To Begin: the number that runs now.
    Began(u32),
    /// To End: the number that ran.
    Ended(u32),
    /// To Chain: the bit was clear, and the item waits behind all others now.
    Chained,
    /// To Chain: the bit was set.
    ChainBusy,
    /// To Turn.
    Turned,
    /// To Rest: the list is marked as resting.
    Rested,
}

/// What a sender keeps in private beside the numbers that it holds: the head word of its last look, and the number that
/// it linked to it.
#[derive(Clone, Copy, Debug, PartialEq, Eq)]
pub struct Private {
    /// The head word of its last look, if it has not tried a push since.
    pub seen: Option<u64>,
    /// The number that it linked to that word.
    pub linked: Option<u32>,
}
