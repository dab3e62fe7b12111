//! What the calls of a queue and of a delay table answer.

/// What a queueing answers.
#[derive(Clone, Copy, Debug, PartialEq, Eq)]
pub enum Answer {
    /// The number was queued (`queue_work` answers true): it is executed once at most, and has been once a close or a drain
    /// behind it has ended. `first` says that the list was empty (`llist_add` answers true), `wakes` that the queue rested:
    /// where its owner parks after a rest, whoever is answered so wakes it.
    Queued { first: bool, wakes: bool },
    /// The number was pending already, and nothing was changed (`queue_work` answers false). Whoever set its bit may yet
    /// give it back: then it does not run, and whoever was told this learns nothing of it.
    Pending,
    /// The queue is closed. The number is not held by the caller.
    Closed,
    /// Other seats changed the head at each try. The number is not held by the caller.
    Contended,
    /// The queue was seen draining. The number is not held by the caller.
    Draining,
}

/// What pushing a held number answers.
#[derive(Clone, Copy, Debug, PartialEq, Eq)]
pub enum Posted {
    /// The number was queued, as `Answer::Queued`.
    Queued { first: bool, wakes: bool },
    /// The queue is closed, and the number was given back.
    Closed,
    /// Other seats changed the head at each try. The number is still held.
    Contended,
    /// The queue was seen draining. The number is still held.
    Draining,
}

/// What an arming answers.
#[derive(Clone, Copy, Debug, PartialEq, Eq)]
pub enum Armed {
    /// The delay is 0 and the item was queued, as `Answer::Queued`.
    Queued { first: bool, wakes: bool },
    /// The item stands on the table (`queue_delayed_work` answers true).
    OnTable,
    /// The item was pending already, and nothing was changed (`queue_delayed_work` answers false).
    Pending,
    /// The delay is 0 and the queue is closed. The item is not held.
    Closed,
    /// The delay is 0 and other seats changed the head at each try. The item is not held.
    Contended,
    /// The delay is 0 and the queue was seen draining. The item is not held.
    Draining,
    /// The delay is above `2^32 - 1`, or its tick or the number of the arming above `2^64 - 1`. Nothing was changed.
    TooFar,
    /// Memory was refused. The item is not held. No call of `wq_delay` answers it, since a table takes all its memory when it is made.
    Memory,
}

/// What a modification answers.
#[derive(Clone, Copy, Debug, PartialEq, Eq)]
pub enum Modified {
    /// The item was idle and was queued, or put on the table (`mod_delayed_work` answers false).
    WasIdle,
    /// The item was on the table. It has its new tick there, or was queued (`mod_delayed_work` answers true).
    Moved,
    /// The item was pending and not on the table, and nothing was changed.
    Pending,
    /// The delay is 0 and the queue is closed. The item is not held and not on the table.
    Closed,
    /// The delay is 0 and other seats changed the head at each try. An item on the table stays there; another is not held.
    Contended,
    /// The delay is 0 and the queue was seen draining. An item on the table stays there; another is not held.
    Draining,
    /// The delay is above `2^32 - 1`, or its tick or the number of the arming above `2^64 - 1`. Nothing was changed.
    TooFar,
    /// Memory was refused. An item on the table stays there as it was; another is not held. No call of `wq_delay` answers it.
    Memory,
}
