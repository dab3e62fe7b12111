//! What a queueing of an item with a value answers.

/// What a queueing of an item with a value answers. Where the item was not queued the very value comes back.
#[derive(Drop)]
pub enum ValueAnswer<V> {
    /// The item was queued with its value, as `Answer::Queued`: the execution that it becomes is handed that value.
    Queued { first: bool, wakes: bool },
    /// The item was pending already, and nothing was changed.
    Pending(V),
    /// The queue is closed. The item is not held by the caller.
    Closed(V),
    /// Other seats changed the list at each try. The item is not held by the caller.
    Contended(V),
    /// The queue was seen draining. The item is not held by the caller.
    Draining(V),
}
