//! How large a ready queue is.

/// How many queues can be announced, and by how many callers. Both are numbered from 0. As many announcements can wait as
/// there are queues.
#[derive(Clone, Copy, Debug, PartialEq, Eq)]
pub struct Size {
    /// How many queues.
    pub queues: u32,
    /// How many callers.
    pub callers: u32,
}
