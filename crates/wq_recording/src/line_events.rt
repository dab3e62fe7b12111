//! What a line of a history tells.
use wq_words::Event;

/// The events that a line of a history tells, in order: one, or two that came together.
#[derive(Clone, Copy, Debug, PartialEq, Eq)]
pub(crate) struct LineEvents {
    /// The one event, or the first of two.
    pub first: Event,
    /// The event that came with it.
    pub second: Option<Event>,
}
