//! What the items of a plain queue bring: nothing.

/// Nobody makes one: the table of a plain queue has no slots.
#[derive(Drop)]
pub enum Bare {}
