//! What was found of a recording.
use crate::violation::Violation;

/// What is said of a recording, as text, the first event that is not legal, if any, and how many numbers its legal events leave
/// undone.
#[derive(Drop)]
pub struct Finding {
    /// What is said, in lines.
    pub text: Vec<u8>,
    /// Where its first event stands that is not legal, and what is said against it; none where all of it is legal.
    pub violation: Option<Violation>,
    /// Whether all of it is legal.
    pub is_legal: bool,
    /// How many numbers its legal events leave undone.
    pub left: usize,
}
