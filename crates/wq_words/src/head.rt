//! The codes of the head word.
ghost use Rattle.std.specs.Prelude.{◌≡◌, Some, IfSome};
ghost use Rattle.wq_words.specs.declared.head.Head.{Head};
ghost use Rattle.wq_words.specs.Head.{head_word, IsWordOf, IsCodable};

/// The word of an empty list that does not rest: its owner has taken since it rested last, so a push need not wake it. An
/// empty list that rests has the word 0.
pub const BUSY: u64 = u64::MAX - 1;

// The word of a queue that drains.
const DRAINING: u64 = u64::MAX - 2;

/// What the head word of a queue says: the list is empty, this number was pushed last, or the queue takes no push:
/// it is closed, or it drains.
#[derive(Clone, Copy, Debug, PartialEq, Eq)]
pub enum Head {
    /// No number stands on the list.
    Empty,
    /// The number that stands first on the list: it was pushed last (`llist_head`).
    Item(u32),
    /// The queue was closed, and takes no push any more.
    Closed,
    /// The queue drains, and takes no push until it is resumed.
    Draining,
}

impl Head {
    /// The word that codes it: 0 for `Empty`, the number and 1 for `Item`, all bits set for `Closed`, `2^64 - 3` for
    /// `Draining`.
    pub fn to_word(self) -> u64
        ensures word { result ≡ head_word self }
    {
        match self {
            Head::Empty => 0,
            Head::Item(number) => u64::from(number) + 1,
            Head::Closed => u64::MAX,
            Head::Draining => DRAINING,
        }
    }

    /// What the word codes: what `to_word` was given, and `Empty` for `BUSY` too; `None` for a word that codes nothing.
    pub fn from_word(word: u64) -> Option<Head>
        ensures coded { IfSome result (λ head. IsCodable head × IsWordOf head word) }
        ensures given_back { (head : Head) → IsCodable head → IsWordOf head word → result ≡ Some head }
    {
        match word {
            0 | BUSY => Some(Head::Empty),
            u64::MAX => Some(Head::Closed),
            DRAINING => Some(Head::Draining),
            _ => u32::try_from(word - 1).ok().map(Head::Item),
        }
    }
}
