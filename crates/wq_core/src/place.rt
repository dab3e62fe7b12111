//! Where the words of a queue stand, and what they say. A table of them is `word_count` words long: the head, the links,
//! the item words with the PENDING bits, and the count of ended executions.
ghost use Rattle.std.specs.Prelude.{◌≡◌, ◌≤◌, ◌^◌};
ghost use Rattle.wq_words.specs.Numbers.{number_count};
ghost use Rattle.wq_core.specs.Words.{link_place, item_place, done_place, word_count, TakesPushes, link_word, number_at, word_at, head_at, item_of};

use wq_words::{BUSY, Head, Layout};

/// Where the head stands.
pub const HEAD: usize = 0;

/// How many words the queue has.
pub fn word_count(layout: Layout) -> usize
    ensures words { result ≡ word_count (number_count layout) }
{
    2 * layout.number_count() as usize + 2
}

/// Where the link of a number stands.
pub fn link_place(number: u32) -> usize
    ensures place { result ≡ link_place number }
{
    1 + number as usize
}

/// Where the item word of a number stands.
pub fn item_place(layout: Layout, number: u32) -> usize
    ensures place { result ≡ item_place (number_count layout) number }
{
    1 + layout.number_count() as usize + number as usize
}

/// Where the count of ended executions stands.
pub fn done_place(layout: Layout) -> usize
    ensures place { result ≡ done_place (number_count layout) }
{
    1 + 2 * layout.number_count() as usize
}

/// The word that links to what stands at the head of a queue that takes pushes: the end where the list is empty, whether it rests or
/// not.
pub fn link_word(word: u64) -> u64
    ensures word { result ≡ link_word word }
{
    if word == BUSY { 0 } else { word }
}

/// What a head word says.
pub fn head_at(word: u64) -> Head
    requires { TakesPushes word → link_word word ≤ 2 ^ 32 }
    ensures head { result ≡ head_at word }
{
    match Head::from_word(word) {
        Some(head) => head,
        None => unreachable!(),
    }
}

/// The number at a head, if it has one.
pub fn item_of(head: Head) -> Option<u32>
    ensures item { result ≡ item_of head }
{
    match head {
        Head::Item(number) => Some(number),
        Head::Empty | Head::Closed | Head::Draining => None,
    }
}

/// The number that a link stands for. A link never says that a queue is closed, drains or rests, so it is no head to be told
/// apart.
pub fn number_at(word: u64) -> Option<u32>
    requires { word ≤ 2 ^ 32 }
    ensures number { result ≡ number_at word }
{
    if word == 0 {
        return None;
    }
    Some((word - 1) as u32)
}

/// The word that links to a number, or to none.
pub fn word_at(next: Option<u32>) -> u64
    ensures word { result ≡ word_at next }
{
    match next {
        Some(number) => Head::Item(number).to_word(),
        None => Head::Empty.to_word(),
    }
}
