//! The words of a line.
ghost use Rattle.std.specs.Prelude.{◌≡◌, IfOk, IfSome, map};
ghost use Rattle.wq_text.specs.Word.{words, spelled_number};
ghost use Rattle.wq_text.specs.Decimal.{ReadsDecimals};

use arrayvec::ArrayVec;
use std::alloc::{AllocError, Global};

// As many words as most lines have at most: those are read without taking memory.
const FEW_WORDS: usize = 5;

// The number below 2^64 that a word is, in digits with no zero in front.
pub(crate) fn number_of(word: &str) -> Option<u64>
    ensures { result ≡ spelled_number word.now }
{
    let digits = word.as_bytes();
    if digits.is_empty() {
        return None;
    }
    let first = digits[0];
    if first == b'+' {
        return None;
    }
    if digits.len() > 1 && first == b'0' {
        return None;
    }
    word.parse::<u64>().ok()
}

// The words of a line that has few, set apart by one space; none where there are more.
pub(crate) fn few_words(alloc: Global, line: &str) -> Option<ArrayVec<&str, FEW_WORDS>>
    ensures { IfSome result (λ ws. map (λ w. w.now) ws.items ≡ words line.now) }
{
    ArrayVec::from_iter(alloc, line.split(' ')).ok()
}

// The words of a line, set apart by one space.
pub(crate) fn words_of(alloc: Global, line: &str) -> Result<Vec<&str>, AllocError>
    ensures { IfOk result (λ ws. map (λ w. w.now) ws.items ≡ words line.now) }
{
    line.split(' ').collect(alloc)
}

/// A word is a number exactly where it is the decimal of one below 2^64.
pub fn reads_decimals()
    ensures exactly { ReadsDecimals }
{}
