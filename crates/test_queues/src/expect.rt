//! What a test says of the values that a call gave.
ghost use Rattle.std.specs.Prelude.{IsTrue};

use std::alloc::Global;
use std::fmt::{Debug, Display};
use std::process::Abort;

/// Returns only where the two values are equal. A row of a table is named by a pair of its name and the value on both sides.
pub(crate) fn expect_same<R: Abort, T: PartialEq + Debug + Drop>(rt: &R, given: T, wanted: T)
    ensures same { IsTrue (T.eq given wanted) }
{
    assert_eq!(rt; given, wanted);
}

/// Returns only where these are the words of the value.
pub(crate) fn expect_words<R: Abort, T: Display>(rt: &R, alloc: Global, of: &T, words: &str) {
    let text = format!(in alloc; "{of}").expect(rt, "memory");
    expect_same(rt, text.as_str(), words);
}

/// Returns only where a report of the value has these words.
pub(crate) fn expect_report<R: Abort, T: Debug>(rt: &R, alloc: Global, of: &T, words: &str) {
    let text = format!(in alloc; "{of:?}").expect(rt, "memory");
    expect_same(rt, text.as_str(), words);
}

/// Returns only where each of the values has its words.
pub(crate) fn expect_each_words<R: Abort, T: Display>(rt: &R, alloc: Global, rows: &[(T, &str)]) {
    for (value, words) in rows {
        expect_words(rt, alloc, value, words);
    }
}
