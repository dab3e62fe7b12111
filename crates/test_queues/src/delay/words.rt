//! The words of an advance to an earlier tick, and of want of memory for a table.
use crate::expect::{expect_report, expect_words};
use crate::seats::two_seats;
use wq_delay::{Backwards, NoRoom};

/// A report of a table that was not made leaves out the sender.
#[test]
fn words_of_errors(rt: HostRuntime) {
    let alloc = rt.alloc();
    let words = "the tick is before the present one";
    expect_words(&rt, alloc, &Backwards, words);
    let (owner, sender) = two_seats(&rt, alloc, 1);
    let no_room = NoRoom { sender };
    expect_words(&rt, alloc, &no_room, "memory");
    expect_report(&rt, alloc, &no_room, "NoRoom { .. }");
    drop(no_room);
    drop(owner);
}
