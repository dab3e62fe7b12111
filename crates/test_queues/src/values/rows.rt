//! A queue of strings call by call.
use super::reading::{
    begin, chain, close, drain, end, execute_one, queue_once, rest, resume, seats, take,
};
use crate::expect::expect_same;
use crate::seats::{FIRST, QUEUED, WAKES};
use std::alloc::Global;
use std::process::Abort;
use wq_live::Answer;
use wq_values::ValueOwner;

/// A call of the sender or of the owner, with what it answers.
#[derive(Clone, Copy)]
enum Step {
    /// An item with these words, which come back where it is not queued.
    Queue(u32, &'static str, Answer),
    Chain(u32, &'static str, Answer),
    Take(u32),
    Close(u32),
    Drain(u32),
    Resume,
    /// The next number begins, and is handed these words.
    Begin(u32, &'static str),
    End(u32),
    /// Whether the queue rests by it.
    Rest(bool),
    /// Whether all is done.
    Done(bool),
}

/// A string of its own.
fn text<R: Abort>(rt: &R, alloc: Global, words: &str) -> String {
    String::from_str(alloc, words).expect(rt, "memory")
}

/// The answer is this one, and the very words came back where the item was not queued.
fn check_answer<R: Abort>(
    rt: &R,
    given: (Option<Answer>, Option<String>),
    wanted: Answer,
    words: &str,
) {
    let (answer, back) = given;
    expect_same(rt, (words, answer), (words, Some(wanted)));
    let is_queued = matches!(wanted, Answer::Queued { .. });
    let is_right = match back {
        Some(back) => !is_queued && back.as_str() == words,
        None => is_queued,
    };
    expect_same(rt, (words, is_right), (words, true));
}

/// The next number begins, and was handed these words.
fn begins_with<R: Abort>(rt: &R, owner: &mut ValueOwner<String>, number: u32, words: &str) {
    let (begun, value) = begin(owner).expect(rt, "a number begins");
    let value = value.expect(rt, "a value");
    expect_same(rt, (begun, value.as_str()), (number, words));
}

/// A step of the owner.
fn step_owner<R: Abort>(rt: &R, alloc: Global, owner: &mut ValueOwner<String>, step: Step) {
    match step {
        Step::Chain(item, words, answer) => {
            let given = chain(owner, item, text(rt, alloc, words));
            check_answer(rt, given, answer, words);
        }
        Step::Take(count) => expect_same(rt, take(owner), Some(count)),
        Step::Close(count) => expect_same(rt, close(owner), Some(count)),
        Step::Drain(count) => expect_same(rt, drain(owner), Some(count)),
        Step::Resume => expect_same(rt, resume(owner), true),
        Step::Begin(number, words) => begins_with(rt, owner, number, words),
        Step::End(number) => expect_same(rt, end(owner), Some(number)),
        Step::Rest(rests) => expect_same(rt, rest(owner), Some(rests)),
        Step::Done(is_done) => expect_same(rt, owner.done().is_some(), is_done),
        Step::Queue(..) => {}
    }
}

/// Makes the steps on a new queue of so many items.
fn play<R: Abort>(rt: &R, alloc: Global, items: u32, steps: &[Step]) {
    let (mut owner, mut sender) = seats(rt, alloc, items);
    for &step in steps {
        if let Step::Queue(item, words, answer) = step {
            let given = queue_once(&mut sender, item, text(rt, alloc, words));
            check_answer(rt, given, answer, words);
        } else {
            step_owner(rt, alloc, &mut owner, step);
        }
    }
    drop(sender);
    drop(owner);
}

const AGAIN: &[Step] = &[
    Step::Queue(0, "a", WAKES),
    Step::Queue(0, "b", Answer::Pending),
    Step::Take(1),
    Step::Begin(0, "a"),
    Step::Queue(0, "b", FIRST),
    Step::Close(1),
    Step::Queue(1, "c", Answer::Closed),
    Step::End(0),
    Step::Done(false),
    Step::Begin(0, "b"),
    Step::Done(false),
    Step::End(0),
    Step::Done(true),
];

/// What is pending, and what is queued behind a close, comes back; an item that runs may be queued again.
#[test]
fn execution_is_handed_what_its_queueing_brought(rt: HostRuntime) {
    play(&rt, rt.alloc(), 4, AGAIN);
}

const BEHIND: &[Step] = &[
    Step::Queue(3, "three", WAKES),
    Step::Queue(1, "one", QUEUED),
    Step::Queue(7, "seven", QUEUED),
    Step::Take(3),
    Step::Queue(0, "zero", FIRST),
    Step::Queue(5, "five", QUEUED),
    Step::Drain(2),
    Step::Queue(6, "six", Answer::Draining),
    Step::Begin(3, "three"),
    Step::Chain(2, "two", QUEUED),
    Step::Chain(2, "again", Answer::Pending),
    Step::End(3),
    Step::Begin(1, "one"),
    Step::End(1),
    Step::Begin(7, "seven"),
    Step::End(7),
    Step::Begin(0, "zero"),
    Step::End(0),
    Step::Begin(5, "five"),
    Step::End(5),
    Step::Begin(2, "two"),
    Step::End(2),
    Step::Resume,
    Step::Queue(6, "six", FIRST),
    Step::Take(1),
    Step::Begin(6, "six"),
    Step::End(6),
];

/// A batch that waits, what a drain adds behind it, and what is chained: each begins with its own words.
#[test]
fn values_keep_their_order_behind_a_batch(rt: HostRuntime) {
    play(&rt, rt.alloc(), 8, BEHIND);
}

const RESTING: &[Step] = &[
    Step::Rest(false),
    Step::Queue(1, "one", WAKES),
    Step::Rest(false),
    Step::Take(1),
    Step::Begin(1, "one"),
    Step::End(1),
    Step::Done(false),
    Step::Rest(true),
    Step::Rest(false),
    Step::Queue(0, "zero", WAKES),
    Step::Take(1),
    Step::Begin(0, "zero"),
    Step::End(0),
    Step::Queue(1, "again", FIRST),
];

/// A new queue rests, and one that rests does not rest again. A push stands in the way of a rest, and the first behind one wakes.
#[test]
fn queue_of_values_rests_once(rt: HostRuntime) {
    play(&rt, rt.alloc(), 2, RESTING);
}

/// A barrier and the stop item bring nothing.
#[test]
fn barriers_bring_nothing(rt: HostRuntime) {
    let alloc = rt.alloc();
    let (mut owner, mut sender) = seats::<_, String>(&rt, alloc, 2);
    queue_once(&mut sender, 1, text(&rt, alloc, "one"));
    if sender.layout().barriers > 0 {
        expect_same(&rt, sender.flush_begin(0, 1), QUEUED);
        assert!(rt; !sender.flush_done(0));
    }
    expect_same(&rt, sender.request_stop(1), QUEUED);
    for &(number, brings) in &[(1, true), (2, false), (3, false)] {
        let (begun, value) = execute_one(&mut owner).expect(&rt, "a number");
        expect_same(&rt, (begun, value.is_some()), (number, brings));
    }
    if sender.layout().barriers > 0 {
        assert!(rt; sender.flush_done(0));
    }
    drop(sender);
    drop(owner);
}
