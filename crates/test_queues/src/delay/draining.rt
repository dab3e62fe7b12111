//! A delay table over a queue that drains: what is due stays on the table, and goes out in order after the resume.
use super::calls::{advance, arm, cancel, delayed, has, modify};
use crate::expect::expect_same;
use crate::live::reading::{close, drain, execute_one, resume};
use crate::seats::{FIRST, queue_once};
use std::alloc::Global;
use std::process::Abort;
use std::thread::{Threads, join, yield_now};
use wq_delay::{Armed, Delay, Modified};
use wq_live::{Answer, Owner, Sender};

/// Items of a queue of 8, each with its delay. They go out by tick, and at one tick by arming: 5, 2, 0, 7.
const LATE: &[(u32, u64)] = &[(2, 3), (5, 1), (0, 3), (7, 9)];

/// A call of the table, of its queue's other sender or of the owner, with what it answers.
#[derive(Clone, Copy)]
enum Step {
    Arm(u32, u64, Armed),
    Modify(u32, u64, Modified),
    Cancel(u32, bool),
    /// How many an advance to this tick pushes, refuses and leaves waiting.
    Advance(u64, (u32, u32, u32)),
    /// What is on the table, among all items.
    OnTable([bool; 8]),
    /// What is due at this tick.
    Due(u64, [u32; 4]),
    Queue(u32, Answer),
    Resume(bool),
    Close(Option<u32>),
    Execute(Option<u32>),
    /// The table has the late items, and they are pending.
    StillThere,
}

/// Puts the items on the table, and begins a drain of nothing.
fn arm_and_drain<R: Abort>(rt: &R, delay: &mut Delay, owner: &mut Owner) {
    for &(item, ticks) in LATE {
        let armed = arm(delay, item, ticks);
        expect_same(rt, (item, armed), (item, Some(Armed::OnTable)));
    }
    expect_same(rt, drain(owner), Some(0));
}

/// These items are on the table, and no others.
fn check_table<R: Abort>(rt: &R, delay: &Delay, all: &[bool; 8]) {
    for (item, is_on) in (0..8u32).zip(all) {
        expect_same(rt, (item, has(delay, item)), (item, Some(*is_on)));
    }
}

fn check_still_there<R: Abort>(rt: &R, delay: &Delay, sender: &mut Sender) {
    check_table(
        rt,
        delay,
        &[true, false, true, false, false, true, false, true],
    );
    expect_same(rt, delay.len(), 4);
    for &(item, _) in LATE {
        let answer = queue_once(sender, item);
        expect_same(rt, (item, answer), (item, Some(Answer::Pending)));
    }
}

fn check_due<R: Abort>(rt: &R, delay: &Delay, tick: u64, wanted: &[u32]) {
    let due = delay.due_list(tick).expect(rt, "memory");
    expect_same(rt, due.as_slice(), wanted);
}

/// A step of the table.
fn step_table<R: Abort>(rt: &R, delay: &mut Delay, place: usize, step: Step) {
    match step {
        Step::Arm(item, ticks, armed) => {
            expect_same(rt, (place, arm(delay, item, ticks)), (place, Some(armed)));
        }
        Step::Modify(item, ticks, modified) => {
            let answer = modify(delay, item, ticks);
            expect_same(rt, (place, answer), (place, Some(modified)));
        }
        Step::Cancel(item, was_on) => {
            expect_same(rt, (place, cancel(delay, item)), (place, Some(was_on)));
        }
        Step::Advance(now, said) => {
            expect_same(rt, (place, advance(delay, now)), (place, Some(said)));
        }
        Step::OnTable(all) => check_table(rt, delay, &all),
        Step::Due(tick, wanted) => check_due(rt, delay, tick, &wanted),
        Step::Queue(..) | Step::Resume(_) | Step::Close(_) | Step::Execute(_) | Step::StillThere =>
            {}
    }
}

/// Makes the steps on a queue that drains with the late items on its table, and looks whether each answers what is said of it.
fn play<R: Abort>(rt: &R, alloc: Global, steps: &[Step]) {
    let (mut owner, mut sender, mut delay) = delayed(rt, alloc, 8, 0);
    arm_and_drain(rt, &mut delay, &mut owner);
    for (place, &step) in steps.iter().enumerate() {
        match step {
            Step::Queue(item, answer) => {
                let queued = queue_once(&mut sender, item);
                expect_same(rt, (place, queued), (place, Some(answer)));
            }
            Step::Resume(ends) => expect_same(rt, (place, resume(&mut owner)), (place, ends)),
            Step::Close(count) => expect_same(rt, (place, close(&mut owner)), (place, count)),
            Step::Execute(number) => {
                expect_same(rt, (place, execute_one(&mut owner)), (place, number));
            }
            Step::StillThere => check_still_there(rt, &delay, &mut sender),
            _ => step_table(rt, &mut delay, place, step),
        }
    }
    drop(delay);
    drop(sender);
    drop(owner);
}

/// An advance within a drain posts nothing and drops nothing, however often it is made. After the resume what is left goes out
/// first, in its order, before what is due later.
#[test]
fn advance_goes_on_after_the_resume(rt: HostRuntime) {
    play(&rt, rt.alloc(), GOES_ON);
}

const GOES_ON: &[Step] = &[
    Step::Advance(0, (0, 0, 4)),
    Step::StillThere,
    Step::Advance(2, (0, 0, 4)),
    Step::StillThere,
    Step::Advance(4, (0, 0, 4)),
    Step::StillThere,
    Step::Advance(300, (0, 0, 4)),
    Step::StillThere,
    Step::Advance(300, (0, 0, 4)),
    Step::StillThere,
    Step::Resume(true),
    Step::Arm(1, 1, Armed::OnTable),
    Step::Queue(3, FIRST),
    Step::Advance(301, (5, 0, 0)),
    Step::OnTable([false; 8]),
    Step::Execute(Some(3)),
    Step::Execute(Some(5)),
    Step::Execute(Some(2)),
    Step::Execute(Some(0)),
    Step::Execute(Some(7)),
    Step::Execute(Some(1)),
    Step::Execute(None),
];

/// A close that ends a drain has what was left given back, as on any closed queue.
#[test]
fn advance_gives_back_after_a_close(rt: HostRuntime) {
    play(&rt, rt.alloc(), GIVES_BACK);
}

const GIVES_BACK: &[Step] = &[
    Step::Advance(3, (0, 0, 4)),
    Step::Close(Some(0)),
    Step::Advance(3, (0, 3, 1)),
    Step::OnTable([false, false, false, false, false, false, false, true]),
    Step::Queue(0, Answer::Closed),
    Step::Queue(7, Answer::Pending),
];

const TOO_FAR: u64 = 4_294_967_296;

/// Within a drain an arming or a change of delay to none is answered so: an item on the table keeps its place, and of any other
/// nothing is held. A delay that is too far is so in a drain too.
#[test]
fn calls_within_a_drain(rt: HostRuntime) {
    play(&rt, rt.alloc(), WITHIN);
}

/// What would be due at once is answered by the drain, or by what is pending, and changes nothing, twice.
const WITHIN: &[Step] = &[
    Step::Arm(1, 0, Armed::Draining),
    Step::Arm(2, 0, Armed::Pending),
    Step::Modify(1, 0, Modified::Draining),
    Step::Modify(0, 0, Modified::Draining),
    Step::Queue(1, Answer::Draining),
    Step::StillThere,
    Step::Arm(1, 0, Armed::Draining),
    Step::Arm(2, 0, Armed::Pending),
    Step::Modify(1, 0, Modified::Draining),
    Step::Modify(0, 0, Modified::Draining),
    Step::Queue(1, Answer::Draining),
    Step::StillThere,
    Step::Arm(0, TOO_FAR, Armed::TooFar),
    Step::Modify(0, TOO_FAR, Modified::TooFar),
    Step::Arm(1, TOO_FAR, Armed::TooFar),
    Step::Modify(1, TOO_FAR, Modified::TooFar),
    Step::Due(9, [5, 2, 0, 7]),
];

/// Calls that post nothing are as ever within a drain: an item is armed, moved behind others of its tick, and cancelled.
#[test]
fn table_changes_within_a_drain(rt: HostRuntime) {
    play(&rt, rt.alloc(), CHANGES);
}

const CHANGES: &[Step] = &[
    Step::Advance(3, (0, 0, 4)),
    Step::Arm(4, 6, Armed::OnTable),
    Step::Modify(2, 6, Modified::Moved),
    Step::Modify(3, 1, Modified::WasIdle),
    Step::Cancel(5, true),
    Step::Cancel(5, false),
    Step::Queue(5, Answer::Draining),
    Step::OnTable([true, false, true, true, true, false, false, true]),
    Step::Resume(true),
    Step::Advance(9, (5, 0, 0)),
    Step::Execute(Some(0)),
    Step::Execute(Some(3)),
    Step::Execute(Some(7)),
    Step::Execute(Some(4)),
    Step::Execute(Some(2)),
    Step::Execute(None),
];

/// How many items a thread lets go beside drains.
const ITEMS: u32 = 64;

/// Leads the table on, a tick at a time and then on the spot, until all has gone out. How many advances left something that was
/// due; None where they never came to an end.
fn advance_through(delay: &mut Delay) -> Option<u32> {
    let mut stopped = 0u32;
    for round in 1..u64::MAX {
        let now = round.min(u64::from(ITEMS));
        let (_, _, waiting) = advance(delay, now)?;
        if waiting == 0 {
            return Some(stopped);
        }
        if u64::from(ITEMS).saturating_sub(now) < u64::from(waiting) {
            stopped = stopped.saturating_add(1);
        }
        yield_now();
    }
    None
}

/// Executes up to three of what was taken, the first of which is to be this one, and then those behind it. Which comes next; None
/// where another came.
fn execute_three(owner: &mut Owner, first: u32) -> Option<u32> {
    let mut next = first;
    for _ in 0..3u32 {
        match execute_one(owner) {
            Some(item) if item == next => next = next.saturating_add(1),
            Some(_) => return None,
            None => yield_now(),
        }
    }
    Some(next)
}

/// Drains, executes what was taken in threes, and resumes, until all items were executed, one after another. Whether they were.
fn drain_through(owner: &mut Owner) -> bool {
    let mut next = 0u32;
    for _ in 0..u64::MAX {
        drain(owner);
        let Some(following) = execute_three(owner, next) else {
            return false;
        };
        next = following;
        if next >= ITEMS {
            return resume(owner);
        }
        resume(owner);
        yield_now();
    }
    false
}

/// Puts each item on the table, at a tick of its own.
fn arm_each<R: Abort>(rt: &R, delay: &mut Delay) {
    for item in 0..ITEMS {
        let ticks = u64::from(item).saturating_add(1);
        expect_same(rt, arm(delay, item, ticks), Some(Armed::OnTable));
    }
}

/// Lets all items go beside drains: how many advances left something that was due.
fn all_goes_out<R: Abort + Threads + Sync>(rt: &R, alloc: Global) -> u32 {
    let (mut owner, sender, mut delay) = delayed(rt, alloc, ITEMS, 0);
    arm_each(rt, &mut delay);
    let (left, executed) = join(
        rt,
        || advance_through(&mut delay),
        || drain_through(&mut owner),
    );
    assert!(rt; executed);
    drop(delay);
    drop(sender);
    drop(owner);
    left.expect(rt, "an end")
}

/// A table is led on in one thread while the owner drains in another: all goes out, once and in order.
#[test]
fn all_goes_out_beside_drains(rt: HostRuntime) {
    let mut stopped = 0u32;
    for _ in 0..20u32 {
        stopped = stopped.saturating_add(all_goes_out(&rt, rt.alloc()));
    }
    assert!(rt; stopped > 0);
}
