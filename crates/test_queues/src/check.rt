//! Checkers of recorded histories and traces: each cause, and what a report says.
use crate::expect::{expect_each_words, expect_same};
use std::alloc::Global;
use std::process::Abort;
use wq_check::EventError::{NoItem, NoSeat, NotAllowed};
use wq_check::{
    Cause, Checker, Counts, EventError, Mark, MarkCounts, MarkError, Report, TraceChecker,
    TraceReport,
};
use wq_words::Event::{
    Back, Begin, Busy, Chain, ChainBusy, Close, Drain, End, Hold, Push, Rest, Resume, Take,
};
use wq_words::{Event, Layout, Why};

/// Tells the events to a checker of a queue of 2 items, 1 barrier and 2 senders, so that 2 is the barrier and 3 the stop item:
/// all before the last are allowed, and the last has this error, or none.
fn check<R: Abort>(rt: &R, checker: &mut Checker, history: &[Event], error: Option<EventError>) {
    let mut refused = None;
    for event in history {
        expect_same(rt, refused, None);
        refused = checker.event(*event).err();
    }
    expect_same(rt, (history.len(), refused), (history.len(), error));
}

const HELD: Event = Hold(0, 0);

const PUSHED: Event = Push(0, 0);

/// Histories with what is wrong with their last event.
const EVENTS: &[(&[Event], Option<EventError>)] = &[
    (&[Hold(2, 4)], Some(NoSeat)),
    (&[Hold(0, 4)], Some(NoItem)),
    (&[Chain(2)], Some(NoItem)),
    (&[HELD, Hold(1, 0)], Some(NotAllowed(Cause::Pending))),
    (&[HELD, Hold(1, 1)], None),
    (&[Busy(1, 0)], Some(NotAllowed(Cause::Idle))),
    (&[HELD, Busy(1, 0)], None),
    (&[PUSHED], Some(NotAllowed(Cause::NotHeld))),
    (&[HELD, Push(1, 0)], Some(NotAllowed(Cause::NotHeld))),
    (&[Close, PUSHED], Some(NotAllowed(Cause::NotHeld))),
    (&[HELD, Close, PUSHED], Some(NotAllowed(Cause::Closed))),
    (&[Back(0, 0, Why::Closed)], Some(NotAllowed(Cause::NotHeld))),
    (
        &[HELD, Back(0, 0, Why::Closed)],
        Some(NotAllowed(Cause::Open)),
    ),
    (&[HELD, Back(0, 0, Why::Contended)], None),
    (&[HELD, Close, Back(0, 0, Why::Closed)], None),
    (&[Close, Take], Some(NotAllowed(Cause::Closed))),
    (&[Close, Close], Some(NotAllowed(Cause::Closed))),
    (
        &[HELD, PUSHED, Begin(0), Begin(0)],
        Some(NotAllowed(Cause::Runs(0))),
    ),
    (&[HELD, Begin(0)], Some(NotAllowed(Cause::NotWaiting))),
    (
        &[HELD, PUSHED, Begin(0), End(0), Begin(0)],
        Some(NotAllowed(Cause::NotWaiting)),
    ),
    (
        &[HELD, PUSHED, Hold(1, 1), Push(1, 1), Begin(1)],
        Some(NotAllowed(Cause::Next(0))),
    ),
    (&[HELD, PUSHED, Hold(1, 1), Push(1, 1), Begin(0)], None),
    (
        &[HELD, PUSHED, End(0)],
        Some(NotAllowed(Cause::NothingRuns)),
    ),
    (
        &[HELD, PUSHED, Begin(0), End(1)],
        Some(NotAllowed(Cause::Runs(0))),
    ),
    (
        &[HELD, PUSHED, Begin(0), Chain(1)],
        Some(NotAllowed(Cause::Open)),
    ),
    (&[Close, Chain(0)], Some(NotAllowed(Cause::NothingRuns))),
    (
        &[HELD, PUSHED, Close, Begin(0), Chain(1), Chain(1)],
        Some(NotAllowed(Cause::Pending)),
    ),
    (&[HELD, PUSHED, Close, Begin(0), Chain(0)], None),
    (
        &[HELD, PUSHED, Begin(0), ChainBusy(0)],
        Some(NotAllowed(Cause::Open)),
    ),
    (&[Close, ChainBusy(0)], Some(NotAllowed(Cause::NothingRuns))),
    (
        &[HELD, PUSHED, Close, Begin(0), ChainBusy(0)],
        Some(NotAllowed(Cause::Idle)),
    ),
    (&[Close, Rest], Some(NotAllowed(Cause::Closed))),
    (
        &[HELD, PUSHED, Begin(0), Rest],
        Some(NotAllowed(Cause::NotEnded)),
    ),
    (&[HELD, PUSHED, Begin(0), End(0), Rest], None),
    (&[Drain, PUSHED], Some(NotAllowed(Cause::NotHeld))),
    (&[HELD, Drain, PUSHED], Some(NotAllowed(Cause::Draining))),
    (
        &[HELD, Drain, Close, PUSHED],
        Some(NotAllowed(Cause::Closed)),
    ),
    (&[HELD, Drain, Resume, PUSHED], None),
    (&[Drain, Take], Some(NotAllowed(Cause::Draining))),
    (&[Drain, Drain], Some(NotAllowed(Cause::Draining))),
    (&[Close, Drain], Some(NotAllowed(Cause::Closed))),
    (&[Drain, Resume, Drain], None),
    (&[Drain, Rest], Some(NotAllowed(Cause::Draining))),
    (&[Drain, Close], None),
    (&[Drain, Close, Close], Some(NotAllowed(Cause::Closed))),
    (&[Resume], Some(NotAllowed(Cause::NotDraining))),
    (
        &[Drain, Resume, Resume],
        Some(NotAllowed(Cause::NotDraining)),
    ),
    (
        &[Drain, Close, Resume],
        Some(NotAllowed(Cause::NotDraining)),
    ),
    (
        &[HELD, PUSHED, Drain, Resume],
        Some(NotAllowed(Cause::NotEnded)),
    ),
    (
        &[HELD, PUSHED, Drain, Begin(0), Resume],
        Some(NotAllowed(Cause::NotEnded)),
    ),
    (&[HELD, PUSHED, Drain, Begin(0), End(0), Resume], None),
    (
        &[Drain, Back(0, 0, Why::Draining)],
        Some(NotAllowed(Cause::NotHeld)),
    ),
    (
        &[HELD, Close, Back(0, 0, Why::Draining)],
        Some(NotAllowed(Cause::NeverDrained)),
    ),
    (&[HELD, Drain, Back(0, 0, Why::Draining)], None),
    (&[HELD, Drain, Resume, Back(0, 0, Why::Draining)], None),
    (
        &[HELD, Drain, Back(0, 0, Why::Closed)],
        Some(NotAllowed(Cause::Open)),
    ),
    (&[Drain, Chain(0)], Some(NotAllowed(Cause::NothingRuns))),
    (&[HELD, PUSHED, Drain, Begin(0), Chain(0)], None),
    (
        &[HELD, PUSHED, Drain, Begin(0), Chain(0), ChainBusy(0)],
        None,
    ),
    (
        &[HELD, PUSHED, Drain, Begin(0), End(0), Resume, Chain(1)],
        Some(NotAllowed(Cause::Open)),
    ),
    (
        &[Drain, Resume, ChainBusy(1)],
        Some(NotAllowed(Cause::Open)),
    ),
];

fn new_checker<R: Abort>(rt: &R, alloc: Global) -> Checker {
    let layout = Layout::new(2, 1, 2).expect(rt, "a layout");
    Checker::new(alloc, layout).expect(rt, "a checker")
}

#[test]
fn causes_of_events(rt: HostRuntime) {
    for &(history, error) in EVENTS {
        let mut checker = new_checker(&rt, rt.alloc());
        check(&rt, &mut checker, history, error);
    }
}

const CLOSED_WHILE_ONE_RUNS: &[Event] = &[
    HELD,
    PUSHED,
    Hold(1, 2),
    Push(1, 2),
    Busy(1, 0),
    Hold(0, 1),
    Close,
    Back(0, 1, Why::Closed),
    Begin(0),
    Chain(1),
    ChainBusy(1),
];

const THE_REST: &[Event] = &[End(0), Begin(2), End(2), Begin(1), End(1)];

const COUNTS: Counts = Counts {
    events: 11,
    accepted: 3,
    chained: 1,
    executed: 0,
    busy: 2,
    refused: 1,
    most_waiting: 2,
};

/// What is told next, what is wrong with its last event, what the report then says, and what is left at these places.
type Stage = (
    &'static [Event],
    Option<EventError>,
    Report,
    &'static [(usize, Option<u32>)],
);

/// The stages one after another, of one checker.
fn check_stages<R: Abort>(rt: &R, alloc: Global, stages: &[Stage]) {
    let mut checker = new_checker(rt, alloc);
    for &(history, error, report, left) in stages {
        check(rt, &mut checker, history, error);
        expect_same(rt, checker.report(), report);
        check_left(rt, &checker, left);
    }
}

fn check_left<R: Abort>(rt: &R, checker: &Checker, left: &[(usize, Option<u32>)]) {
    for &(place, number) in left {
        expect_same(rt, (place, checker.left_at(place)), (place, number));
    }
}

const THREE_LEFT: Report = Report {
    counts: COUNTS,
    left: 3,
    closed: true,
    complete: false,
};

const ALL_ENDED: Report = Report {
    counts: Counts {
        events: 16,
        accepted: 3,
        chained: 1,
        executed: 3,
        busy: 2,
        refused: 1,
        most_waiting: 2,
    },
    left: 0,
    closed: true,
    complete: true,
};

#[test]
fn report_of_a_history(rt: HostRuntime) {
    check_stages(&rt, rt.alloc(), HISTORY);
}

const HISTORY: &[Stage] = &[
    (CLOSED_WHILE_ONE_RUNS, None, THREE_LEFT, &[]),
    (
        &[Begin(2)],
        Some(NotAllowed(Cause::Runs(0))),
        THREE_LEFT,
        &[(0, Some(0)), (1, Some(2)), (2, Some(1)), (3, None)],
    ),
    (THE_REST, None, ALL_ENDED, &[(0, None)]),
];

const DRAINED: &[Event] = &[
    HELD,
    PUSHED,
    Hold(1, 1),
    Drain,
    Back(1, 1, Why::Draining),
    Begin(0),
    End(0),
];

const RESUMED_AND_CLOSED: &[Event] = &[Resume, Hold(1, 1), Close, Back(1, 1, Why::Closed)];

#[test]
fn report_of_a_drain(rt: HostRuntime) {
    check_stages(&rt, rt.alloc(), DRAIN);
}

const DRAIN: &[Stage] = &[
    (
        DRAINED,
        None,
        Report {
            counts: Counts {
                events: 7,
                accepted: 1,
                chained: 0,
                executed: 1,
                busy: 0,
                refused: 1,
                most_waiting: 1,
            },
            left: 0,
            closed: false,
            complete: false,
        },
        &[],
    ),
    (
        RESUMED_AND_CLOSED,
        None,
        Report {
            counts: Counts {
                events: 11,
                accepted: 1,
                chained: 0,
                executed: 1,
                busy: 0,
                refused: 2,
                most_waiting: 1,
            },
            left: 0,
            closed: true,
            complete: true,
        },
        &[],
    ),
];

const WORDS: &[(Cause, &str)] = &[
    (Cause::Pending, "pending"),
    (Cause::Idle, "idle"),
    (Cause::NotHeld, "not held"),
    (Cause::Closed, "closed"),
    (Cause::Draining, "draining"),
    (Cause::NotDraining, "not draining"),
    (Cause::NeverDrained, "never drained"),
    (Cause::Open, "open"),
    (Cause::Runs(7), "runs 7"),
    (Cause::NothingRuns, "nothing runs"),
    (Cause::NotWaiting, "not waiting"),
    (Cause::Next(7), "next 7"),
    (Cause::NotEnded, "not ended"),
];

#[test]
fn words_of_causes_and_errors(rt: HostRuntime) {
    let alloc = rt.alloc();
    expect_each_words(&rt, alloc, WORDS);
    let errors = [
        (NoSeat, "no seat of the queue"),
        (NoItem, "no number of the queue, or chained and no item"),
        (NotAllowed(Cause::Next(7)), "not allowed: next 7"),
    ];
    expect_each_words(&rt, alloc, errors.as_slice());
    let of_marks = [
        (MarkError::NoItem, "no item of the queue"),
        (
            MarkError::NotAllowed(Cause::Pending),
            "not allowed: pending",
        ),
    ];
    expect_each_words(&rt, alloc, of_marks.as_slice());
}

/// Traces with what is wrong with their last mark.
const MARKS: &[(&[Mark], Option<MarkError>)] = &[
    (&[Mark::Queue(2)], Some(MarkError::NoItem)),
    (&[Mark::Start(2)], Some(MarkError::NoItem)),
    (&[Mark::Queue(1), Mark::Queue(1)], None),
    (
        &[Mark::Queue(1), Mark::Queue(1), Mark::Queue(1)],
        Some(MarkError::NotAllowed(Cause::Pending)),
    ),
    (
        &[Mark::Queue(0), Mark::Queue(1), Mark::Queue(1)],
        Some(MarkError::NotAllowed(Cause::Pending)),
    ),
    (
        &[
            Mark::Queue(0),
            Mark::Queue(1),
            Mark::Start(0),
            Mark::Queue(0),
        ],
        None,
    ),
    (
        &[
            Mark::Queue(0),
            Mark::Queue(1),
            Mark::Start(0),
            Mark::Queue(1),
        ],
        Some(MarkError::NotAllowed(Cause::Pending)),
    ),
    (
        &[
            Mark::Queue(0),
            Mark::Queue(1),
            Mark::Start(0),
            Mark::End(0),
            Mark::Queue(1),
        ],
        None,
    ),
    (
        &[Mark::Start(0)],
        Some(MarkError::NotAllowed(Cause::NotWaiting)),
    ),
    (
        &[Mark::Queue(0), Mark::Queue(1), Mark::Start(1)],
        Some(MarkError::NotAllowed(Cause::Next(0))),
    ),
    (
        &[
            Mark::Queue(0),
            Mark::Queue(1),
            Mark::Start(0),
            Mark::Start(1),
        ],
        Some(MarkError::NotAllowed(Cause::Runs(0))),
    ),
    (
        &[Mark::Queue(0), Mark::Start(0), Mark::Start(0)],
        Some(MarkError::NotAllowed(Cause::Runs(0))),
    ),
    (
        &[Mark::Queue(0), Mark::Start(0), Mark::End(0), Mark::Start(0)],
        Some(MarkError::NotAllowed(Cause::NotWaiting)),
    ),
    (
        &[Mark::Queue(0), Mark::End(0)],
        Some(MarkError::NotAllowed(Cause::NothingRuns)),
    ),
    (
        &[Mark::Queue(0), Mark::Start(0), Mark::End(1)],
        Some(MarkError::NotAllowed(Cause::Runs(0))),
    ),
    (&[Mark::Queue(0), Mark::Start(0), Mark::End(0)], None),
];

/// Shows the marks to a checker: all before the last are allowed, and the last has this error, or none.
fn check_marks<R: Abort>(
    rt: &R,
    checker: &mut TraceChecker,
    trace: &[Mark],
    error: Option<MarkError>,
) {
    let mut refused = None;
    for mark in trace {
        expect_same(rt, refused, None);
        refused = checker.mark(*mark).err();
    }
    expect_same(rt, (trace.len(), refused), (trace.len(), error));
}

fn new_trace_checker<R: Abort>(rt: &R, alloc: Global) -> TraceChecker {
    let layout = Layout::new(2, 1, 1).expect(rt, "a layout");
    TraceChecker::new(alloc, layout).expect(rt, "a checker")
}

#[test]
fn causes_of_marks(rt: HostRuntime) {
    for &(trace, error) in MARKS {
        let mut checker = new_trace_checker(&rt, rt.alloc());
        check_marks(&rt, &mut checker, trace, error);
    }
}

#[test]
fn report_of_a_trace(rt: HostRuntime) {
    use wq_check::Mark::{End, Queue, Start};
    let mut checker = new_trace_checker(&rt, rt.alloc());
    check_marks(
        &rt,
        &mut checker,
        &[Queue(1), Queue(1), Start(1), Queue(0)],
        None,
    );
    let counts = MarkCounts {
        marks: 4,
        queued: 3,
        started: 1,
        ended: 0,
        most_waiting: 2,
    };
    expect_same(&rt, checker.report(), TraceReport { counts, left: 3 });
    for &(place, item) in &[(0, Some(1)), (1, Some(1)), (2, Some(0)), (3, None)] {
        expect_same(&rt, (place, checker.left_at(place)), (place, item));
    }
    check_marks(&rt, &mut checker, &[End(1), Start(1), End(1)], None);
    expect_same(
        &rt,
        (checker.report().left, checker.left_at(0)),
        (1, Some(0)),
    );
}
