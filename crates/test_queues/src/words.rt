//! Layouts, the codes of the head word, and which histories are legal; the words of why one is not.
use crate::expect::{expect_each_words, expect_same};
use std::process::Abort;
use wq_words::Event::{
    Back, Begin, Busy, Chain, ChainBusy, Close, Drain, End, Hold, Push, Rest, Resume, Take,
};
use wq_words::{
    BUSY, Event, Head, HistoryError, HistoryFault, Layout, LayoutError, MOST_BARRIERS, MOST_ITEMS,
    MOST_SENDERS, Why, check_history,
};

#[test]
fn layouts(rt: HostRuntime) {
    for &(items, barriers, senders, refused) in &[
        (0, 17, 0, Some(LayoutError::Items)),
        (65_537, 1, 1, Some(LayoutError::Items)),
        (1, 17, 0, Some(LayoutError::Barriers)),
        (1, 0, 1, Some(LayoutError::Barriers)),
        (1, 16, 65, Some(LayoutError::Senders)),
        (1, 16, 0, Some(LayoutError::Senders)),
        (1, 1, 1, None),
        (4_096, 16, 64, None),
        (65_536, 16, 64, None),
    ] {
        let layout = Layout::new(items, barriers, senders);
        expect_same(
            &rt,
            ((items, barriers, senders), layout.err()),
            ((items, barriers, senders), refused),
        );
    }
    expect_same(
        &rt,
        (MOST_ITEMS, MOST_BARRIERS, MOST_SENDERS),
        (65_536, 16, 64),
    );
}

/// Words, and the heads that they stand for, if any.
const CODES: &[(u64, Option<Head>)] = &[
    (0, Some(Head::Empty)),
    (1, Some(Head::Item(0))),
    (4113, Some(Head::Item(4112))),
    (1 << 32, Some(Head::Item(u32::MAX))),
    (u64::MAX, Some(Head::Closed)),
    (u64::MAX - 2, Some(Head::Draining)),
    ((1 << 32) + 1, None),
    (u64::MAX - 3, None),
];

#[test]
fn head_codes(rt: HostRuntime) {
    for &(word, head) in CODES {
        expect_same(&rt, (word, Head::from_word(word)), (word, head));
        if let Some(head) = head {
            expect_same(&rt, (head, head.to_word()), (head, word));
        }
    }
    expect_same(&rt, BUSY, u64::MAX - 1);
    expect_same(&rt, Head::from_word(BUSY), Some(Head::Empty));
}

const NOT_ALLOWED: Option<HistoryFault> = Some(HistoryFault::NotAllowed);

const NO_ITEM: Option<HistoryFault> = Some(HistoryFault::NoItem);

const NO_SEAT: Option<HistoryFault> = Some(HistoryFault::NoSeat);

/// Whether a history of a queue of 2 items, 1 barrier and 2 senders, so that 2 is the barrier and 3 the stop item, is legal, or
/// what is wrong at its last place.
fn check<R: Abort>(rt: &R, history: &[Event], fault: Option<HistoryFault>) {
    let layout = Layout::new(2, 1, 2).expect(rt, "a layout");
    let found = check_history(&layout, history).err();
    let place = history.len().saturating_sub(1);
    let wanted = match fault {
        Some(kind) => Some(HistoryError { place, kind }),
        None => None,
    };
    expect_same(rt, (history, found), (history, wanted));
}

/// Rests: one is allowed where the queue is open and as many have ended as were accepted, taken or not, and another may follow it.
/// Drains: one ends where as many have ended as were accepted, a close may end it, and another may follow it. A number may be
/// given back for one that has ended.
const HISTORIES: &[(&[Event], Option<HistoryFault>)] = &[
    (&[], None),
    (&[Hold(0, 0), Push(0, 0), Begin(0)], None),
    (&[Hold(0, 0), Hold(1, 0)], NOT_ALLOWED),
    (&[Hold(2, 9)], NO_SEAT),
    (&[Hold(0, 4)], NO_ITEM),
    (&[Hold(0, 0), Close, Push(0, 0)], NOT_ALLOWED),
    (
        &[
            Hold(0, 0),
            Push(0, 0),
            Hold(0, 1),
            Push(0, 1),
            Begin(0),
            Begin(1),
        ],
        NOT_ALLOWED,
    ),
    (
        &[
            Hold(0, 0),
            Push(0, 0),
            Close,
            Begin(0),
            Chain(0),
            End(0),
            Begin(0),
            End(0),
        ],
        None,
    ),
    (&[Close, Chain(0)], NOT_ALLOWED),
    (
        &[Hold(0, 0), Push(0, 0), Close, Begin(0), End(0), Chain(1)],
        NOT_ALLOWED,
    ),
    (&[Rest], None),
    (&[Rest, Rest], None),
    (&[Hold(0, 0), Rest, Push(0, 0)], None),
    (&[Hold(0, 0), Push(0, 0), Rest], NOT_ALLOWED),
    (&[Hold(0, 0), Push(0, 0), Take, Begin(0), Rest], NOT_ALLOWED),
    (
        &[Hold(0, 0), Push(0, 0), Take, Begin(0), End(0), Rest],
        None,
    ),
    (&[Hold(0, 0), Push(0, 0), Begin(0), End(0), Rest], None),
    (&[Close, Rest], NOT_ALLOWED),
    (&[Hold(0, 0), Drain, Push(0, 0)], NOT_ALLOWED),
    (&[Hold(0, 0), Drain, Resume, Push(0, 0)], None),
    (&[Hold(0, 0), Push(0, 0), Drain, Resume], NOT_ALLOWED),
    (
        &[Hold(0, 0), Push(0, 0), Drain, Begin(0), Resume],
        NOT_ALLOWED,
    ),
    (
        &[
            Hold(0, 0),
            Push(0, 0),
            Drain,
            Begin(0),
            Chain(0),
            End(0),
            Begin(0),
            End(0),
            Resume,
        ],
        None,
    ),
    (&[Resume], NOT_ALLOWED),
    (&[Drain, Resume, Resume], NOT_ALLOWED),
    (&[Drain, Close, Resume], NOT_ALLOWED),
    (&[Drain, Resume, Drain, Resume, Rest, Take, Close], None),
    (&[Drain, Rest], NOT_ALLOWED),
    (
        &[Hold(0, 0), Drain, Resume, Back(0, 0, Why::Draining)],
        None,
    ),
];

#[test]
fn histories(rt: HostRuntime) {
    for &(history, fault) in HISTORIES {
        check(&rt, history, fault);
    }
}

const FAULTS: &[(HistoryFault, &str)] = &[
    (HistoryFault::NoSeat, "no seat of the queue"),
    (
        HistoryFault::NoItem,
        "no number of the queue, or chained and no item",
    ),
    (HistoryFault::NotAllowed, "not allowed by the events before"),
];

#[test]
fn words_of_faults(rt: HostRuntime) {
    expect_each_words(&rt, rt.alloc(), FAULTS);
}

const ERRORS: &[(HistoryError, &str)] = &[
    (
        HistoryError {
            place: 0,
            kind: HistoryFault::NotAllowed,
        },
        "event 0: not allowed by the events before",
    ),
    (
        HistoryError {
            place: 7,
            kind: HistoryFault::NoItem,
        },
        "event 7: no number of the queue, or chained and no item",
    ),
];

#[test]
fn words_of_errors(rt: HostRuntime) {
    expect_each_words(&rt, rt.alloc(), ERRORS);
}

/// Whether this event may stand right after a history.
fn check_after<R: Abort>(rt: &R, before: [Event; 7], event: Event, fault: Option<HistoryFault>) {
    let [one, two, three, four, five, six, seven] = before;
    check(rt, &[one, two, three, four, five, six, seven, event], fault);
}

/// After a sender gave a number back twice, while another is on the list and sender 1 holds the barrier 2. The first sender and
/// the first number that the queue has not are 2 and 4.
const OPEN: &[(Event, Option<HistoryFault>)] = &[
    (Hold(0, 0), None),
    (Hold(0, 3), None),
    (Hold(0, 1), NOT_ALLOWED),
    (Busy(0, 1), None),
    (Busy(0, 0), NOT_ALLOWED),
    (Push(1, 2), None),
    (Push(0, 2), NOT_ALLOWED),
    (Back(1, 2, Why::Cancelled), None),
    (Back(1, 2, Why::Contended), None),
    (Back(1, 2, Why::Closed), NOT_ALLOWED),
    (Back(1, 2, Why::Draining), NOT_ALLOWED),
    (Back(0, 2, Why::Cancelled), NOT_ALLOWED),
    (Take, None),
    (Close, None),
    (Drain, None),
    (Resume, NOT_ALLOWED),
    (Begin(1), None),
    (Begin(0), NOT_ALLOWED),
    (End(1), NOT_ALLOWED),
    (Chain(0), NOT_ALLOWED),
    (ChainBusy(1), NOT_ALLOWED),
    (Rest, NOT_ALLOWED),
    (Hold(2, 0), NO_SEAT),
    (Busy(2, 1), NO_SEAT),
    (Push(2, 2), NO_SEAT),
    (Back(2, 2, Why::Cancelled), NO_SEAT),
    (Busy(0, 4), NO_ITEM),
    (Push(1, 4), NO_ITEM),
    (Back(1, 4, Why::Cancelled), NO_ITEM),
    (Begin(4), NO_ITEM),
    (End(4), NO_ITEM),
    (Chain(2), NO_ITEM),
    (Chain(3), NO_ITEM),
    (ChainBusy(2), NO_ITEM),
    (ChainBusy(3), NO_ITEM),
    (ChainBusy(4), NO_ITEM),
];

/// While 0 runs and the queue is open, 1 is on its list and sender 1 holds the barrier 2. Of what is not allowed here, and below,
/// one premise alone fails.
const OPEN_THAT_RUNS: &[(Event, Option<HistoryFault>)] = &[
    (Hold(0, 0), None),
    (Push(1, 2), None),
    (Back(1, 2, Why::Closed), NOT_ALLOWED),
    (Back(1, 2, Why::Draining), NOT_ALLOWED),
    (Take, None),
    (Close, None),
    (Drain, None),
    (Resume, NOT_ALLOWED),
    (Begin(1), NOT_ALLOWED),
    (End(0), None),
    (End(1), NOT_ALLOWED),
    (Chain(0), NOT_ALLOWED),
    (ChainBusy(1), NOT_ALLOWED),
    (Rest, NOT_ALLOWED),
];

/// After a close or a drain, of a queue on whose list are 0 and 1, while sender 1 holds the barrier 2: where nothing runs, and where
/// 0 does.
const SHUT: &[(Event, Option<HistoryFault>, Option<HistoryFault>)] = &[
    (Hold(0, 3), None, None),
    (Hold(0, 1), NOT_ALLOWED, NOT_ALLOWED),
    (Hold(0, 0), NOT_ALLOWED, None),
    (Busy(0, 1), None, None),
    (Busy(0, 0), None, NOT_ALLOWED),
    (Push(1, 2), NOT_ALLOWED, NOT_ALLOWED),
    (Back(1, 2, Why::Cancelled), None, None),
    (Back(1, 2, Why::Contended), None, None),
    (Back(0, 2, Why::Closed), NOT_ALLOWED, NOT_ALLOWED),
    (Back(0, 2, Why::Draining), NOT_ALLOWED, NOT_ALLOWED),
    (Back(1, 1, Why::Closed), NOT_ALLOWED, NOT_ALLOWED),
    (Back(1, 1, Why::Draining), NOT_ALLOWED, NOT_ALLOWED),
    (Take, NOT_ALLOWED, NOT_ALLOWED),
    (Drain, NOT_ALLOWED, NOT_ALLOWED),
    (Resume, NOT_ALLOWED, NOT_ALLOWED),
    (Begin(0), None, NOT_ALLOWED),
    (Begin(1), NOT_ALLOWED, NOT_ALLOWED),
    (End(0), NOT_ALLOWED, None),
    (End(1), NOT_ALLOWED, NOT_ALLOWED),
    (Chain(0), NOT_ALLOWED, None),
    (Chain(1), NOT_ALLOWED, NOT_ALLOWED),
    (ChainBusy(0), NOT_ALLOWED, NOT_ALLOWED),
    (ChainBusy(1), NOT_ALLOWED, None),
];

/// What a drain and a close tell apart: after a close, and after a drain.
const CLOSED_OR_DRAINING: &[(Event, Option<HistoryFault>, Option<HistoryFault>)] = &[
    (Back(1, 2, Why::Closed), None, NOT_ALLOWED),
    (Back(1, 2, Why::Draining), NOT_ALLOWED, None),
    (Close, NOT_ALLOWED, None),
];

/// Whether each event of a table may stand right after a history.
fn check_all_after<R: Abort>(rt: &R, before: [Event; 7], events: &[(Event, Option<HistoryFault>)]) {
    for &(event, fault) in events {
        check_after(rt, before, event, fault);
    }
}

#[test]
fn events_after_an_open_history(rt: HostRuntime) {
    let back = Back(0, 0, Why::Contended);
    let (hold, other, held) = (Hold(0, 0), Hold(0, 1), Hold(1, 2));
    let idle = [hold, back, hold, back, other, Push(0, 1), held];
    check_all_after(&rt, idle, OPEN);
    let running = [hold, Push(0, 0), other, Push(0, 1), held, Take, Begin(0)];
    check_all_after(&rt, running, OPEN_THAT_RUNS);
}

/// Whether an event may stand right after a close or a drain, as the mark says: where nothing runs, and where 0 does.
fn check_shut<R: Abort>(
    rt: &R,
    mark: Event,
    event: Event,
    idle: Option<HistoryFault>,
    running: Option<HistoryFault>,
) {
    let (hold, other, held) = (Hold(0, 0), Hold(0, 1), Hold(1, 2));
    let before = [hold, Push(0, 0), other, Push(0, 1), held, Busy(0, 1), mark];
    check_after(rt, before, event, idle);
    let before = [hold, Push(0, 0), other, Push(0, 1), held, mark, Begin(0)];
    check_after(rt, before, event, running);
}

#[test]
fn events_after_a_close_or_a_drain(rt: HostRuntime) {
    for &(event, idle, running) in SHUT {
        check_shut(&rt, Close, event, idle, running);
        check_shut(&rt, Drain, event, idle, running);
    }
}

#[test]
fn events_that_tell_a_close_from_a_drain(rt: HostRuntime) {
    for &(event, closed, draining) in CLOSED_OR_DRAINING {
        check_shut(&rt, Close, event, closed, closed);
        check_shut(&rt, Drain, event, draining, draining);
    }
}
