//! The machine of steps: what it refuses, and what holds after each step of a schedule, whichever seat stops in it. The schedules
//! are those of `schedules.rows` and `draining_schedules.rows` in `checks/rows`, which say what each step replies.
use crate::expect::{expect_each_words, expect_same, expect_words};
use std::process::Abort;
use wq_core::Reply::{GivenBack, Held, Linked};
use wq_core::Step::{
    Back, Begin, Chain, Check, Drain, End, Hold, Link, Look, Push, Rest, Resume, Take, Walk,
};
use wq_core::{Reply, Seat, Step, chain_and_batch, each_step_keeps_sound, first_push};
use wq_machine::{Core, Keeper, ReplayError, StepError, replay, replay_on};
use wq_meaning::RunError;
use wq_text::{FaultKind, LineError, ParseError, Schedule, parse_steps};
use wq_words::{Event, Head, Layout, Why, check_history};

const S0: Seat = Seat::Sender(0);

const S1: Seat = Seat::Sender(1);

const O: Seat = Seat::Owner;

/// Schedules whose steps are all enabled: a number queued again since a look, a lost exchange, a close between a link and its
/// exchange, a sender that stalls, and items that are chained; with what each accepted and began.
const ENABLED: &[(&str, &[u32], &[u32])] = &[
    (
        "steps 1\nitems 4\nsenders 2\n0 hold 0\n0 look\n0 link 0\n0 push 0\n1 hold 1\n1 look\no take\no walk\no begin\n0 hold 0\n0 look\n\
         0 link 0\n0 push 0\n1 link 1\n1 push 1\no end\no take\no walk\no walk\no begin\no end\no begin\no end\n",
        &[0, 0, 1],
        &[0, 0, 1],
    ),
    (
        "steps 1\nitems 4\nsenders 2\n0 hold 0\n1 hold 1\n0 look\n1 look\n0 link 0\n1 link 1\n0 push 0\n1 push 1\n1 look\n1 link 1\n\
         1 push 1\n",
        &[0, 1],
        &[],
    ),
    (
        "steps 1\nitems 4\nsenders 2\n0 hold 2\n0 look\n0 link 2\no close\n0 push 2\n0 look\n0 back 2 closed\n0 check 2\n",
        &[],
        &[],
    ),
    (
        "steps 1\nitems 4\nsenders 2\n0 hold 2\n1 hold 2\n1 hold 3\n1 look\n1 link 3\n1 push 3\no take\no walk\no begin\no end\n\
         1 hold 2\n",
        &[3],
        &[3],
    ),
    (
        "steps 1\nitems 4\nsenders 2\n0 hold 0\n0 look\n0 link 0\n0 check 0\n0 push 0\no close\no walk\no begin\no chain 1\no chain 1\n\
         o chain 0\no end\no begin\no end\no begin\n",
        &[0, 1, 0],
        &[0, 1, 0],
    ),
];

/// Schedules of which some steps are not enabled: a walk first, links that are turned, an owner that rests, a drain of two while a
/// sender holds an item that it has linked, and a drain while a batch waits, with a second one that is closed.
const OTHERS: &[&str] = &[
    "steps 1\nitems 4\nsenders 2\no walk\n0 hold 0\n0 look\n0 link 0\n0 push 0\no take\no begin\no walk\no begin\n",
    "steps 1\nitems 4\nsenders 2\n0 hold 0\n0 look\n0 link 0\n0 push 0\n0 hold 1\n0 look\n0 link 1\n0 push 1\no take\no turn 1 end\n\
     o walk\no turn 1 end\no walk\no turn 0 1\no walk\no begin\no turn 0 end\no end\no walk\no begin\n",
    "steps 1\nitems 4\nsenders 2\no rest\no take\n0 hold 0\n0 look\no rest\n0 link 0\n0 push 0\n0 look\n0 link 0\n0 push 0\no rest\n\
     o take\no rest\n",
    "steps 2\nitems 4\nsenders 2\n0 hold 0\n0 look\n0 link 0\n0 push 0\n1 hold 1\n1 look\n1 link 1\n1 push 1\n0 hold 2\n0 look\n\
     0 link 2\no drain\n0 push 2\no walk\no begin\no resume\n1 hold 3\n1 look\n1 link 3\n1 back 3 draining\no walk\no begin\n\
     o chain 3\no end\n0 look\no begin\no end\no resume\n0 back 2 draining\no begin\no end\no resume\n0 hold 2\n0 look\n0 link 2\n\
     0 push 2\n",
    "steps 2\nitems 4\nsenders 2\n0 hold 0\n0 look\n0 link 0\n0 push 0\n1 hold 2\n1 look\n1 link 2\no take\no drain\no walk\n\
     o drain\no walk\no begin\no take\n1 push 2\no chain 1\no chain 1\n1 look\no end\n1 back 2 draining\no rest\no begin\no end\n\
     o resume\n1 hold 2\n1 look\n1 link 2\no drain\n1 push 2\n1 hold 3\no close\no resume\n1 look\n1 back 3 draining\n\
     1 back 2 closed\n",
];

fn schedule<R: Abort + AllocGlobal>(rt: &R, text: &str) -> Schedule {
    parse_steps(rt.alloc(), text.as_bytes()).expect(rt, "a schedule")
}

/// A replay from a machine that is there gives the history that one as a whole gives.
fn check_replay_on<R: Abort + AllocGlobal>(rt: &R, schedule: &Schedule, whole: &Core) {
    let mut core = Core::new(rt.alloc(), *schedule.layout()).expect(rt, "memory");
    expect_same(rt, replay_on(&mut core, schedule.turns()), Ok(()));
    expect_same(rt, core.history(), whole.history());
    drop(core);
}

/// A replay as a whole gives what was accepted and begun.
fn check_replay<R: Abort + AllocGlobal>(rt: &R, text: &str, accepted: &[u32], begun: &[u32]) {
    let schedule = schedule(rt, text);
    let replayed = replay(rt.alloc(), *schedule.layout(), schedule.turns()).expect(rt, "a replay");
    expect_same(
        rt,
        replayed.accepted().expect(rt, "memory").as_slice(),
        accepted,
    );
    expect_same(rt, replayed.begun().expect(rt, "memory").as_slice(), begun);
    check_replay_on(rt, &schedule, &replayed);
    drop(replayed);
}

#[test]
fn schedules(rt: HostRuntime) {
    for &(text, accepted, begun) in ENABLED {
        check_replay(&rt, text, accepted, begun);
    }
}

/// Of a walk before anything was taken, in a schedule whose other steps but one are enabled.
#[test]
fn replay_is_refused_at_its_first_step(rt: HostRuntime) {
    let text =
        "steps 1\nitems 4\nsenders 2\no walk\n0 hold 0\n0 look\n0 link 0\n0 push 0\no take\no begin\no walk\no begin\n";
    let schedule = schedule(&rt, text);
    let refused = replay(rt.alloc(), *schedule.layout(), schedule.turns()).err();
    expect_same(
        &rt,
        refused,
        Some(ReplayError {
            at: 0,
            why: StepError::NotEnabled,
        }),
    );
}

/// Makes a step, where it is enabled. False where it is refused for another cause, where the history is then not legal, or
/// where what has begun does not begin what was accepted.
fn goes_on<R: Abort>(rt: &R, core: &mut Core, layout: &Layout, seat: Seat, step: Step) -> bool {
    match core.step(seat, step) {
        Ok(_) | Err(StepError::NotEnabled) => {}
        Err(_) => return false,
    }
    let accepted = core.accepted().expect(rt, "memory");
    let begun = core.begun().expect(rt, "memory");
    accepted.starts_with(&begun) && check_history(layout, core.history()).is_ok()
}

/// A sender queues a number that no schedule has, by steps each of which is enabled: it is pushed, or where the queue is shut given
/// back.
fn queues_number(core: &mut Core, sender: Seat, number: u32) -> bool {
    if core.step(sender, Hold(number)) != Ok(Held) {
        return false;
    }
    let why = match core.step(sender, Look) {
        Ok(Reply::Looked(Head::Closed)) => Why::Closed,
        Ok(Reply::Looked(Head::Draining)) => Why::Draining,
        Ok(Reply::Looked(_)) => {
            return core.step(sender, Link(number)) == Ok(Linked)
                && matches!(core.step(sender, Push(number)), Ok(Reply::Pushed { .. }));
        }
        _ => return false,
    };
    core.step(sender, Back(number, why)) == Ok(GivenBack)
}

/// The owner makes the first of these steps that is enabled.
fn owner_goes_on(core: &mut Core) {
    for &step in &[End, Begin, Walk, Take] {
        if core.step(O, step).is_ok() {
            return;
        }
    }
}

/// The owner ends, begins, walks and takes for more steps than any schedule wants. Whether all that was accepted has then ended.
fn owner_runs_out<R: Abort>(rt: &R, core: &mut Core) -> bool {
    for _ in 0..50 {
        owner_goes_on(core);
    }
    let accepted = core.accepted().expect(rt, "memory");
    let begun = core.begun().expect(rt, "memory");
    core.step(O, End) == Err(StepError::NotEnabled) && begun.as_slice() == accepted.as_slice()
}

/// Whether all seats but the one that stopped come to their ends: each other sender queues the barrier or the stop item, and the
/// owner then runs out.
fn others_end<R: Abort>(rt: &R, core: &mut Core, stopped: Seat) -> bool {
    (stopped == S0 || queues_number(core, S0, 4))
        && (stopped == S1 || queues_number(core, S1, 5))
        && (stopped == O || owner_runs_out(rt, core))
}

/// The schedule without the steps of a seat from a place on. The number of steps until the first that does not go on, and whether
/// the others come to their ends behind the last.
fn steps_without<R: Abort + AllocGlobal>(
    rt: &R,
    schedule: &Schedule,
    stopped: Seat,
    place: usize,
) -> (usize, bool) {
    let mut core = Core::new(rt.alloc(), *schedule.layout()).expect(rt, "memory");
    for (at, (seat, step)) in schedule.turns().iter().enumerate() {
        if at >= place && *seat == stopped {
            continue;
        }
        if !goes_on(rt, &mut core, schedule.layout(), *seat, *step) {
            return (at, false);
        }
    }
    let ends = others_end(rt, &mut core, stopped);
    drop(core);
    (schedule.turns().len(), ends)
}

/// A seat stops at each place of a schedule, and at its end: what the others still do is legal, and runs in the order of its
/// acceptance, and they come to their ends.
fn check_stops_of<R: Abort + AllocGlobal>(rt: &R, text: &str, stopped: Seat) {
    let schedule = schedule(rt, text);
    let count = schedule.turns().len();
    for place in 0..=count {
        let stop = steps_without(rt, &schedule, stopped, place);
        expect_same(
            rt,
            (text, stopped, place, stop),
            (text, stopped, place, (count, true)),
        );
    }
}

/// Each seat stops so.
fn check_stops<R: Abort + AllocGlobal>(rt: &R, text: &str) {
    for &stopped in &[S0, S1, O] {
        check_stops_of(rt, text, stopped);
    }
}

fn check_stops_of_others<R: Abort + AllocGlobal>(rt: &R) {
    for &text in OTHERS {
        check_stops(rt, text);
    }
}

#[test]
fn each_seat_stops_at_each_place(rt: HostRuntime) {
    for &(text, _, _) in ENABLED {
        check_stops(&rt, text);
    }
    check_stops_of_others(&rt);
}

fn layout<R: Abort>(rt: &R) -> Layout {
    Layout::new(4, 1, 2).expect(rt, "a layout")
}

/// Whether a step is refused for this, and at its place in a replay and in the going on of one.
fn is_refused<R: Abort + AllocGlobal>(
    rt: &R,
    core: &mut Core,
    turn: (Seat, Step),
    why: StepError,
) -> bool {
    let replayed = replay(rt.alloc(), layout(rt), &[(S1, Hold(5)), turn]).err();
    core.step(turn.0, turn.1) == Err(why)
        && replayed == Some(ReplayError { at: 1, why })
        && replay_on(core, &[turn]) == Err(ReplayError { at: 0, why })
}

/// Each refusal, the first that fits, of a queue of 4 items, 1 barrier and 2 senders: 4 is the barrier, 5 the stop item.
const REFUSED: &[(Seat, Step, StepError)] = &[
    (Seat::Sender(2), Hold(6), StepError::NoSeat),
    (S0, Take, StepError::NoSeat),
    (S0, Drain, StepError::NoSeat),
    (S0, Resume, StepError::NoSeat),
    (S0, Chain(9), StepError::NoSeat),
    (O, Hold(0), StepError::NoSeat),
    (O, Check(9), StepError::NoSeat),
    (S1, Hold(6), StepError::NoItem),
    (S0, Push(6), StepError::NoItem),
    (O, Chain(4), StepError::NoItem),
    (S0, Step::Turn(0, None), StepError::NoSeat),
    (S0, Rest, StepError::NoSeat),
    (O, Step::Turn(6, None), StepError::NoItem),
    (O, Step::Turn(0, Some(6)), StepError::NoItem),
    (O, Step::Turn(0, Some(5)), StepError::NotEnabled),
    (S0, Link(5), StepError::NotEnabled),
    (S0, Push(0), StepError::NotEnabled),
    (S0, Back(0, Why::Cancelled), StepError::NotEnabled),
    (O, Resume, StepError::NotEnabled),
    (O, Begin, StepError::NotEnabled),
    (O, End, StepError::NotEnabled),
    (O, Chain(3), StepError::NotEnabled),
];

#[test]
fn refusals(rt: HostRuntime) {
    let mut core = Core::new(rt.alloc(), layout(&rt)).expect(&rt, "memory");
    for &(seat, step, why) in REFUSED {
        let is_refused = is_refused(&rt, &mut core, (seat, step), why);
        expect_same(&rt, (seat, step, is_refused), (seat, step, true));
    }
    expect_same(&rt, core.history().len(), 0);
    expect_same(&rt, core.step(S1, Hold(5)), Ok(Held));
    expect_same(&rt, core.history(), [Event::Hold(1, 5)].as_slice());
    drop(core);
}

/// Schedules, and whether a push of 0 behind them wakes, which no row says: it does where the queue rests, and not behind a take,
/// though a drain came to its end since.
const PUSHED: &[(&str, bool)] = &[
    (
        "steps 2\nitems 4\nsenders 2\n0 hold 0\n0 look\n0 link 0\n",
        true,
    ),
    (
        "steps 2\nitems 4\nsenders 2\no take\n0 hold 0\n0 look\n0 link 0\no drain\no resume\n",
        false,
    ),
];

fn check_push<R: Abort + AllocGlobal>(rt: &R, text: &str, wakes: bool) {
    let schedule = schedule(rt, text);
    let mut core = replay(rt.alloc(), *schedule.layout(), schedule.turns()).expect(rt, "a replay");
    let reply = core.step(S0, Push(0));
    let pushed = Reply::Pushed { first: true, wakes };
    expect_same(rt, (text, reply), (text, Ok(pushed)));
    drop(core);
}

#[test]
fn pushes_that_wake(rt: HostRuntime) {
    for &(text, wakes) in PUSHED {
        check_push(&rt, text, wakes);
    }
}

/// Schedules with who keeps which number at their ends: what was taken and what was pushed since, what a sender holds, and what
/// has begun; in a drain what was chained, and what came back. Behind the last number, that of the stop item, there is none.
const KEPT: &[(&str, &[(u32, Option<Keeper>)])] = &[
    (
        "steps 1\nitems 4\nsenders 2\n0 hold 0\n0 look\n0 link 0\n0 push 0\n0 hold 1\n0 look\n0 link 1\n0 push 1\no take\n\
         0 hold 2\n1 hold 3\n1 look\n1 link 3\n1 push 3\no walk\no walk\no begin\n",
        &[
            (0, Some(Keeper::Home)),
            (1, Some(Keeper::Owner)),
            (2, Some(Keeper::Sender(0))),
            (3, Some(Keeper::List)),
            (4, Some(Keeper::Home)),
            (5, Some(Keeper::Home)),
            (6, None),
        ],
    ),
    (
        "steps 2\nitems 4\nsenders 2\n0 hold 0\n0 look\n0 link 0\n0 push 0\n0 hold 1\n0 look\n0 link 1\n0 push 1\n1 hold 2\n\
         o drain\no walk\no walk\no begin\n1 look\n1 back 2 draining\no chain 3\n1 hold stop\n",
        &[
            (0, Some(Keeper::Home)),
            (1, Some(Keeper::Owner)),
            (2, Some(Keeper::Home)),
            (3, Some(Keeper::Owner)),
            (5, Some(Keeper::Sender(1))),
            (6, None),
        ],
    ),
];

/// At the end of a schedule each of these numbers has its keeper.
fn check_keepers<R: Abort + AllocGlobal>(rt: &R, text: &str, keepers: &[(u32, Option<Keeper>)]) {
    let schedule = schedule(rt, text);
    let core = replay(rt.alloc(), *schedule.layout(), schedule.turns()).expect(rt, "a replay");
    for &(number, keeper) in keepers {
        let kept = (text, number, core.keeper(number));
        expect_same(rt, kept, (text, number, keeper));
    }
    drop(core);
}

#[test]
fn keepers(rt: HostRuntime) {
    for &(text, keepers) in KEPT {
        check_keepers(&rt, text, keepers);
    }
}

/// What a caller has in hand of a core, whatever was done to it.
#[test]
fn laws(rt: HostRuntime) {
    let core = Core::new(rt.alloc(), layout(&rt)).expect(&rt, "memory");
    core.sound();
    each_step_keeps_sound();
    chain_and_batch();
    first_push();
    drop(core);
}

#[test]
fn words_of_errors(rt: HostRuntime) {
    let alloc = rt.alloc();
    let errors = [
        (StepError::NoSeat, "no step of a seat of the queue"),
        (
            StepError::NoItem,
            "no number of the queue, or chained and no item",
        ),
        (StepError::NotEnabled, "not enabled"),
        (StepError::Memory, "memory"),
    ];
    expect_each_words(&rt, alloc, errors.as_slice());
    let error = ReplayError {
        at: 2,
        why: StepError::NotEnabled,
    };
    expect_words(&rt, alloc, &error, "step 2: not enabled");
    expect_words(&rt, alloc, &RunError::Memory, "memory");
    expect_words(&rt, alloc, &ParseError::Memory, "memory");
    expect_words(&rt, alloc, &LineError::Memory, "memory");
    expect_words(&rt, alloc, &LineError::Fault(FaultKind::Word), "Word");
}
