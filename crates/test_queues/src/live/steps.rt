//! No tests: what the seats of a queue do in one thread, a step after another, each with what it answers.
use super::reading::{begin, chain, close, drain, end, execute_one, resume, take};
use crate::expect::expect_same;
use std::alloc::Global;
use std::process::Abort;
use std::sync::Wait;
use wq_live::{Answer, Owner, OwnerCounts, Posted, Sender, SenderCounts, build};
use wq_words::Layout;

/// How a sender queues a number.
#[derive(Clone, Copy)]
pub(crate) enum Ask {
    /// An item in one try, and in as many as it takes.
    Queue(u32),
    QueueWait(u32),
    /// A barrier in one try, and in as many as it takes, behind which it waits.
    Flush(u32),
    FlushWait(u32),
    /// The stop item in one try.
    Stop,
    /// An item that it holds and posts in one try, and gives back where the queue drains. Where it is not held it is pending.
    Post(u32),
    /// An item that it holds and gives back, which is said to be contended.
    GiveBack(u32),
}

/// The sender of this number queues so, and is answered so.
pub(crate) type Asked = (usize, Ask, Answer);

/// What a sender sees.
#[derive(Clone, Copy)]
pub(crate) enum Look {
    /// Whether this is its number.
    Numbered(u32),
    /// Whether an item is pending.
    Pending(u32),
    /// Whether a barrier's flush is done.
    Flushed(u32),
}

/// What the owner does with numbers, and which number it has or how many.
#[derive(Clone, Copy)]
pub(crate) enum Act {
    Take,
    Close,
    Drain,
    Begin,
    End,
    Execute,
    Next,
    Running,
    Waiting,
}

/// A step of a seat, with what it answers.
#[derive(Clone, Copy)]
pub(crate) enum Step {
    /// The sender of this number queues.
    Ask(usize, Ask, Answer),
    See(usize, Look, bool),
    Counts(usize, SenderCounts),
    OwnCounts(OwnerCounts),
    /// None where it is not allowed, or there is none.
    Own(Act, Option<u32>),
    /// None where it is not allowed.
    Chain(u32, Option<Answer>),
    /// Whether it ends the drain.
    Resume(bool),
    /// Whether the queue is closed, whether it drains, and whether its drain has run out.
    Phase(bool, bool, bool),
    /// How many have ended, where the queue is closed and all is done.
    Done(Option<u64>),
}

/// What a push answers, as a queueing says it.
pub(crate) fn as_answer(posted: Posted) -> Answer {
    match posted {
        Posted::Queued { first, wakes } => Answer::Queued { first, wakes },
        Posted::Closed => Answer::Closed,
        Posted::Draining => Answer::Draining,
        Posted::Contended => Answer::Contended,
    }
}

/// Holds an item, and posts it or gives it back. What was posted and met a drain is given back too.
fn hold_then(sender: &mut Sender, item: u32, posts: bool) -> Option<Answer> {
    if item >= sender.layout().items {
        return None;
    }
    if !sender.hold(item) {
        return Some(Answer::Pending);
    }
    if posts {
        let posted = sender.post(item, 1);
        if let Posted::Draining = posted {
            sender.give_back(item);
        }
        return Some(as_answer(posted));
    }
    sender.give_back(item);
    Some(Answer::Contended)
}

/// Queues a number. None where the queue has none such.
fn answer_of<R: Wait>(rt: &R, sender: &mut Sender, asked: Ask) -> Option<Answer> {
    match asked {
        Ask::Queue(item) if item < sender.layout().items => Some(sender.queue_tries(item, 1)),
        Ask::QueueWait(item) if item < sender.layout().items => Some(sender.queue(rt, item)),
        Ask::Flush(barrier) if barrier < sender.layout().barriers => {
            Some(sender.flush_begin(barrier, 1))
        }
        Ask::FlushWait(barrier) if barrier < sender.layout().barriers => {
            Some(sender.flush(rt, barrier))
        }
        Ask::Stop => Some(sender.request_stop(1)),
        Ask::Post(item) => hold_then(sender, item, true),
        Ask::GiveBack(item) => hold_then(sender, item, false),
        _ => None,
    }
}

fn see(sender: &mut Sender, look: Look) -> Option<bool> {
    match look {
        Look::Numbered(number) => Some(sender.number() == number),
        Look::Pending(item) if item < sender.layout().items => Some(sender.is_pending(item)),
        Look::Flushed(barrier) if barrier < sender.layout().barriers => {
            Some(sender.flush_done(barrier))
        }
        _ => None,
    }
}

fn number_of(owner: &mut Owner, done: Act) -> Option<u32> {
    match done {
        Act::Take => take(owner),
        Act::Close => close(owner),
        Act::Drain => drain(owner),
        Act::Begin => begin(owner),
        Act::End => end(owner),
        Act::Execute => execute_one(owner),
        Act::Next => owner.next(),
        Act::Running => owner.running(),
        Act::Waiting => Some(owner.waiting()),
    }
}

/// What a step of the owner answers that is no number.
fn check_own<R: Abort>(rt: &R, owner: &mut Owner, place: usize, step: Step) {
    match step {
        Step::Chain(item, answer) => {
            expect_same(rt, (place, chain(owner, item)), (place, answer));
        }
        Step::OwnCounts(counts) => expect_same(rt, owner.counts(), counts),
        Step::Resume(ends) => expect_same(rt, (place, resume(owner)), (place, ends)),
        Step::Phase(closed, drains, is_out) => {
            let phase = (owner.is_closed(), owner.is_draining(), owner.drained());
            expect_same(rt, (place, phase), (place, (closed, drains, is_out)));
        }
        Step::Done(count) => {
            let ended = match owner.done() {
                Some(done) => Some(done.ended),
                None => None,
            };
            expect_same(rt, (place, ended), (place, count));
        }
        Step::Ask(..) | Step::See(..) | Step::Counts(..) | Step::Own(..) => {}
    }
}

/// The owner and the two senders of a new queue of four items and so many barriers.
pub(crate) fn new_seats<R: Abort>(rt: &R, alloc: Global, barriers: u32) -> (Owner, Vec<Sender>) {
    let layout = Layout::new(4, barriers, 2).expect(rt, "a layout");
    build(alloc, layout).expect(rt, "memory for a queue")
}

/// Senders queue one after another, each of this number, and each is answered so.
pub(crate) fn ask_all<R: Abort + Wait>(rt: &R, senders: &mut Vec<Sender>, asks: &[Asked]) {
    for (place, &(number, asked, wanted)) in asks.iter().enumerate() {
        let sender = senders.get_mut(number).expect(rt, "a sender");
        expect_same(
            rt,
            (place, answer_of(rt, sender, asked)),
            (place, Some(wanted)),
        );
    }
}

/// Makes the steps, and looks whether each answers what is said of it.
pub(crate) fn play<R: Abort + Wait>(
    rt: &R,
    owner: &mut Owner,
    senders: &mut Vec<Sender>,
    steps: &[Step],
) {
    for (place, &step) in steps.iter().enumerate() {
        match step {
            Step::Ask(number, asked, wanted) => {
                let sender = senders.get_mut(number).expect(rt, "a sender");
                let answer = answer_of(rt, sender, asked);
                expect_same(rt, (place, answer), (place, Some(wanted)));
            }
            Step::See(number, look, says) => {
                let sender = senders.get_mut(number).expect(rt, "a sender");
                expect_same(rt, (place, see(sender, look)), (place, Some(says)));
            }
            Step::Counts(number, counts) => {
                let sender = senders.get_mut(number).expect(rt, "a sender");
                expect_same(rt, sender.counts(), counts);
            }
            Step::Own(done, number) => {
                expect_same(rt, (place, number_of(owner, done)), (place, number));
            }
            _ => check_own(rt, owner, place, step),
        }
    }
}

/// Makes the steps on a new queue of four items and two barriers.
pub(crate) fn play_new<R: Abort + Wait>(rt: &R, alloc: Global, steps: &[Step]) {
    let (mut owner, mut senders) = new_seats(rt, alloc, 2);
    play(rt, &mut owner, &mut senders, steps);
    drop(senders);
    drop(owner);
}
