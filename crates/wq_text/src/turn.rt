//! The steps of a schedule, as words.
ghost use Rattle.std.specs.Prelude.{◌≡◌, ◌≢◌, ◌<◌, ◌-◌, ◌==◌, Err, length, map, is_none, MatchOption, IfOk, IfSome};
ghost use Rattle.wq_words.specs.Numbers.{number_count};
ghost use Rattle.wq_text.specs.declared.fault.LineError.TheVariants.{Memory};
ghost use Rattle.wq_text.specs.Fault.{LineGives, of_two};
ghost use Rattle.wq_text.specs.Word.{without_first};
ghost use Rattle.wq_text.specs.Turn.{after_b, number_of_queue, link_of, owners_action, senders_action, cause_at, why_at, nth_word, owners_action_2, senders_action_2, action_at, action_at_2, seat_alone, seat_and_number, number_and_link, without_last, senders_step, owners_step, turn_gives};
ghost use Rattle.wq_text.specs.Turns.{PlacedIn};

use crate::arguments::{barrier, item, no_word, one_item, one_word, sender, two_words};
use crate::fault::LineError;
use wq_core::{Seat, Step};
use wq_words::{Layout, Why};

// A sender's step with one number of the queue, and no cause.
#[derive(Clone, Copy)]
pub(crate) enum SendersStep {
    Hold,
    Link,
    Push,
    Check,
}

// An owner's step with no number.
#[derive(Clone, Copy)]
pub(crate) enum OwnersStep {
    Take,
    Close,
    Drain,
    Resume,
    Walk,
    Begin,
    End,
    Rest,
}

// What a step does, without its seat and numbers. Look and Back are a sender's too, Chain and Turn an owner's.
#[derive(Clone, Copy)]
pub(crate) enum Action {
    Sender(SendersStep),
    Look,
    Back(Why),
    Owner(OwnersStep),
    Chain,
    Turn,
}

fn digits_of_barrier(word: &str) -> Option<&str>
    ensures { MatchOption result (after_b word.now ≡ None) (λ digits. after_b word.now ≡ Some digits.now) }
{
    word.strip_prefix('b')
}

/// A number of the queue: an item, `b` and a barrier, or `stop`.
///
/// # Errors
/// `Fault` with `Number` where what should be a number is none, or `Item` or `Barrier` where the queue has no such item or barrier.
/// Never `Memory`.
#[tactic(auto, unfolding(crate::specs::Turn::number_of_queue))]
pub fn number_of_queue(layout: Layout, word: &str) -> Result<u32, LineError>
    ensures exact { LineGives result (number_of_queue layout word.now) }
    ensures within { IfOk result (λ n. n < number_count layout) }
    ensures memory { result ≢ Err Memory }
{
    match word {
        "stop" => Ok(layout.stop()),
        _ => match digits_of_barrier(word) {
            Some(digits) => Ok(layout.barrier(barrier(layout, digits)?)),
            None => item(layout, word),
        },
    }
}

#[tactic(auto, unfolding(crate::specs::Turn::owners_action))]
fn owners_action(word: &str) -> Option<Action>
    ensures { result ≡ owners_action word.now }
{
    match word {
        "take" => Some(Action::Owner(OwnersStep::Take)),
        "close" => Some(Action::Owner(OwnersStep::Close)),
        "walk" => Some(Action::Owner(OwnersStep::Walk)),
        "begin" => Some(Action::Owner(OwnersStep::Begin)),
        "end" => Some(Action::Owner(OwnersStep::End)),
        "chain" => Some(Action::Chain),
        "turn" => Some(Action::Turn),
        "rest" => Some(Action::Owner(OwnersStep::Rest)),
        _ => None,
    }
}

// The same in version 2.
#[tactic(auto, unfolding(crate::specs::Turn::owners_action_2))]
fn owners_action_2(word: &str) -> Option<Action>
    ensures { result ≡ owners_action_2 word.now }
{
    match word {
        "drain" => Some(Action::Owner(OwnersStep::Drain)),
        "resume" => Some(Action::Owner(OwnersStep::Resume)),
        _ => owners_action(word),
    }
}

// The cause of giving back that a word names.
#[tactic(auto, unfolding(crate::specs::Turn::cause_at))]
fn cause_of(word: &str) -> Option<Why>
    ensures { result ≡ cause_at word.now }
{
    match word {
        "closed" => Some(Why::Closed),
        "contended" => Some(Why::Contended),
        "cancelled" => Some(Why::Cancelled),
        _ => None,
    }
}

/// The cause of giving back that a word names in a language that knows drains.
#[tactic(auto, unfolding(crate::specs::Turn::why_at))]
pub fn why_of(word: &str) -> Option<Why>
    ensures why { result ≡ why_at word.now }
{
    match word {
        "draining" => Some(Why::Draining),
        _ => cause_of(word),
    }
}

#[tactic(auto, unfolding(crate::specs::Turn::senders_action))]
fn senders_action(word: &str, last: &str) -> Option<Action>
    ensures { result ≡ senders_action word.now last.now }
{
    match word {
        "hold" => Some(Action::Sender(SendersStep::Hold)),
        "look" => Some(Action::Look),
        "link" => Some(Action::Sender(SendersStep::Link)),
        "push" => Some(Action::Sender(SendersStep::Push)),
        "back" => cause_of(last).map(Action::Back),
        "check" => Some(Action::Sender(SendersStep::Check)),
        _ => None,
    }
}

// The same in version 2.
#[tactic(auto, unfolding(crate::specs::Turn::senders_action_2))]
fn senders_action_2(word: &str, last: &str) -> Option<Action>
    ensures { result ≡ senders_action_2 word.now last.now }
{
    match word {
        "back" => why_of(last).map(Action::Back),
        _ => senders_action(word, last),
    }
}

fn seat_alone(layout: Layout, first: &str, words: &[&str]) -> Result<u32, LineError>
    ensures exact { LineGives result (seat_alone layout first.now (map (λ w. w.now) words.now)) }
    ensures within { IfOk result (λ s. s < layout.senders) }
{
    no_word(words)?;
    sender(layout, first)
}

/// A sender, and a number of the queue in the one word behind.
///
/// # Errors
/// `Fault` with `Count` where not just one word stands behind; then with `Number` or `Sender` where the first names no sender of
/// the queue; then with that of `number_of_queue`. Never `Memory`.
pub fn seat_and_number(layout: Layout, first: &str, words: &[&str]) -> Result<(u32, u32), LineError>
    ensures exact { LineGives result (seat_and_number layout first.now (map (λ w. w.now) words.now)) }
    ensures within { IfOk result (λ n. (n.0 < layout.senders) × (n.1 < number_count layout)) }
    ensures memory { result ≢ Err Memory }
{
    let word = one_word(words)?;
    let sender = sender(layout, first)?;
    let number = number_of_queue(layout, word)?;
    Ok((sender, number))
}

// Where a link leads: to a number of the queue, or to none.
#[tactic(auto, unfolding(crate::specs::Turn::link_of))]
fn link_of(layout: Layout, word: &str) -> Result<Option<u32>, LineError>
    ensures exact { LineGives result (link_of layout word.now) }
    ensures within { IfOk result (λ next. IfSome next (λ k. k < number_count layout)) }
{
    match word {
        "end" => Ok(None),
        _ => number_of_queue(layout, word).map(Some),
    }
}

// The owner's turn of a number's link.
fn link_turn(layout: Layout, words: &[&str]) -> Result<(Seat, Step), LineError>
    ensures exact { LineGives result (of_two (λ k next. (Seat.Owner, Step.Turn k next)) (number_and_link layout (map (λ w. w.now) words.now))) }
    ensures fits { IfOk result (PlacedIn layout) }
{
    let (word, next_word) = two_words(words)?;
    let number = number_of_queue(layout, word)?;
    let next = link_of(layout, next_word)?;
    Ok((Seat::Owner, Step::Turn(number, next)))
}

// The sender's step of this number.
fn senders_step(step: SendersStep, number: u32) -> Step
    ensures { result ≡ senders_step step number }
{
    match step {
        SendersStep::Hold => Step::Hold(number),
        SendersStep::Link => Step::Link(number),
        SendersStep::Push => Step::Push(number),
        SendersStep::Check => Step::Check(number),
    }
}

fn owners_step(step: OwnersStep) -> Step
    ensures { result ≡ owners_step step }
{
    match step {
        OwnersStep::Take => Step::Take,
        OwnersStep::Close => Step::Close,
        OwnersStep::Drain => Step::Drain,
        OwnersStep::Resume => Step::Resume,
        OwnersStep::Walk => Step::Walk,
        OwnersStep::Begin => Step::Begin,
        OwnersStep::End => Step::End,
        OwnersStep::Rest => Step::Rest,
    }
}

// A step's turn, from its first word and the words behind the second.
#[tactic(auto, unfolding(crate::specs::Turn::turn_gives))]
pub(crate) fn turn(
    layout: Layout,
    action: Action,
    first: &str,
    words: &[&str],
) -> Result<(Seat, Step), LineError>
    ensures exact { LineGives result (turn_gives layout action first.now (map (λ w. w.now) words.now)) }
    ensures fits { IfOk result (PlacedIn layout) }
{
    match action {
        Action::Sender(step) => {
            let (sender, number) = seat_and_number(layout, first, words)?;
            Ok((Seat::Sender(sender), senders_step(step, number)))
        }
        Action::Look => {
            let sender = seat_alone(layout, first, words)?;
            Ok((Seat::Sender(sender), Step::Look))
        }
        Action::Back(why) => {
            let (sender, number) = seat_and_number(layout, first, without_last(words))?;
            Ok((Seat::Sender(sender), Step::Back(number, why)))
        }
        Action::Owner(step) => {
            no_word(words)?;
            Ok((Seat::Owner, owners_step(step)))
        }
        Action::Chain => {
            let number = one_item(layout, words)?;
            Ok((Seat::Owner, Step::Chain(number)))
        }
        Action::Turn => link_turn(layout, words),
    }
}

/// The words without the last of them; no words where there are none.
pub fn without_last<'a, 'b>(words: &'b [&'a str]) -> &'b [&'a str]
    ensures words { map (λ w. w.now) result.now ≡ without_last (map (λ w. w.now) words.now) }
{
    &words[..words.len().saturating_sub(1)]
}

// The word that names a step, and the last one.
fn word_and_last<'a>(words: &[&'a str]) -> Option<(&'a str, &'a str)>
    ensures none { (length (map (λ w. w.now) words.now) == 0) ≡ is_none result }
    ensures word { IfSome result (λ w. w.0.now ≡ nth_word 0 (map (λ w. w.now) words.now)) }
    ensures last { IfSome result (λ w. w.1.now ≡ nth_word (length (map (λ w. w.now) words.now) - 1) (map (λ w. w.now) words.now)) }
{
    match words {
        [] => None,
        [word, ..] => Some((word, words[words.len() - 1])),
    }
}

// Which step the words of a line name, of which two at least have to stand there.
pub(crate) fn action_of(first: &str, others: &[&str]) -> Option<Action>
    ensures { result ≡ action_at first.now (map (λ w. w.now) others.now) }
{
    match word_and_last(others) {
        None => None,
        Some((word, last)) => match first {
            "o" => owners_action(word),
            _ => senders_action(word, last),
        },
    }
}

// The same in version 2.
pub(crate) fn action_of_2(first: &str, others: &[&str]) -> Option<Action>
    ensures { result ≡ action_at_2 first.now (map (λ w. w.now) others.now) }
{
    match word_and_last(others) {
        None => None,
        Some((word, last)) => match first {
            "o" => owners_action_2(word),
            _ => senders_action_2(word, last),
        },
    }
}

/// The words without the first of them; no words where there are none.
pub fn without_first<'a, 'b>(words: &'b [&'a str]) -> &'b [&'a str]
    ensures words { map (λ w. w.now) result.now ≡ without_first (map (λ w. w.now) words.now) }
{
    match words {
        [_, others @ ..] => others,
        [] => words,
    }
}
