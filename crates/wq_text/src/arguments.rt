//! The words behind a keyword, and the numbers that they are.
ghost use Rattle.std.specs.Prelude.{◌<◌, ◌≤◌, ◌≢◌, Err, map, length, All, IfOk};
ghost use Rattle.wq_words.specs.Limits.{IsBetween};
ghost use Rattle.wq_text.specs.declared.fault.LineError.TheVariants.{Memory};
ghost use Rattle.wq_text.specs.Fault.{LineGives, LineGivesAs};
ghost use Rattle.wq_text.specs.Arguments.{number, between, below, sender, item, barrier, limit, no_word, one_word, two_words, word_and_at_most, one, two, each, one_and_at_most};

use crate::command::Follow;
use crate::fault::{FaultKind, LineError};
use crate::word::number_of;
use wq_words::Layout;

// The most executions that a run or a drain asks for.
const MOST_EXECUTIONS: u32 = 65_536;

pub(crate) fn number(word: &str) -> Result<u64, LineError>
    ensures exact { LineGives result (number word.now) }
    ensures memory { result ≢ Err Memory }
{
    match number_of(word) {
        Some(number) => Ok(number),
        None => Err(LineError::Fault(FaultKind::Number)),
    }
}

// A number from `low` to `high`, the one word that stands there.
#[tactic(auto, unfolding(crate::specs::Arguments::between))]
pub(crate) fn one_between(
    kind: FaultKind,
    low: u32,
    high: u32,
    words: &[&str],
) -> Result<u32, LineError>
    ensures exact { LineGives result (one (between kind low high) (map (λ w. w.now) words.now)) }
    ensures within { IfOk result (λ n. IsBetween low n high) }
{
    let word = one_word(words)?;
    let number = number(word)?;
    if number < u64::from(low) || number > u64::from(high) {
        return Err(LineError::Fault(kind));
    }
    Ok(number as u32)
}

// A number below `bound`.
#[tactic(auto, unfolding(crate::specs::Arguments::below))]
fn below(kind: FaultKind, bound: u32, word: &str) -> Result<u32, LineError>
    ensures exact { LineGives result (below kind bound word.now) }
    ensures within { IfOk result (λ n. n < bound) }
    ensures memory { result ≢ Err Memory }
{
    let number = number(word)?;
    if number >= u64::from(bound) {
        return Err(LineError::Fault(kind));
    }
    Ok(number as u32)
}

pub(crate) fn sender(layout: Layout, word: &str) -> Result<u32, LineError>
    ensures exact { LineGives result (sender layout word.now) }
    ensures within { IfOk result (λ n. n < layout.senders) }
    ensures memory { result ≢ Err Memory }
{
    below(FaultKind::Sender, layout.senders, word)
}

/// An item of the queue.
///
/// # Errors
/// `Fault` with `Number` where the word is no number, or `Item` where the queue has no such item. Never `Memory`.
pub fn item(layout: Layout, word: &str) -> Result<u32, LineError>
    ensures exact { LineGives result (item layout word.now) }
    ensures within { IfOk result (λ n. n < layout.items) }
    ensures memory { result ≢ Err Memory }
{
    below(FaultKind::Item, layout.items, word)
}

pub(crate) fn barrier(layout: Layout, word: &str) -> Result<u32, LineError>
    ensures exact { LineGives result (barrier layout word.now) }
    ensures within { IfOk result (λ n. n < layout.barriers) }
    ensures memory { result ≢ Err Memory }
{
    below(FaultKind::Barrier, layout.barriers, word)
}

// A number of executions, the one word that stands there.
pub(crate) fn one_limit(words: &[&str]) -> Result<u32, LineError>
    ensures { LineGives result (one limit (map (λ w. w.now) words.now)) }
{
    one_between(FaultKind::Limit, 1, MOST_EXECUTIONS, words)
}

// An item, the one word that stands there.
pub(crate) fn one_item(layout: Layout, words: &[&str]) -> Result<u32, LineError>
    ensures exact { LineGives result (one (item layout) (map (λ w. w.now) words.now)) }
    ensures within { IfOk result (λ n. n < layout.items) }
{
    let word = one_word(words)?;
    item(layout, word)
}

/// No word stands there.
///
/// # Errors
/// `Fault` with `Count` where a word does. Never `Memory`.
pub fn no_word(words: &[&str]) -> Result<(), LineError>
    ensures exact { LineGives result (no_word (map (λ w. w.now) words.now)) }
    ensures memory { result ≢ Err Memory }
{
    match words {
        [] => Ok(()),
        _ => Err(LineError::Fault(FaultKind::Count)),
    }
}

/// The one word that stands there.
///
/// # Errors
/// `Fault` with `Count` where none or several do. Never `Memory`.
pub fn one_word<'a>(words: &[&'a str]) -> Result<&'a str, LineError>
    ensures exact { LineGivesAs (λ w. w.now) result (one_word (map (λ w. w.now) words.now)) }
    ensures memory { result ≢ Err Memory }
{
    match words {
        [word] => Ok(word),
        _ => Err(LineError::Fault(FaultKind::Count)),
    }
}

pub(crate) fn two_words<'a>(words: &[&'a str]) -> Result<(&'a str, &'a str), LineError>
    ensures { LineGivesAs (λ w. (w.0.now, w.1.now)) result (two_words (map (λ w. w.now) words.now)) }
{
    match words {
        [first, second] => Ok((first, second)),
        _ => Err(LineError::Fault(FaultKind::Count)),
    }
}

fn word_and_at_most_four<'a, 'b>(
    words: &'b [&'a str],
) -> Result<(&'a str, &'b [&'a str]), LineError>
    ensures exact { LineGivesAs (λ w. (w.0.now, map (λ v. v.now) w.1.now)) result (word_and_at_most 4 (map (λ w. w.now) words.now)) }
    ensures few { IfOk result (λ w. length w.1.now ≤ 4) }
{
    let Some((first, others)) = words.split_first() else {
        return Err(LineError::Fault(FaultKind::Count));
    };
    if others.len() > 4 {
        return Err(LineError::Fault(FaultKind::Count));
    }
    Ok((*first, others))
}

// A sender, and a number below `bound`.
fn sender_and_below(
    layout: Layout,
    kind: FaultKind,
    bound: u32,
    words: &[&str],
) -> Result<(u32, u32), LineError>
    ensures exact { LineGives result (two (sender layout) (below kind bound) (map (λ w. w.now) words.now)) }
    ensures within { IfOk result (λ n. (n.0 < layout.senders) × (n.1 < bound)) }
{
    let (sender_word, word) = two_words(words)?;
    let sender = sender(layout, sender_word)?;
    let number = below(kind, bound, word)?;
    Ok((sender, number))
}

// A sender and an item.
pub(crate) fn sender_and_item(layout: Layout, words: &[&str]) -> Result<(u32, u32), LineError>
    ensures exact { LineGives result (two (sender layout) (item layout) (map (λ w. w.now) words.now)) }
    ensures within { IfOk result (λ n. (n.0 < layout.senders) × (n.1 < layout.items)) }
{
    sender_and_below(layout, FaultKind::Item, layout.items, words)
}

// A sender and a barrier.
pub(crate) fn sender_and_barrier(layout: Layout, words: &[&str]) -> Result<(u32, u32), LineError>
    ensures exact { LineGives result (two (sender layout) (barrier layout) (map (λ w. w.now) words.now)) }
    ensures within { IfOk result (λ n. (n.0 < layout.senders) × (n.1 < layout.barriers)) }
{
    sender_and_below(layout, FaultKind::Barrier, layout.barriers, words)
}

// An item and a delay in ticks.
pub(crate) fn item_and_delay(layout: Layout, words: &[&str]) -> Result<(u32, u64), LineError>
    ensures exact { LineGives result (two (item layout) number (map (λ w. w.now) words.now)) }
    ensures within { IfOk result (λ n. n.0 < layout.items) }
{
    let (item_word, delay_word) = two_words(words)?;
    let item = item(layout, item_word)?;
    let delay = number(delay_word)?;
    Ok((item, delay))
}

fn items(layout: Layout, words: &[&str]) -> Result<Follow, LineError>
    requires { length words.now ≤ 4 }
    ensures exact { LineGivesAs (λ v. v.items) result (each (item layout) (map (λ w. w.now) words.now)) }
    ensures within { IfOk result (λ v. All (λ n. n < layout.items) v.items) }
{
    let mut follow = Follow::new();
    for word in words {
        let item = item(layout, word)?;
        follow.push(item);
    }
    Ok(follow)
}

// An item, and the items that its function answers.
pub(crate) fn item_and_follow(layout: Layout, words: &[&str]) -> Result<(u32, Follow), LineError>
    ensures exact { LineGivesAs (λ x. (x.0, x.1.items)) result (one_and_at_most 4 (item layout) (map (λ w. w.now) words.now)) }
    ensures within { IfOk result (λ x. (x.0 < layout.items) × All (λ n. n < layout.items) x.1.items) }
{
    let (first, others) = word_and_at_most_four(words)?;
    let item = item(layout, first)?;
    let follow = items(layout, others)?;
    Ok((item, follow))
}
