//! A log that has come to its end.
ghost use Rattle.std.specs.Prelude.{◌≡◌, IfOk};
ghost use Rattle.wq_value_pool.specs.History.{accepted};
ghost use Rattle.wq_value_pool.specs.Legal.{IsComplete};
ghost use Rattle.wq_value_pool.specs.Seen.{own};
ghost use Rattle.wq_value_pool.specs.Headline.{KeepsHeadline};
ghost use Rattle.wq_value_pool.specs.Valued.{IsLegalWith, with_values};
ghost use Rattle.wq_value_pool.specs.OwnBrought.{own_brought};
ghost use mathlib.Core.List.{IsPrefix};
ghost use Rattle.wq_value_pool.specs.Returned.{pairs_of};
ghost use Rattle.wq_value_pool.specs.Quiet.{IsQuiet};
ghost use Rattle.example_log.specs.Sent.{own_lines};
ghost use Rattle.example_log.specs.Text.{text_of};

use crate::error::LogError;
use crate::message::Line;
use crate::writer::Writer;
use wq_value_worker::ValueBook;
use wq_values::ValueSender;

/// A log that has come to its end: its text, its queue's book, and how many of its messages each client sent.
#[derive(Drop)]
pub struct Written {
    /// All lines that were queued, one behind another, in the order in which they were accepted.
    pub text: Vec<u8>,
    /// The book, with the whole history of the queue and the lines that came with it, which contracts alone see.
    pub book: ValueBook<Line>,
    /// How many of the first client's messages, of those to both logs, were queued.
    pub of_first: usize,
    /// How many of the second client's were.
    pub of_second: usize,
}

// All three senders of a log meet its book, so that all that they sent is in it.
fn meet(
    book: &mut ValueBook<Line>,
    mut first: ValueSender<Line>,
    mut second: ValueSender<Line>,
    mut third: ValueSender<Line>,
)
    requires { (first.known.queue ≡ book.old.book.queue) × (second.known.queue ≡ book.old.book.queue) × (third.known.queue ≡ book.old.book.queue) }
    ensures layout { book.new.book.layout ≡ book.old.book.layout }
    ensures accepted { accepted book.new.book.seen ≡ accepted book.old.book.seen }
    ensures brought { book.new.brought ≡ book.old.brought }
    ensures of_first { own_brought first.known.number book.new.book.seen book.new.brought ≡ own_lines first }
    ensures of_second { own_brought second.known.number book.new.book.seen book.new.brought ≡ own_lines second }
    ensures of_third { accepted (own third.known.number book.new.book.seen) ≡ accepted (own third.known.number third.known.seen) }
    ensures of_worker { IsQuiet 3 book.old.book.seen → IsQuiet 3 book.new.book.seen }
    ensures seen_by_first { IsPrefix first.known.seen book.new.book.seen }
    ensures seen_by_second { IsPrefix second.known.seen book.new.book.seen }
{
    book.meet(&mut third);
    book.meet(&mut first);
    book.meet(&mut second);
}

/// A log's text, and the book that its senders have met.
pub(crate) fn ended(
    finished: (Writer, ValueBook<Line>),
    first: ValueSender<Line>,
    second: ValueSender<Line>,
    third: ValueSender<Line>,
    counts: (usize, usize),
) -> Result<Written, LogError>
    requires queue { (first.known.queue ≡ finished.1.book.queue) × (second.known.queue ≡ finished.1.book.queue)
        × (third.known.queue ≡ finished.1.book.queue) }
    requires quiet { IsQuiet 3 finished.1.book.seen }
    requires ran { finished.0.ran ≡ pairs_of (accepted finished.1.book.seen) finished.1.brought }
    ensures layout { IfOk result (λ w. w.book.book.layout ≡ finished.1.book.layout) }
    ensures legal { IfOk result (λ w. IsLegalWith w.book.book.layout (with_values w.book.book.seen w.book.brought)) }
    ensures complete { IfOk result (λ w. IsComplete w.book.book.seen × KeepsHeadline w.book.book.seen) }
    ensures text { IfOk result (λ w. w.text.items ≡ text_of (pairs_of (accepted w.book.book.seen) w.book.brought)) }
    ensures of_first { IfOk result (λ w. own_brought first.known.number w.book.book.seen w.book.brought ≡ own_lines first) }
    ensures of_second { IfOk result (λ w. own_brought second.known.number w.book.book.seen w.book.brought ≡ own_lines second) }
    ensures of_third { IfOk result (λ w. accepted (own third.known.number w.book.book.seen) ≡ accepted (own third.known.number third.known.seen)) }
    ensures of_worker { IfOk result (λ w. IsQuiet 3 w.book.book.seen) }
    ensures counts { IfOk result (λ w. (w.of_first ≡ counts.0) × (w.of_second ≡ counts.1)) }
    ensures seen_by_first { IfOk result (λ w. IsPrefix first.known.seen w.book.book.seen) }
    ensures seen_by_second { IfOk result (λ w. IsPrefix second.known.seen w.book.book.seen) }
{
    let (writer, mut book) = finished;
    meet(&mut book, first, second, third);
    book.legal();
    let Some(text) = writer.into_text() else {
        return Err(LogError::Memory);
    };
    let (of_first, of_second) = counts;
    Ok(Written {
        text,
        book,
        of_first,
        of_second,
    })
}
