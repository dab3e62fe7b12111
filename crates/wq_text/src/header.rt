//! Which line is awaited, and the lines of the header.
ghost use Rattle.std.specs.Prelude.{◌≡◌, map, IfOk};
ghost use Rattle.wq_text.specs.Fault.{LineGives};
ghost use Rattle.wq_text.specs.Header.{limited, is_header, layout_at, behind_items, header_line_gives};
ghost use Rattle.wq_text.specs.Sound.{KeepsHeader};
ghost use Rattle.wq_text.specs.declared.header.Awaited.TheVariants.{Items};

use crate::arguments::one_between;
use crate::fault::{FaultKind, LineError};
use wq_words::{Layout, MOST_BARRIERS};

/// How many items and senders a kind of text may name at most.
#[derive(Clone, Copy)]
pub struct Most {
    /// The items.
    pub items: u32,
    /// The senders.
    pub senders: u32,
}

/// Which line is awaited: the version, then those of the header, with the layout so far, then what is asked of the queue. The
/// layout has 1 of each thing that no line has named yet.
#[derive(Clone, Copy)]
pub enum Awaited {
    /// The first line, which names the language and its version.
    Version,
    /// The line that says how many items the queue has.
    Items,
    /// That of the senders, in a language that names seats.
    Senders(Layout),
    /// That of the barriers, which may be left out.
    Barriers(Layout),
    /// A line behind the header.
    Commands(Layout),
}

impl Awaited {
    /// The layout, once a line may ask something of the queue.
    pub fn layout(self) -> Option<Layout>
        ensures known { result ≡ layout_at self }
    {
        match self {
            Awaited::Barriers(layout) | Awaited::Commands(layout) => Some(layout),
            Awaited::Version | Awaited::Items | Awaited::Senders(_) => None,
        }
    }
}

// Whether a line with this first word is one of the header.
pub(crate) fn is_header(word: &str) -> bool
    ensures { result ≡ is_header word.now }
{
    matches!(word, "items" | "senders" | "barriers")
}

// The layout of these numbers, or the fault `kind`.
fn limited(kind: FaultKind, items: u32, barriers: u32, senders: u32) -> Result<Layout, LineError>
    ensures exact { LineGives result (limited kind items barriers senders) }
    ensures numbers { IfOk result (λ layout. layout.senders ≡ senders) }
{
    match Layout::new(items, barriers, senders) {
        Ok(layout) => Ok(layout),
        Err(_) => Err(LineError::Fault(kind)),
    }
}

// What is awaited behind the line of the items.
#[tactic(auto, unfolding(crate::specs::Header::behind_items))]
fn behind_items(names_seats: bool, most: Most, items: u32) -> Result<Awaited, LineError>
    ensures exact { LineGives result (behind_items names_seats most items) }
    ensures sound { IfOk result (KeepsHeader most.senders Items) }
{
    if names_seats {
        limited(FaultKind::Items, items, 1, 1).map(Awaited::Senders)
    } else {
        limited(FaultKind::Items, items, 1, most.senders).map(Awaited::Commands)
    }
}

// What is awaited behind a line of the header, where it belongs here.
#[tactic(auto, unfolding(crate::specs::Header::awaits, crate::specs::Header::header_gives))]
pub(crate) fn header_line(
    names_seats: bool,
    most: Most,
    awaited: Awaited,
    first: &str,
    others: &[&str],
) -> Result<Awaited, LineError>
    ensures exact { LineGives result (header_line_gives names_seats most awaited first.now (map (λ w. w.now) others.now)) }
    ensures sound { IfOk result (KeepsHeader most.senders awaited) }
{
    match (awaited, first) {
        (Awaited::Items, "items") => {
            let items = one_between(FaultKind::Items, 1, most.items, others)?;
            behind_items(names_seats, most, items)
        }
        (Awaited::Senders(layout), "senders") => {
            let senders = one_between(FaultKind::Senders, 1, most.senders, others)?;
            limited(FaultKind::Senders, layout.items, 1, senders).map(Awaited::Barriers)
        }
        (Awaited::Barriers(layout), "barriers") => {
            let barriers = one_between(FaultKind::Barriers, 1, MOST_BARRIERS, others)?;
            limited(FaultKind::Barriers, layout.items, barriers, layout.senders).map(
                Awaited::Commands,
            )
        }
        _ => Err(LineError::Fault(FaultKind::Header)),
    }
}
