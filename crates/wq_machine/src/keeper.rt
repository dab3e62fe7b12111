//! Who keeps a number of the machine in memory.
ghost use Rattle.std.specs.Prelude.{◌≡◌, ◌<◌, IsSome, ◌↔◌, IfSome};
ghost use Rattle.wq_words.specs.Keeper as words;
ghost use Rattle.wq_words.specs.Keeper.{Keeps, keeper, keeper_after, taken_over};
ghost use Rattle.wq_words.specs.Numbers.{number_count};
ghost use Rattle.wq_machine.specs.Keeper.{kept_by};

use crate::machine::Core;
use wq_words::Event;

/// Who keeps a number.
#[derive(Clone, Copy, Debug, PartialEq, Eq)]
pub enum Keeper {
    /// Nobody: the number is not pending.
    Home,
    /// The sender of this number, which holds it.
    Sender(u32),
    /// The list: the number was pushed, and not taken since.
    List,
    /// The owner, which took or chained the number and has not begun it.
    Owner,
}

impl Keeper {
    // Who keeps what this one kept, once the owner has taken the list.
    fn taken_over(self) -> Keeper
        ensures { kept_by result ≡ taken_over (kept_by self) }
    {
        match self {
            Keeper::List => Keeper::Owner,
            kept => kept,
        }
    }

    // Who keeps the number after the event, where this one kept it before.
    fn after(self, event: &Event, number: u32) -> Keeper
        ensures { kept_by result ≡ keeper_after number (kept_by self) event.now }
    {
        match *event {
            Event::Hold(sender, of) if of == number => Keeper::Sender(sender),
            Event::Push(_, of) if of == number => Keeper::List,
            Event::Chain(of) if of == number => Keeper::Owner,
            Event::Back(_, of, _) | Event::Begin(of) if of == number => Keeper::Home,
            Event::Take | Event::Close | Event::Drain => self.taken_over(),
            _ => self,
        }
    }
}

// Who keeps the number after these events.
fn keeper_of(history: &[Event], number: u32) -> Keeper
    ensures { kept_by result ≡ keeper history.now number }
{
    let mut kept = Keeper::Home;
    for event in history {
        kept = kept.after(event, number);
    }
    kept
}

impl Core {
    #[tactic(auto, using(crate::proofs::Kept::keeps_kept, crate::proofs::Kept::kept_alone))]
    /// Who keeps the number, or `None` where the queue has no such number. It reads the whole history.
    pub fn keeper(&self, number: u32) -> Option<Keeper>
        ensures number { IsSome result ↔ (number < number_count self.now.layout) }
        ensures keeps { IfSome result (λ kept. Keeps self.now.history number (kept_by kept)) }
        ensures one { IfSome result (λ kept. (x : words.Keeper) → Keeps self.now.history number x → x ≡ kept_by kept) }
    {
        self.sound();
        if number < self.layout.number_count() {
            Some(keeper_of(self.history(), number))
        } else {
            None
        }
    }
}
