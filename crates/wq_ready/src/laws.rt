//! What holds of legal ready histories, and what follows from the answers of a ready queue. These functions compute nothing:
//! each one's contract is a law, which a caller has in hand after the call.
ghost use Rattle.std.specs.Prelude.{◌≡◌, List};
ghost use Rattle.wq_ready.specs.declared.size.Size.{Size};
ghost use Rattle.wq_ready.specs.declared.event.ReadyEvent.{ReadyEvent};
ghost use Rattle.wq_ready.specs.History.{IsFull, IsEmpty};
ghost use Rattle.wq_ready.specs.Legal.{IsReadyLegal};
ghost use Rattle.wq_ready.specs.Order.{KeepsOrder};
ghost use Rattle.wq_ready.specs.Known.{CallerState, CouldBe};

/// What is announced is picked first in first out, each announcement at most once, and nothing else is picked. No more
/// announcements wait than there are queues.
pub fn first_in_first_out()
    ensures each_legal { (size : Size) (h : List ReadyEvent) → IsReadyLegal size h → KeepsOrder size h }
{}

/// A caller that is the only one finds the ready queue full or empty only where what it has itself seen is.
pub fn alone()
    ensures full { (caller : CallerState) → caller.ready.size.callers ≡ 1 → caller.number ≡ 0
        → CouldBe (IsFull caller.ready.size.queues) caller → IsFull caller.ready.size.queues caller.seen }
    ensures empty { (caller : CallerState) → caller.ready.size.callers ≡ 1 → caller.number ≡ 0 → CouldBe IsEmpty caller → IsEmpty caller.seen }
{}
