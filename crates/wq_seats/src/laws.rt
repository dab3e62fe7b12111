//! What follows from what seats have counted. The function computes nothing: its contract is a law.
ghost use Rattle.std.specs.Prelude.{◌≡◌, ℕ, ◌+◌, List};
ghost use Rattle.wq_words.specs.declared.layout.Layout.{Layout};
ghost use Rattle.wq_words.specs.declared.event.Event.{Event};
ghost use Rattle.wq_words.specs.Legal.{IsLegal, IsComplete};
ghost use Rattle.wq_live.specs.Counts.{owner_counts};
ghost use Rattle.wq_ledger.specs.Balance.{AreOwnerWhole};
ghost use Rattle.wq_seats.specs.Sums.{queued_below, HaveCounted};

/// Where the owner of a queue has seen it run to its end, and the senders are of that queue, what they count as queued and the owner as
/// chained is what the owner counts as ended. What the senders were answered since changes nothing. No count has stopped.
pub fn counts_balance()
    ensures balance { (layout : Layout) (h : List Event) (seen : ℕ → List Event) → IsLegal layout h → IsComplete h
        → HaveCounted layout seen h → AreOwnerWhole (owner_counts h)
        → queued_below layout.senders seen + (owner_counts h).chained ≡ (owner_counts h).ended }
{}
