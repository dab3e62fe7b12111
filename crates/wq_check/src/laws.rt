//! What traces say of histories. The function computes nothing: its contract is a law, which a caller has in hand after the
//! call.
ghost use Rattle.std.specs.Prelude.{◌≡◌, ◌↔◌, List};
ghost use Rattle.wq_words.specs.declared.layout.Layout.{Layout};
ghost use Rattle.wq_check.specs.declared.mark.Mark.{Mark};
ghost use Rattle.wq_check.specs.Trace.{IsLegalTrace, FollowsRules};
ghost use Rattle.wq_check.specs.Shows.{ShowsLegalHistory, ShowsItemsOfLegalHistory};

/// A legal trace shows some legal history, which keeps the headline; and each trace of a legal history follows the rules,
/// so that no trace of a right queue is refused but for an item that the queue does not have. And a trace is legal just where
/// it shows the items of some legal history, barriers and the stop item left out wherever they come, of any queue with as many
/// items, whatever its barriers and senders.
pub fn traces_show_histories()
    ensures each_legal { (layout : Layout) (t : List Mark) → IsLegalTrace layout t → ShowsLegalHistory layout t }
    ensures no_other { (layout : Layout) (t : List Mark) → ShowsLegalHistory layout t → FollowsRules t }
    ensures of_items { (layout queue : Layout) (t : List Mark) → layout.items ≡ queue.items
        → (IsLegalTrace layout t ↔ ShowsItemsOfLegalHistory queue t) }
{}
