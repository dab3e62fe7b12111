//! What the delay table of a script keeps.
ghost use Rattle.std.specs.Prelude.{List};
ghost use Rattle.wq_words.specs.declared.layout.Layout.{Layout};
ghost use Rattle.wq_text.specs.declared.command.Command.{Command};
ghost use Rattle.wq_meaning.specs.Order.{IsInOrder, final_state};

/// The delay table stands in the order of due tick and arming number after every script, so what is due goes out in that
/// order. A law, which computes nothing.
pub fn ordered_tables()
    ensures in_order { (layout : Layout) (commands : List Command) → IsInOrder (final_state layout commands).table.entries }
{}
