//! What holds of the machine whatever the schedule. These functions compute nothing: each one's contract is a law, which a
//! caller has in hand after the call.
ghost use Rattle.std.specs.Prelude.{◌≡◌, ℕ, Bool, length, take, drop, None};
ghost use Rattle.wq_words.specs.declared.layout.Layout.{Layout};
ghost use Rattle.wq_words.specs.Numbers.{number_count};
ghost use Rattle.wq_words.specs.History.{accepted, begun, taken, first, IsShut};
ghost use Rattle.wq_words.specs.Listed.{listed};
ghost use Rattle.wq_words.specs.Rest.{wakes};
ghost use Rattle.wq_core.specs.declared.step.Seat.{Seat};
ghost use Rattle.wq_core.specs.declared.step.Seat.TheVariants.{Sender};
ghost use Rattle.wq_core.specs.declared.step.Step.{Step};
ghost use Rattle.wq_core.specs.declared.step.Step.TheVariants.{Push};
ghost use Rattle.wq_core.specs.declared.step.Reply.TheVariants.{Pushed};
ghost use Rattle.wq_core.specs.Machine.{Machine, opening, head, after, reply_to};
ghost use Rattle.wq_core.specs.Made.{IsMade};
ghost use Rattle.wq_core.specs.Words.{link_word};
ghost use Rattle.wq_core.specs.Sound.{IsChain, IsSound};

/// The machine's invariant holds while nothing has happened, and each step that is made keeps it.
pub fn each_step_keeps_sound()
    ensures opening { (layout : Layout) → IsSound (opening layout) }
    ensures step { (m : Machine) (seat : Seat) (step : Step) → IsSound m → IsMade m seat step → IsSound (after m seat step) }
{}

/// The links of a sound machine spell from its head what was pushed since the last take, drain or resume, newest first
/// (`llist_del_all`), while it is open. Once all that was taken is walked, the batch is what was taken and has not begun, oldest
/// first.
pub fn chain_and_batch()
    ensures chain { (m : Machine) → IsSound m → ¬ IsShut m.history
        → IsChain (number_count m.layout) m.words (link_word (head m)) (listed m.history) }
    ensures batch { (m : Machine) → IsSound m → m.cursor ≡ None
        → m.batch ≡ drop (length (begun m.history)) (take (taken m.history) (accepted m.history)) }
{}

/// A push that wins on a sound machine says that it was the first exactly where nothing was pushed since the last take, drain or
/// resume (`llist_add` answers true where the list was empty before), and that it wakes exactly where nothing was pushed, taken or
/// drained since the last rest.
pub fn first_push()
    ensures first { (m : Machine) (s k : ℕ) (p q : Bool) → IsSound m → IsMade m (Sender s) (Push k)
        → reply_to m (Sender s) (Push k) ≡ Pushed p q → p ≡ first m.history }
    ensures wakes { (m : Machine) (s k : ℕ) (p q : Bool) → IsSound m → IsMade m (Sender s) (Push k)
        → reply_to m (Sender s) (Push k) ≡ Pushed p q → q ≡ wakes m.history }
{}
