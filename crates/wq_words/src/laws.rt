//! What holds of the histories that `check_history` accepts. These functions compute nothing: each one's contract is a
//! law, which a caller has in hand after the call, of every queue and every history, also of those that contracts alone
//! see.
ghost use Rattle.std.specs.Prelude.{◌≡◌, ◌↔◌, ℕ, ◌+◌, ◌-◌, List, [], Option, length, reverse, take, drop, Some, slice_get, IsTrue};
ghost use Rattle.wq_words.specs.declared.layout.Layout.{Layout};
ghost use Rattle.wq_words.specs.declared.event.Event.{Event};
ghost use Rattle.wq_words.specs.History.{accepted, begun, ended, IsRunning, running, IsPending, pending, IsClosed, closed, IsShut, shut, fresh, taken};
ghost use Rattle.wq_words.specs.Legal.{IsLegal};
ghost use Rattle.wq_words.specs.Listed.{listed};
ghost use Rattle.wq_words.specs.Keeper.{Keeper, Keeps, keeper};
ghost use Rattle.wq_words.specs.Headline.{KeepsHeadline};
ghost use Rattle.wq_words.specs.Rest.{WakesOnceARest};
ghost use Rattle.wq_words.specs.Valued.{AreBrought, IsLegalWith, events_of, brought, handed, with_values};

/// Each accepted queueing is executed at most once, and exactly once where a close or a drain after it has ended. Executions never
/// overlap, and follow the order in which the queueings were accepted, so each sender's are first in first out. No push
/// follows the close, and none falls within a drain. Each push has a hold of its own, which found the number not pending, and
/// no two senders hold one number (`alloc_ordered_workqueue` and `queue_work` of Linux's `core-api/workqueue`).
pub fn headline()
    ensures each_legal { (layout : Layout) (h : List Event) → IsLegal layout h → KeepsHeadline h }
{}

/// Each number has just one keeper: nobody, the sender that holds it, the list, or the owner. The events, one by one,
/// give the same keeper as the counts do.
pub fn one_keeper()
    ensures agrees { (layout : Layout) (h : List Event) → IsLegal layout h → (k : ℕ) (x : Keeper) → Keeps h k x ↔ (keeper h k ≡ x) }
{}

/// The list, which stands newest first (`llist.h`), is all that was accepted and not taken. While the queue is open, as
/// many stand on it as were pushed since the last take, drain or resume, so that a push is the first exactly where it is
/// empty. While the queue is closed or drains it is empty.
pub fn pending_list()
    ensures behind_taken { (layout : Layout) (h : List Event) → IsLegal layout h → reverse (listed h) ≡ drop (taken h) (accepted h) }
    ensures in_all { (layout : Layout) (h : List Event) → IsLegal layout h → length (accepted h) ≡ taken h + length (listed h) }
    ensures while_open { (layout : Layout) (h : List Event) → IsLegal layout h → ¬ IsShut h → fresh h ≡ length (listed h) }
    ensures while_shut { (layout : Layout) (h : List Event) → IsLegal layout h → IsShut h → listed h ≡ [] }
{}

/// At most one number runs: none where as many ended as begun, else the number that was begun last.
pub fn one_runs()
    ensures none { (layout : Layout) (h : List Event) → IsLegal layout h → ¬ IsRunning h ↔ (length (ended h) ≡ length (begun h)) }
    ensures last { (layout : Layout) (h : List Event) → IsLegal layout h → (k : ℕ)
        → (running h ≡ Some k) ↔ (IsRunning h × (slice_get (begun h) (length (begun h) - 1) ≡ Some k)) }
{}

/// Whether a number is pending, whether the queue is closed, and whether it takes no push now, as tests and as facts.
pub fn pending_and_closed()
    ensures pending { (h : List Event) (k : ℕ) → IsTrue (pending h k) ↔ IsPending h k }
    ensures closed { (h : List Event) → IsTrue (closed h) ↔ IsClosed h }
    ensures shut { (h : List Event) → IsTrue (shut h) ↔ IsShut h }
{}

/// Of the pushes between two rests that follow one another at most one wakes the queue, and just one where the queue was
/// first taken or drained after a push: whoever wakes the owner on `wakes` alone does so once a rest. A take or a drain sets a
/// resting queue to work without a wake, and so a push after a drain wakes nobody before the next rest. It holds of each list of
/// events, legal or not.
pub fn one_wakes()
    ensures once_a_rest { (h : List Event) → WakesOnceARest h }
{}

/// A legal history whose accepted numbers brought these values, each item one and no other number any, is legal with them,
/// where each begun number is handed what the accepted number at its place brought. Its events are those of the history,
/// its numbers brought just these values, and of them as many were handed over, in order, as numbers have begun.
pub fn values_are_legal<V>()
    ensures legal { (layout : Layout) (h : List Event) (values : List (Option V)) → IsLegal layout h
        → AreBrought layout.items (accepted h) values → IsLegalWith layout (with_values h values) }
    ensures events { (h : List Event) (values : List (Option V)) → events_of (with_values h values) ≡ h }
    ensures brought { (h : List Event) (values : List (Option V)) → length values ≡ length (accepted h)
        → brought (with_values h values) ≡ values }
    ensures handed { (layout : Layout) (h : List Event) (values : List (Option V)) → IsLegal layout h
        → length values ≡ length (accepted h) → handed (with_values h values) ≡ take (length (begun h)) values }
{}
