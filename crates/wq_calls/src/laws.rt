//! What follows from what the calls of a queue say, in the form in which a caller needs it. These functions compute nothing:
//! each one's contract is a law, which a caller has in hand after the call.
ghost use Rattle.std.specs.Prelude.{◌≡◌, ◌≢◌, ◌⊎◌, ℕ, ◌+◌, ◌<◌, Bool, false, List, [], ◌∷◌, ◌++◌, length, Option, sum_by};
ghost use Rattle.std.specs.List.{Contains};
ghost use mathlib.Core.List.{IsPrefix};
ghost use Rattle.wq_words.specs.declared.answer.Answer.{Answer};
ghost use Rattle.wq_words.specs.declared.answer.Answer.TheVariants as answer;
ghost use Rattle.wq_words.specs.declared.answer.Posted.{Posted};
ghost use Rattle.wq_words.specs.declared.answer.Posted.TheVariants as posted;
ghost use Rattle.wq_words.specs.declared.event.Event.TheVariants.{Back};
ghost use Rattle.wq_words.specs.declared.event.Why.{Why};
ghost use Rattle.wq_words.specs.declared.event.Event.{Event};
ghost use Rattle.wq_words.specs.History.{accepted, begun, ended, running, Holds, IsClosed, IsShut};
ghost use Rattle.wq_words.specs.declared.layout.Layout.{Layout};
ghost use Rattle.wq_words.specs.Legal.{IsLegal};
ghost use Rattle.wq_words.specs.Seen.{own, owner_seat, over_seats};
ghost use Rattle.wq_words.specs.Valued.{values_among};
ghost use Rattle.wq_calls.specs.Known.{Known, Sees};
ghost use Rattle.wq_calls.specs.Answers.{TestsAndSets, Answers, Posts, Chains, HasFlushed};
ghost use Rattle.wq_calls.specs.Counts.{sender_counts, owner_counts};
ghost use Rattle.wq_calls.specs.Laws.{queued_number, pushed_number, WasPending, IsStillEnd, IsStillOwned};
ghost use Rattle.wq_calls.specs.declared.value_answer.ValueAnswer.{ValueAnswer};
ghost use Rattle.wq_calls.specs.KnownWith.{KnownWith, Learnt, answer_of, BringsOrReturns, BringsNothing, ChainsOrReturns};
ghost use Rattle.wq_calls.specs.OwnBrought.{own_brought, queued_value, queued_nothing};

/// A queueing that is answered Queued adds its number to what was accepted of its sender; any other answer adds nothing.
pub fn queued_is_accepted()
    ensures grows { (k tries : ℕ) (a : Answer) (old new : Known) → Answers k tries a old new
        → accepted (own old.number new.seen) ≡ accepted (own old.number old.seen) ++ queued_number k a }
{}

/// A push that is answered Queued adds its number to what was accepted of its sender; any other answer adds nothing.
pub fn posted_is_accepted()
    ensures grows { (k tries : ℕ) (a : Posted) (old new : Known) → Posts k tries a old new
        → accepted (own old.number new.seen) ≡ accepted (own old.number old.seen) ++ pushed_number k a }
{}

/// A chaining that is answered Queued adds its number to what was accepted of the owner; any other answer adds nothing.
pub fn chained_is_accepted()
    ensures grows { (k : ℕ) (a : Answer) (old new : Known) → Chains k a old new
        → accepted (own old.number new.seen) ≡ accepted (own old.number old.seen) ++ queued_number k a }
{}

/// What a seat has seen goes on: it goes on to itself (`none`), and over one call after another (`on`), so that a loop of calls without
/// an event of the seat's own has this as its invariant; and what it had seen before a call begins what it has seen after it.
pub fn seen_goes_on()
    ensures none { (old : Known) → IsLegal old.layout old.seen → Sees [] 0 old old }
    ensures on { (xs ys : List Event) (n m : ℕ) (old mid new : Known) → Sees xs n old mid → Sees ys m mid new → Sees (xs ++ ys) (n + m) old new }
    ensures begins { (n : ℕ) (xs : List Event) (old new : Known) → Sees xs n old new → IsPrefix old.seen new.seen }
    ensures queued { (k tries : ℕ) (a : Answer) (old new : Known) → Answers k tries a old new → IsPrefix old.seen new.seen }
    ensures posted { (k tries : ℕ) (a : Posted) (old new : Known) → Posts k tries a old new → IsPrefix old.seen new.seen }
{}

/// A flush in two halves: once it is seen that a barrier has run, however much later than its queueing, all has ended that had been
/// accepted before that queueing.
pub fn flushed_in_halves()
    ensures ended { (k tries : ℕ) (first wakes : Bool) (old mid : Known) (h : List Event) → Answers k tries (answer.Queued first wakes) old mid
        → IsPrefix mid.seen h → HasFlushed k h → IsPrefix (accepted old.seen) (ended h) }
{}

/// A seat that made no event from one history to a later one made none up to any history between the two.
pub fn own_events_between()
    ensures same { (s : ℕ) (h between later : List Event) → IsPrefix h between → IsPrefix between later → own s later ≡ own s h
        → own s between ≡ own s h }
{}

/// A seat counts its own events alone, whatever else happened.
pub fn counts_are_own()
    ensures sender { (s : ℕ) (h : List Event) → sender_counts s h ≡ sender_counts s (own s h) }
    ensures owner { (h : List Event) → owner_counts h ≡ owner_counts (own owner_seat h) }
{}

/// A seat's own events are, after a call, those that it had made and behind them those that the call says.
pub fn own_events_grow()
    ensures grows { (n : ℕ) (xs : List Event) (old new : Known) → Sees xs n old new → own old.number new.seen ≡ own old.number old.seen ++ xs }
{}

/// What was accepted of a seat was accepted, and what was accepted was accepted of one of the senders or of the owner.
pub fn own_is_accepted()
    ensures among { (s k : ℕ) (h : List Event) → Contains (accepted (own s h)) k → Contains (accepted h) k }
    ensures of_some { (layout : Layout) (h : List Event) (k : ℕ) → IsLegal layout h → Contains (accepted h) k
        → (s : ℕ) × ((s < layout.senders) ⊎ (s ≡ owner_seat)) × Contains (accepted (own s h)) k }
{}

/// What was accepted of a queue is, together, what was accepted of its owner and of each of its senders: so says any sum over it.
/// What is added up for a number may be one or none, so that it also says how often each was accepted.
pub fn accepted_adds_up()
    ensures sums { (f : ℕ → ℕ) (layout : Layout) (h : List Event) → IsLegal layout h
        → sum_by f (accepted h) ≡ over_seats layout (λ s. sum_by f (accepted (own s h))) }
{}

/// Nobody but its owner begins or ends what a queue executes: in what the owner sees, what began and what ended grows by its own
/// events alone, and where none of these begins or ends an execution the same number runs, or none.
pub fn executions_grow()
    ensures begun { (n : ℕ) (xs : List Event) (old new : Known) → old.number ≡ owner_seat → Sees xs n old new
        → begun new.seen ≡ begun old.seen ++ begun xs }
    ensures ended { (n : ℕ) (xs : List Event) (old new : Known) → old.number ≡ owner_seat → Sees xs n old new
        → ended new.seen ≡ ended old.seen ++ ended xs }
    ensures running { (n : ℕ) (xs : List Event) (old new : Known) → old.number ≡ owner_seat → Sees xs n old new → begun xs ≡ [] → ended xs ≡ []
        → running new.seen ≡ running old.seen }
{}

/// Where an owner sees more and makes no event, as at a meeting or where the sender in its seat queues, its batch, what began, ended
/// and runs, and whether the queue takes pushes are as they were. Where it takes none, nothing more was accepted either.
pub fn owner_stays()
    ensures owned { (n : ℕ) (old new : Known) → old.number ≡ owner_seat → Sees [] n old new → IsStillOwned old.seen new.seen }
    ensures shut { (n : ℕ) (old new : Known) → old.number ≡ owner_seat → Sees [] n old new → IsShut old.seen → IsStillEnd old.seen new.seen }
{}

/// Where a seat sees more and makes no event, as at a meeting, its own events are those that it had made.
pub fn own_events_stay()
    ensures same { (n : ℕ) (old new : Known) → Sees [] n old new → own old.number new.seen ≡ own old.number old.seen }
{}

/// What a seat holds it holds as long as it neither pushes that number nor gives it back: where it sees more and makes no event,
/// where it tries to hold, or queues, any number, and where it pushes or gives back another.
pub fn held_stays()
    ensures seen { (k n : ℕ) (old new : Known) → Sees [] n old new → Holds old.seen old.number k → Holds new.seen new.number k }
    ensures held { (k j : ℕ) (b : Bool) (old new : Known) → TestsAndSets j b old new → Holds old.seen old.number k → Holds new.seen new.number k }
    ensures queued { (k j tries : ℕ) (a : Answer) (old new : Known) → Answers j tries a old new
        → Holds old.seen old.number k → Holds new.seen new.number k }
    ensures posted { (k j tries : ℕ) (a : Posted) (old new : Known) → Posts j tries a old new → k ≢ j
        → Holds old.seen old.number k → Holds new.seen new.number k }
    ensures given { (k j n : ℕ) (why : Why) (old new : Known) → Sees (Back old.number j why ∷ []) n old new → k ≢ j
        → Holds old.seen old.number k → Holds new.seen new.number k }
{}

/// What a seat does not hold it goes on not to hold, but by a hold of that number that is answered true: where it sees more and makes
/// no event, where it queues, pushes or gives back any number, and where a hold is refused or is of another number.
pub fn unheld_stays()
    ensures seen { (k n : ℕ) (old new : Known) → Sees [] n old new → ¬ Holds old.seen old.number k → ¬ Holds new.seen new.number k }
    ensures queued { (k j tries : ℕ) (a : Answer) (old new : Known) → Answers j tries a old new
        → ¬ Holds old.seen old.number k → ¬ Holds new.seen new.number k }
    ensures held { (k j : ℕ) (b : Bool) (old new : Known) → TestsAndSets j b old new → k ≢ j
        → ¬ Holds old.seen old.number k → ¬ Holds new.seen new.number k }
    ensures still_unheld { (k j : ℕ) (old new : Known) → TestsAndSets j false old new → ¬ Holds old.seen old.number k → ¬ Holds new.seen new.number k }
    ensures posted { (k j tries : ℕ) (a : Posted) (old new : Known) → Posts j tries a old new
        → ¬ Holds old.seen old.number k → ¬ Holds new.seen new.number k }
    ensures given { (k j n : ℕ) (why : Why) (old new : Known) → Sees (Back old.number j why ∷ []) n old new
        → ¬ Holds old.seen old.number k → ¬ Holds new.seen new.number k }
{}

/// What a sender has pushed or given back it holds no longer, and so after a queueing that is not answered Pending.
pub fn no_longer_held()
    ensures posted { (k tries : ℕ) (a : Posted) (old new : Known) → Posts k tries a old new → a ≢ posted.Contended → a ≢ posted.Draining
        → ¬ Holds new.seen new.number k }
    ensures queued { (k tries : ℕ) (a : Answer) (old new : Known) → Answers k tries a old new → a ≢ answer.Pending
        → ¬ Holds new.seen new.number k }
    ensures given { (k n : ℕ) (why : Why) (old new : Known) → Sees (Back old.number k why ∷ []) n old new → ¬ Holds new.seen new.number k }
{}

/// A queueing or a push is answered Closed of a queue that its owner has closed.
pub fn closed_is_closed()
    ensures queued { (k tries : ℕ) (a : Answer) (old new : Known) → Answers k tries a old new → a ≡ answer.Closed → IsClosed new.seen }
    ensures posted { (k tries : ℕ) (a : Posted) (old new : Known) → Posts k tries a old new → a ≡ posted.Closed → IsClosed new.seen }
{}

/// What a queueing or a chaining is answered Pending for, or a hold refuses, was pending.
pub fn pending_was_pending()
    ensures queued { (k tries : ℕ) (a : Answer) (old new : Known) → Answers k tries a old new → a ≡ answer.Pending
        → WasPending k old.seen new.seen }
    ensures held { (k : ℕ) (old new : Known) → TestsAndSets k false old new → WasPending k old.seen new.seen }
    ensures chained { (k : ℕ) (a : Answer) (old new : Known) → Chains k a old new → a ≡ answer.Pending → WasPending k old.seen new.seen }
{}

/// Where a seat sees more and makes no event, as at a meeting, it has counted what it had counted.
pub fn counts_stay()
    ensures sender { (n : ℕ) (old new : Known) → Sees [] n old new → sender_counts old.number new.seen ≡ sender_counts old.number old.seen }
    ensures owner { (n : ℕ) (old new : Known) → old.number ≡ owner_seat → Sees [] n old new → owner_counts new.seen ≡ owner_counts old.seen }
{}

/// A queueing of an item with a value that is answered Queued adds that value to what the sender's own queueings brought; any other
/// answer adds nothing.
pub fn queued_brings<V>()
    ensures grows { (k tries : ℕ) (v : V) (a : ValueAnswer V) (old new : KnownWith V) → Answers k tries (answer_of a) old.known new.known
        → BringsOrReturns k v a new → Learnt old new
        → own_brought old.known.number new.known.seen new.brought ≡ own_brought old.known.number old.known.seen old.brought ++ queued_value v a }
{}

/// A queueing of a barrier or of the stop item that is answered Queued adds no value to what the sender's own queueings brought, but
/// its place; any other answer adds nothing.
pub fn queued_brings_nothing<V>()
    ensures grows { (k tries : ℕ) (a : Answer) (old new : KnownWith V) → Answers k tries a old.known new.known → BringsNothing k a new
        → Learnt old new
        → own_brought old.known.number new.known.seen new.brought ≡ own_brought old.known.number old.known.seen old.brought ++ queued_nothing a }
{}

/// A chaining of an item with a value that is answered Queued adds that value to what the owner's own chainings brought; any other
/// answer adds nothing.
pub fn chained_brings<V>()
    ensures grows { (k : ℕ) (v : V) (a : ValueAnswer V) (old new : KnownWith V) → old.known.number ≡ owner_seat
        → Chains k (answer_of a) old.known new.known → ChainsOrReturns k v a new → Learnt old new
        → own_brought old.known.number new.known.seen new.brought ≡ own_brought old.known.number old.known.seen old.brought ++ queued_value v a }
{}

/// Where a seat sees more and makes no event, as at a meeting, its own queueings brought what they had brought.
pub fn own_values_stay<V>()
    ensures same { (n : ℕ) (old new : KnownWith V) → Sees [] n old.known new.known → Learnt old new
        → own_brought old.known.number new.known.seen new.brought ≡ own_brought old.known.number old.known.seen old.brought }
{}

/// Where the owner of a queue that takes no push sees more and makes no event, nothing more was brought.
pub fn owner_values_stay<V>()
    ensures same { (n : ℕ) (old new : KnownWith V) → old.known.number ≡ owner_seat → Sees [] n old.known new.known → IsShut old.known.seen
        → Learnt old new → new.brought ≡ old.brought }
{}

/// What the queueings of a seat brought is as much as was accepted of it, so nothing where nothing was accepted.
pub fn own_values_match<V>()
    ensures as_many { (s : ℕ) (h : List Event) (values : List (Option V)) → length (own_brought s h values) ≡ length (accepted (own s h)) }
    ensures none { (s : ℕ) (h : List Event) (values : List (Option V)) → accepted (own s h) ≡ [] → own_brought s h values ≡ [] }
{}

/// The values that were brought to a queue are, together, those that its owner and each of its senders brought: so says any sum over
/// them.
pub fn values_add_up<V>()
    ensures sums { (f : V → ℕ) (layout : Layout) (h : List Event) (values : List (Option V)) → IsLegal layout h
        → length values ≡ length (accepted h)
        → sum_by f (values_among values) ≡ over_seats layout (λ s. sum_by f (values_among (own_brought s h values))) }
{}
