//! What follows from what the calls of a worker with values say, in the form in which a caller needs it. These functions
//! compute nothing: each one's contract is a law, which a caller has in hand after the call.
ghost use Rattle.std.specs.Prelude.{◌≡◌, ℕ, List, length, map, Option, sum_by};
ghost use mathlib.Core.List.{IsPrefix};
ghost use Rattle.wq_values.specs.KnownWith.{Learnt, MatchesAccepted};
ghost use Rattle.wq_values.specs.Valued.{values_among};
ghost use Rattle.wq_value_worker.specs.Deals.{DealsInStep};
ghost use Rattle.wq_value_worker.specs.ValueState.{ValueWorkerState, owner_in};
ghost use Rattle.wq_value_worker.specs.Returned.{GivesBack, MayLeave, pairs_of, value_of_pair};
ghost use Rattle.wq_worker.specs.Rows.{Along};
ghost use Rattle.wq_worker.specs.Works.{WorksInStepBy};

use crate::value_work::ValueWork;

/// Through any row of steps of a worker whose items bring values, what was brought and what was given back to the work before
/// begins what is brought and given back now. Without values they are steps of a worker (`works`), of which `nothing_is_asked`
/// speaks.
pub fn steps_go_on<V: Drop, W: ValueWork<V>>()
    ensures learnt { (a b : ValueWorkerState V W) → MatchesAccepted (owner_in a) → Along (DealsInStep W.given W.may W.takes) a b
        → Learnt (owner_in a) (owner_in b) }
    ensures given { (a b : ValueWorkerState V W) → Along (DealsInStep W.given W.may W.takes) a b
        → IsPrefix (W.given a.worker.work) (W.given b.worker.work) }
    ensures works { (a b : ValueWorkerState V W) → Along (DealsInStep W.given W.may W.takes) a b
        → Along (WorksInStepBy (MayLeave W.may W.takes) (GivesBack W.takes)) a.worker b.worker }
{}

/// The pairs of the numbers of a queue with what they brought have the values that were brought, in order, and so each sum over
/// those.
pub fn pairs_have_values<V>()
    ensures values { (ks : List ℕ) (ys : List (Option V)) → length ys ≡ length ks → map value_of_pair (pairs_of ks ys) ≡ values_among ys }
    ensures sums { (f : V → ℕ) (ks : List ℕ) (ys : List (Option V)) → length ys ≡ length ks
        → sum_by (λ p. f p.1) (pairs_of ks ys) ≡ sum_by f (values_among ys) }
{}
