//! What follows from what the calls of a worker say, in the form in which a caller needs it. The function computes nothing: its
//! contract is a law, which a caller has in hand after the call.
ghost use Rattle.std.specs.Prelude.{ℕ};
ghost use Rattle.wq_worker.specs.declared.drained.Drained.{Drained};
ghost use Rattle.wq_worker.specs.declared.ran.Ran.{Ran};
ghost use Rattle.wq_worker.specs.Destroy.{LeavesUnfinishedBy};
ghost use Rattle.wq_worker.specs.Rows.{Along, RunsSomeBy, ServesBy, DrainsBy};
ghost use Rattle.wq_worker.specs.Silent.{AsksForNothing, QueuesNoneBy, ClosesAndRuns};
ghost use Rattle.wq_worker.specs.Step.{RunsBy};
ghost use Rattle.wq_worker.specs.Works.{WorksInStepBy};

use crate::station::Station;

/// A work that asks for nothing queues nothing: through the steps of each call its worker's sender makes no event and its owner
/// chains no number, where nothing ran before, and then nothing runs. So it is along any steps (`along`), as of a worker since it
/// was handed in to a pool. The worker's number is a sender's, as `legal` says (`low`).
pub fn nothing_is_asked<K: Station>()
    ensures one { AsksForNothing K.may → (r : Ran) → QueuesNoneBy (RunsBy K.may K.gives r) }
    ensures some { AsksForNothing K.may → (limit n : ℕ) → QueuesNoneBy (RunsSomeBy K.may K.gives limit n) }
    ensures serves { AsksForNothing K.may → QueuesNoneBy (ServesBy K.may K.gives) }
    ensures drains { AsksForNothing K.may → (limit : ℕ) (r : Drained) → QueuesNoneBy (DrainsBy K.may K.gives limit r) }
    ensures leaves { AsksForNothing K.may → (limit left : ℕ) → QueuesNoneBy (λ a b. LeavesUnfinishedBy K.may K.gives limit a b left) }
    ensures closes { AsksForNothing K.may → (n : ℕ) → QueuesNoneBy (ClosesAndRuns K.may K.gives n) }
    ensures along { AsksForNothing K.may → QueuesNoneBy (Along (WorksInStepBy K.may K.gives)) }
{}
