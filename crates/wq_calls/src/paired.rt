//! What an owner and a sender in one seat do, whether items bring values or not: the calls that the steps of a worker make.
ghost use Rattle.std.specs.Prelude.{◌≡◌, ℕ, ◌≤◌, ◌↔◌, false, [], ◌∷◌, Some, IsTrue, length};
ghost use Rattle.wq_words.specs.declared.event.Event.TheVariants.{Take, End};
ghost use Rattle.wq_words.specs.Numbers.{number_count};
ghost use Rattle.wq_words.specs.History.{IsClosed, IsShut, IsDraining, closed, IsRunning, running};
ghost use Rattle.wq_calls.specs.Known.{Sees};
ghost use Rattle.wq_calls.specs.Batch.{batch, next_of, TakesAll};
ghost use Rattle.wq_calls.specs.Rest.{Rests, HasRested, MayNotRest};
ghost use Rattle.wq_calls.specs.Pairs.{KnownPair, pair_owner, pair_sender};

/// An owner and a sender of one queue in one seat. Each call is as that of `Pair` of `wq_live`, with those of its clauses that
/// the steps of a worker ask for.
pub trait Paired {
    /// What the two know, without values.
    ghost known: { Self → KnownPair };

    /// What a step of the owner that begins nothing keeps of what was brought and handed.
    ghost keeps: { Self → Self → Type 0 };

    /// As `Pair::is_closed`.
    fn is_closed(&self) -> bool
        ensures closed { result ≡ closed (known self.now).seen };

    /// As `Pair::is_draining`.
    fn is_draining(&self) -> bool
        ensures draining { IsTrue result ↔ IsDraining (known self.now).seen }
        ensures else_open { result ≡ false → ¬ IsClosed (known self.now).seen → ¬ IsShut (known self.now).seen };

    /// As `Pair::next`.
    fn next(&self) -> Option<u32>
        ensures first { result ≡ next_of (known self.now).seen };

    /// As `Pair::waiting`.
    fn waiting(&self) -> u32
        ensures count { result ≡ length (batch (known self.now).seen) }
        ensures few { result ≤ number_count (known self.now).layout };

    /// As `Pair::running`.
    fn running(&self) -> Option<u32>
        ensures runs { result ≡ running (known self.now).seen };

    /// As `Pair::take`.
    fn take(&mut self) -> u32
        requires open { ¬ IsShut (known self.old).seen }
        requires empty { batch (known self.old).seen ≡ [] }
        ensures seen { Sees (Take ∷ []) 0 (pair_owner (known self.old)) (pair_owner (known self.new)) }
        ensures takes { TakesAll Take result (known self.new).seen }
        ensures kept { keeps self.old self.new }
        ensures others { Sees [] 0 (pair_sender (known self.old)) (pair_sender (known self.new)) };

    /// As `Pair::rest`.
    fn rest(&mut self) -> bool
        requires open { ¬ IsShut (known self.old).seen }
        requires empty { batch (known self.old).seen ≡ [] }
        requires idle { ¬ IsRunning (known self.old).seen }
        ensures seen { Rests result (pair_owner (known self.old)) (pair_owner (known self.new)) }
        ensures rested { IsTrue result → HasRested (known self.new).seen }
        ensures refused { result ≡ false → MayNotRest (known self.new).seen }
        ensures open { ¬ IsShut (known self.new).seen }
        ensures unclosed { ¬ IsClosed (known self.new).seen }
        ensures empty { batch (known self.new).seen ≡ [] }
        ensures idle { ¬ IsRunning (known self.new).seen }
        ensures kept { keeps self.old self.new }
        ensures others { Sees [] 0 (pair_sender (known self.old)) (pair_sender (known self.new)) };

    /// As `Pair::end`.
    fn end(&mut self)
        requires runs { IsRunning (known self.old).seen }
        ensures seen { (k : ℕ) → running (known self.old).seen ≡ Some k → Sees (End k ∷ []) 0 (pair_owner (known self.old)) (pair_owner (known self.new)) }
        ensures kept { keeps self.old self.new }
        ensures others { Sees [] 0 (pair_sender (known self.old)) (pair_sender (known self.new)) };
}
