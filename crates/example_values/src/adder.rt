//! A work that adds up the values of the items that it runs.
ghost use Rattle.std.specs.Prelude.{◌≡◌, ◌∷◌, ◌++◌, []};
ghost use Rattle.example_values.specs.Sums.{IsSumOf};

use std::marker::Model;
use value_trail::ValueTrail;
use wq_value_worker::{ValueFollow, ValueWork};

/// The sum of the values that were run. Which those were, and what came back, contracts alone see.
#[derive(Drop)]
pub struct Adder {
    // None once it does not fit
    sum: Option<u64>,
    ran: ValueTrail<u32>,
    came_back: ValueTrail<u32>,
}

impl Model for Adder {
    ghost use Rattle.example_values.specs.Sums.{AdderState, IsSumOf};

    ghost Value = { AdderState };

    ghost view = { λ w. record { ran = w.ran.items; came_back = w.came_back.items } };

    ghost invariant = { λ w. IsSumOf w.ran.items w.sum };
}

impl Adder {
    /// An adder that has run nothing.
    pub fn new() -> Adder
        ensures { result.ran ≡ [] }
    {
        Adder {
            sum: Some(0),
            ran: ValueTrail::new(),
            came_back: ValueTrail::new(),
        }
    }

    fn add(&mut self, item: u32, value: u32)
        ensures ran { self.new.ran ≡ self.old.ran ++ (item, value) ∷ [] }
        ensures came_back { self.new.came_back ≡ self.old.came_back }
    {
        self.ran = self.ran.and(item, &value);
        self.sum = match self.sum {
            Some(sum) => sum.checked_add(u64::from(value)),
            None => None,
        };
    }

    /// The sum of all values that were run, or None where it does not fit into 64 bits.
    pub fn sum(&self) -> Option<u64>
        ensures { IsSumOf self.now.ran result }
    {
        self.sum
    }
}

impl ValueWork<u32> for Adder {
    ghost log = { λ w. w.ran };

    ghost given = { λ w. w.came_back };

    ghost may = { λ w k v pairs u. pairs ≡ [] };

    ghost takes = { λ w k v u. Unit {0} };

    fn run(&mut self, item: u32, value: u32) -> ValueFollow<u32> {
        self.add(item, value);
        ValueFollow::new()
    }

    fn returned(&mut self, item: u32, value: u32) {
        self.came_back = self.came_back.and(item, &value);
    }
}
