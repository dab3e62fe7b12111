//! What the seats of a queue know of what its items bring: the rule of the table, and what each step tells the seat that makes it.
use super::table::{Ahead, Blank, Kind, Law, Makes, Off, Part, SeeAll, Stores, WhichPart};
use atomic_table::{Join, Play, Seat, Shared, Split, Table, TableRule};
use std::alloc::Global;
use std::marker::{Brand, PhantomData};
use trail::GhostList;
use wq_words::Layout;

/// What a seat of a queue knows. No value of it is made.
pub struct ValuePart<V> {
    /// What it knows but for what is brought.
    pub part: Part,
    /// What each accepted number of the history that it has seen brought, in their order.
    pub brought: GhostList<Option<V>>,
}

impl<V> TableRule<Option<V>, GhostList<ValuePart<V>>, Layout> for Law {
    ghost use Rattle.wq_table.specs.Slots.{KeptValues, opening_values};

    ghost holds = { KeptValues };

    ghost first = { opening_values };
}

pub(crate) type SharedWords<V> = Shared<Option<V>, GhostList<ValuePart<V>>, Layout, Law>;

pub(crate) type Words<V> = Table<Option<V>, GhostList<ValuePart<V>>, Layout, Law, Global>;

pub(crate) type TableSeat<V> = Seat<Option<V>, GhostList<ValuePart<V>>>;

// What a chained item is to have, for the proof alone. A call at `Brand` picks it from what it is given.
pub(crate) trait Says<V> {
    ghost use Rattle.std.specs.Prelude.{Option};

    ghost said: { Option V };
}

// Nothing is said.
pub(crate) struct Nothing;

impl<V> Says<V> for Nothing {
    ghost use Rattle.std.specs.Prelude.{None};

    ghost said = { None };
}

impl<V> Says<V> for Brand {
    ghost use Rattle.std.specs.Prelude.{None};

    ghost said = { None };
}

impl<V, K: Kind, P: WhichPart> Play<Option<V>, GhostList<ValuePart<V>>> for Makes<K, P> {
    ghost use Rattle.std.specs.Prelude.{None};
    ghost use Rattle.wq_table.specs.SlotSteps.{tells_values};

    ghost then = { tells_values P.at None K.step };
}

impl<V, K: Kind, P: WhichPart> Play<Option<V>, GhostList<ValuePart<V>>> for Stores<K, P> {
    ghost use Rattle.wq_table.specs.SlotSteps.{stores_values};

    ghost then = { stores_values P.at K.step };
}

// The part at the place makes the step of this kind, by which what is said is brought.
pub(crate) struct MakesAsSaid<K, P, G> {
    of: PhantomData<(K, P, G)>,
}

impl<V, K: Kind, P: WhichPart, G: Says<V>> Play<Option<V>, GhostList<ValuePart<V>>>
    for MakesAsSaid<K, P, G> {
    ghost use Rattle.wq_table.specs.SlotSteps.{tells_values};

    ghost then = { tells_values P.at G.said K.step };
}

impl<V> Play<Option<V>, GhostList<ValuePart<V>>> for SeeAll {
    ghost use Rattle.wq_table.specs.SlotSteps.{meets_values};

    ghost then = { meets_values };
}

impl<V> Split<GhostList<ValuePart<V>>> for Off {
    ghost use Rattle.wq_table.specs.Slots.{front_values, rest_values};

    ghost left = { rest_values };

    ghost right = { front_values };
}

impl<V> Split<GhostList<ValuePart<V>>> for Blank {
    ghost use Rattle.std.specs.Prelude.{[]};

    ghost left = { λ v. v };

    ghost right = { λ v. [] };
}

impl<V> Join<GhostList<ValuePart<V>>> for Ahead {
    ghost use Rattle.std.specs.Prelude.{[], ◌++◌};

    ghost both = { λ v w. w ++ v };

    ghost spent = { [] };
}
