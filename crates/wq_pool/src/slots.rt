//! The queues of a pool in slots: each is in its slot, or in the hand of the one that picked it up.
ghost use Rattle.std.specs.Prelude.{◌≡◌, ◌<◌, ◌^◌, Some, map, length, slice_get, IfOk, IfSome};
ghost use Rattle.wq_words.specs.History.{IsRunning};
ghost use Rattle.wq_pool.specs.Known.{id_of, GoesOnAt};

use crate::turn::{TurnOf, WorkedOf};
use atomic_table::{Play, Seat, Table, TableRule};
use std::alloc::{AllocError, Global};
use std::marker::Model;
use std::snapshot::Snapshot;
use trail::GhostList;
use wq_turn::{Runner, ServedOf, WorkerId};
use wq_worker::Station;

/// Which workers were handed in, by place, and what each was then. No value of it is made.
pub struct HandedIn<K> {
    /// Which worker it is, by place.
    pub workers: GhostList<WorkerId>,
    /// What it was when it was handed in, by place.
    pub states: GhostList<K>,
}

/// What a seat knows: the queue that it has in hand, and what was handed in. No value of it is made.
pub struct QueueHand<K> {
    /// The number of the queue in hand, if there is one.
    pub queue: Option<u64>,
    /// What was handed in.
    pub handed: HandedIn<K>,
}

/// What the table is told once: the queues that were handed in. It takes no memory.
pub type Handed<K> = Snapshot<Vec<ServedOf<K>>>;

/// What is in a slot is the worker that was handed in at that place, which goes on from what it was then.
pub struct Law;

impl<K: Station> TableRule<Option<ServedOf<K>>, QueueHand<K>, Handed<K>> for Law {
    ghost use Rattle.wq_pool.specs.Slots.{KeptSlots, empty_hand, handed_of};

    ghost holds = { λ handed state. KeptSlots K.state K.deals (handed_of K.state handed.value.items) state };

    ghost first = { λ handed. empty_hand (handed_of K.state handed.value.items) };
}

/// A seat at the slots.
pub type SlotSeat<K> = Seat<Option<ServedOf<K>>, QueueHand<K>>;

type SlotTable<K> = Table<Option<ServedOf<K>>, QueueHand<K>, Handed<K>, Law, Global>;

/// A new seat has nothing in hand.
pub struct ComesIn;

impl<K: Station> Play<Option<ServedOf<K>>, QueueHand<K>> for ComesIn {
    ghost use Rattle.wq_pool.specs.Slots.{comes_in};

    ghost then = { comes_in };
}

/// A seat picks a queue up, where the queue is in its slot.
pub struct PicksUp;

impl<K: Station> Play<Option<ServedOf<K>>, QueueHand<K>> for PicksUp {
    ghost use Rattle.wq_pool.specs.Slots.{picks_up};

    ghost then = { picks_up K.state K.deals };
}

/// A seat lays down what it has in hand.
pub struct LaysDown;

impl<K: Station> Play<Option<ServedOf<K>>, QueueHand<K>> for LaysDown {
    ghost use Rattle.wq_pool.specs.Slots.{lays_down};

    ghost then = { lays_down };
}

/// The queues of a pool, each by its place. Threads share them by `&`.
#[derive(Drop)]
pub(crate) struct QueueSlots<K: Station> {
    table: SlotTable<K>,
    count: u32,
}

impl<K: Station> Model for QueueSlots<K> {
    ghost use Rattle.wq_pool.specs.Known.{SlotsState};

    ghost Value = { SlotsState K };

    ghost use Rattle.wq_pool.specs.Views.{slots_view, AreSlots};

    ghost view = { slots_view K.state };

    ghost invariant = { AreSlots K.state };
}

// Each queue in a slot of its own. What ran before it was handed over is not counted.
fn filled<K: Station + Drop>(
    alloc: Global,
    queues: Vec<ServedOf<K>>,
) -> Result<Vec<Option<ServedOf<K>>>, AllocError>
    ensures { IfOk result (λ slots. slots.items ≡ map Some queues.items) }
{
    let mut slots = Vec::with_capacity(alloc, queues.len())?;
    for queue in queues {
        slots.push_reserved(Some(queue.anew()));
    }
    Ok(slots)
}

impl<K: Station + Drop> QueueSlots<K> {
    /// Each queue lies in the slot of its place.
    pub(crate) fn new(alloc: Global, queues: Vec<ServedOf<K>>) -> Result<QueueSlots<K>, AllocError>
        requires { length queues.items < 2 ^ 32 }
        ensures workers { IfOk result (λ slots. slots.workers ≡ map (id_of K.state) queues.items) }
        ensures states { IfOk result (λ slots. slots.states ≡ queues.items) }
    {
        let handed = Snapshot::of(&queues);
        let count = queues.len();
        let words = Vec::from_elem(alloc, 0u64, count)?;
        let slots = filled(alloc, queues)?;
        match Table::new(alloc, words.as_slice(), slots, &handed) {
            Ok((table, _seat)) => Ok(QueueSlots {
                table,
                count: count as u32,
            }),
            Err(_) => Err(AllocError),
        }
    }

    /// How many queues there are.
    pub(crate) fn count(&self) -> u32
        ensures { result ≡ length self.now.workers }
    {
        self.count
    }

    /// Picks a queue up, where it is in its slot. Tries once.
    pub(crate) fn pick_up(&self, queue: u32) -> Option<TurnOf<K>>
        requires { queue < length self.now.workers }
        ensures queue { IfSome result (λ turn. turn.queue ≡ queue) }
        ensures slots { IfSome result (λ turn. turn.slots ≡ self.now.id) }
        ensures worker { IfSome result (λ turn. slice_get self.now.workers queue ≡ Some (id_of K.state turn.worker)) }
        ensures goes_on { IfSome result (λ turn. GoesOnAt K.state K.deals self.now.states queue turn.worker) }
        ensures idle { IfSome result (λ turn. ¬ IsRunning (K.state turn.worker).seen) }
    {
        let place = queue as usize;
        let slots = &self.table.shared;
        let (_, mut seat) = slots.load_new_seat::<ComesIn>(place);
        if slots.compare_exchange::<PicksUp>(&mut seat, place, 0, 1) != 0 {
            return None;
        }
        let Some(served) = slots.exchange(&mut seat, place, None) else {
            unreachable!()
        };
        let turn = TurnOf {
            queue,
            runner: Runner::of(served),
            seat,
        };
        Some(turn)
    }

    /// Lays the queue in its slot again.
    pub(crate) fn lay_down(&self, worked: WorkedOf<K>)
        requires { worked.slots ≡ self.now.id }
    {
        let WorkedOf {
            queue,
            served,
            mut seat,
        } = worked;
        let place = queue as usize;
        let slots = &self.table.shared;
        slots.exchange(&mut seat, place, Some(served));
        slots.swap::<LaysDown>(&mut seat, place, 0);
    }
}
