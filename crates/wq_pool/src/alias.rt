//! Pools of workers of one kind.
use crate::finish::PoolFaultOf;
use crate::pool::PoolOf;
use crate::turn::{TurnOf, WorkedOf};
use wq_worker::Worker;

/// A pool of plain workers.
pub type Pool<W> = PoolOf<Worker<W>>;

/// A plain worker's queue in hand.
pub type Turn<W> = TurnOf<Worker<W>>;

/// A plain worker's queue that was worked at.
pub type Worked<W> = WorkedOf<Worker<W>>;

/// A pool of plain workers that could not be taken apart.
pub type PoolFault<W> = PoolFaultOf<Worker<W>>;
