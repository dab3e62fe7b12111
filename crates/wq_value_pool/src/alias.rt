//! Pools of workers whose items bring values.
use wq_pool::{PoolFaultOf, PoolOf, ServedOf, TurnOf, WorkedOf};
use wq_value_worker::ValueWorker;

/// A worker whose items bring values, that owes no execution, and whose queue does not drain.
pub type ValueServed<V, W> = ServedOf<ValueWorker<V, W>>;

/// A pool of workers whose items bring values.
pub type ValuePool<V, W> = PoolOf<ValueWorker<V, W>>;

/// The queue in hand of a worker whose items bring values.
pub type ValueTurn<V, W> = TurnOf<ValueWorker<V, W>>;

/// The same, that was worked at.
pub type ValueWorked<V, W> = WorkedOf<ValueWorker<V, W>>;

/// A pool of workers whose items bring values that could not be taken apart.
pub type ValuePoolFault<V, W> = PoolFaultOf<ValueWorker<V, W>>;
