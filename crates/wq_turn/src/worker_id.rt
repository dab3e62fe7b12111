//! Which worker it is.
ghost use Rattle.atomic_table.specs.Seated.{TableId, table_id_coded};

use std::marker::Model;
use wq_words::Layout;

/// What never changes of a worker: its queue, how large that is, its sender's number, and the tries of a queueing. No value of
/// it is made.
pub struct WorkerId {
    /// Its queue.
    pub ghost queue: { TableId } by { table_id_coded },
    /// How large that is.
    pub layout: Layout,
    /// Its sender's number.
    pub number: u32,
    /// The tries of a queueing.
    pub tries: u32,
}

impl Model for WorkerId {
    ghost use base.Fml.{ftrue};

    ghost also_owns = { λ _. ftrue };
}
