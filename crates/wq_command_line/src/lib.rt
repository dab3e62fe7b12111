//! The command line of `wqrun`: what its words ask for, or what is said in place of that.
#![tactic(auto)]

mod notice;
mod subcommands;
mod task;

pub use notice::Notice;
pub use task::{Source, Task, TaskKind, task_of};
