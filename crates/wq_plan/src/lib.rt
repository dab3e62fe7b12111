//! Plans of races by live threads: how large one may be, and how its text is read.
#![tactic(auto)]

mod plan;
mod plan_text;

pub use plan::Plan;
pub use plan_text::{MOST_PLAN_BYTES, PlanError, read_plan};
