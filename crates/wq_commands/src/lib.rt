//! The program's subcommands but `live`: what each makes of a text, as a `Subcommand`, the mains of `script` and `steps`, and that
//! of `check`, whose recording is judged as it is read.
#![tactic(auto)]

mod check;
mod history;
mod script;
mod steps;

pub use check::check_main;
pub use history::HistoryCommand;
pub use script::{ScriptCommand, script_main};
pub use steps::{StepsCommand, steps_main};
