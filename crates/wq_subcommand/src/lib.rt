//! What every subcommand of the program does: it reads a text, makes something of it, writes that, and ends with an exit status.
#![tactic(auto)]

mod ending;
mod failure;
mod reading;
mod status;
mod subcommand;

pub use ending::end;
pub use failure::Failure;
pub use reading::read_most;
pub use status::{FAILED, NO_MEMORY, NOT_LEGAL, WRITTEN, WRONG_WORDS};
pub use subcommand::{Subcommand, subcommand_main};
