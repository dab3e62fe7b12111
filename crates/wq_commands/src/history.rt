//! `wqrun steps --history`: a schedule's bytes in, its history as a recording out.
ghost use Rattle.std.specs.Prelude.{◌≡◌, ◌+◌};
ghost use Rattle.wq_text.specs.TextLimits.{most_bytes};
ghost use Rattle.wq_commands.specs.ScheduleReport.{Records, HasNoOutput};

use crate::script::TEXT_BYTES;
use std::alloc::Global;
use wq_recording::record_steps;
use wq_script::parse_steps;
use wq_subcommand::{Failure, Subcommand};

/// Replays a schedule; its output is the history that the steps make, as a recording.
pub struct HistoryCommand;

impl Subcommand for HistoryCommand {
    ghost means = { Records };

    ghost lacks = { HasNoOutput };

    ghost limit = { most_bytes + 1 };

    fn limit() -> u64 {
        TEXT_BYTES
    }

    fn output_of(&self, alloc: Global, text: &[u8]) -> Result<Vec<u8>, Failure> {
        let schedule = parse_steps(alloc, text)?;
        let recording = record_steps(alloc, &schedule)?;
        Ok(recording)
    }
}
