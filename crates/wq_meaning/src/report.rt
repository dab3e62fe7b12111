//! What a report says.
ghost use Rattle.std.specs.Prelude.{◌≡◌, ◌++◌, OnOk, string_bytes, codes};
ghost use Rattle.wq_meaning.specs.Report.{count_line, report_text};

use std::alloc::AllocError;

/// Counts over all events so far, and what waits now.
#[derive(Clone, Copy, Debug, PartialEq, Eq)]
pub struct ReportCounts {
    /// Numbers that were pushed or chained.
    pub accepted: u64,
    /// Those of them that were chained.
    pub chained: u64,
    /// Executions that ended.
    pub executed: u64,
    /// Queueings that found the PENDING bit set.
    pub busy: u64,
    /// Queueings that were given back because the queue took no push: it was closed, or drained.
    pub refused: u64,
    /// Items on the delay table.
    pub delayed: u64,
    /// Numbers that are accepted and not executed.
    pub waiting: u64,
}

/// Writes a word and a count on a line of their own.
///
/// # Errors
/// Memory for `out` was refused, which may have a part of the text then.
#[tactic(auto, unfolding(crate::specs::Report::count_line))]
pub fn write_count(word: &str, count: u64, out: &mut String) -> Result<(), AllocError>
    ensures written { OnOk result (string_bytes out.new ≡ string_bytes out.old ++ count_line word.now count) }
{
    writeln!(out, "{word} {count}")
}

impl ReportCounts {
    /// Writes the seven lines of a report.
    ///
    /// # Errors
    /// Memory for `out` was refused, which may have a part of the text then.
    pub fn write(self, out: &mut String) -> Result<(), AllocError>
        ensures written { OnOk result (string_bytes out.new ≡ string_bytes out.old ++ report_text self) }
    {
        write_count("accepted", self.accepted, out)?;
        write_count("chained", self.chained, out)?;
        write_count("executed", self.executed, out)?;
        write_count("busy", self.busy, out)?;
        self.write_last(out)
    }

    // Writes the last three of them.
    fn write_last(self, out: &mut String) -> Result<(), AllocError>
        ensures { OnOk result (string_bytes out.new ≡ string_bytes out.old
            ++ (count_line (codes "refused") self.refused ++ count_line (codes "delayed") self.delayed ++ count_line (codes "waiting") self.waiting)) }
    {
        write_count("refused", self.refused, out)?;
        write_count("delayed", self.delayed, out)?;
        write_count("waiting", self.waiting, out)
    }
}
