//! What is counted of a trace.
ghost use Rattle.std.specs.Prelude.{◌≡◌, ◌∷◌, ◌++◌, [], List, length, is_some};
ghost use Rattle.wq_check.specs.declared.mark.Mark.{Mark};
ghost use Rattle.wq_check.specs.Trace.{queued_by, started_by, returned_by, unstarted};
ghost use Rattle.wq_check.specs.TraceReport.{mark_counts};

use crate::counts::counted;
use crate::mark::Mark;

/// Counts over all marks so far; those of 64 bits stop at `2^64 - 1`.
#[derive(Clone, Copy, Debug, PartialEq, Eq)]
pub struct MarkCounts {
    /// Marks in all.
    pub marks: u64,
    /// Items that were queued.
    pub queued: u64,
    /// Functions that were called.
    pub started: u64,
    /// Functions that returned.
    pub ended: u64,
    /// How many items, queued and not started, waited at the moment when most did.
    pub most_waiting: usize,
}

/// What a checker says of the trace that it was told.
#[derive(Clone, Copy, Debug, PartialEq, Eq)]
pub struct TraceReport {
    /// What was counted.
    pub counts: MarkCounts,
    /// How many items were queued and have not ended.
    pub left: usize,
}

fn is_queue(mark: Mark) -> bool
    ensures { result ≡ is_some (queued_by mark) }
{
    match mark {
        Mark::Queue(_) => true,
        _ => false,
    }
}

fn is_start(mark: Mark) -> bool
    ensures { result ≡ is_some (started_by mark) }
{
    match mark {
        Mark::Start(_) => true,
        _ => false,
    }
}

fn is_end(mark: Mark) -> bool
    ensures { result ≡ is_some (returned_by mark) }
{
    match mark {
        Mark::End(_) => true,
        _ => false,
    }
}

impl MarkCounts {
    pub(crate) fn none() -> MarkCounts
        ensures { result ≡ mark_counts [] }
    {
        MarkCounts {
            marks: 0,
            queued: 0,
            started: 0,
            ended: 0,
            most_waiting: 0,
        }
    }

    // With one mark more, after which so many wait.
    pub(crate) fn with(self, mark: Mark, waiting_count: usize) -> MarkCounts
        ensures { (t : List Mark) → self ≡ mark_counts t → waiting_count ≡ length (unstarted (t ++ mark ∷ []))
            → result ≡ mark_counts (t ++ mark ∷ []) }
    {
        MarkCounts {
            marks: counted(self.marks, true),
            queued: counted(self.queued, is_queue(mark)),
            started: counted(self.started, is_start(mark)),
            ended: counted(self.ended, is_end(mark)),
            most_waiting: self.most_waiting.max(waiting_count),
        }
    }
}
