//! How counts are written.
ghost use Rattle.std.specs.Prelude.{◌≡◌, ◌++◌, flat_map, OnOk, string_bytes};
ghost use Rattle.wq_meaning.specs.Report.{count_line};

use std::alloc::AllocError;
use wq_meaning::write_count;

/// Writes a line for each of these: what is counted, and how many.
pub(crate) fn write_count_lines(counts: &[(&str, u64)], out: &mut String) -> Result<(), AllocError>
    ensures { OnOk result (string_bytes out.new ≡ string_bytes out.old ++ flat_map (λ count. count_line count.0.now count.1) counts.now) }
{
    for &(word, count) in counts {
        write_count(word, count, out)?;
    }
    Ok(())
}
