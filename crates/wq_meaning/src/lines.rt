//! Lines of output, and how numbers are written on them.
ghost use Rattle.std.specs.Prelude.{◌≡◌, ◌++◌, if◌then◌else◌, OnOk, string_bytes};
ghost use Rattle.wq_meaning.specs.Report.{line};
ghost use Rattle.wq_meaning.specs.Names.{named, list_text, row_text, advance_word, left_text};

use std::alloc::AllocError;
use wq_words::Layout;

/// One of two texts.
pub fn either(test: bool, yes: &'static str, no: &'static str) -> &'static str
    ensures chosen { result.now ≡ (if test then yes.now else no.now) }
{
    if test { yes } else { no }
}

/// Writes a text on a line of its own.
///
/// # Errors
/// Memory for `out` was refused, which may have a part of the text then.
pub fn write_line(text: &str, out: &mut String) -> Result<(), AllocError>
    ensures written { OnOk result (string_bytes out.new ≡ string_bytes out.old ++ line text.now) }
{
    writeln!(out, "{text}")
}

/// Writes whether a drain emptied the queue, or how many are left.
///
/// # Errors
/// Memory for `out` was refused, which may have a part of the text then.
pub fn write_left(left: u64, out: &mut String) -> Result<(), AllocError>
    ensures written { OnOk result (string_bytes out.new ≡ string_bytes out.old ++ line (left_text left)) }
{
    if left == 0 {
        return write_line("empty", out);
    }
    writeln!(out, "too long left {left}")
}

/// What an advance says of the items that were due.
pub fn advance_word(is_closed: bool, posted: &[u32]) -> &'static str
    ensures text { result.now ≡ advance_word is_closed posted.now }
{
    either(is_closed && !posted.is_empty(), "refused", "pushed")
}

// Writes a space and the name of a number.
pub(crate) fn write_name(layout: &Layout, number: u32, out: &mut String) -> Result<(), AllocError>
    ensures written { OnOk result (string_bytes out.new ≡ string_bytes out.old ++ named layout.now number) }
{
    if number < layout.items {
        write!(out, " {number}")
    } else if number < layout.stop() {
        let barrier = number - layout.items;
        write!(out, " b{barrier}")
    } else {
        out.push_str(" stop")
    }
}

/// Writes a word, and behind it a space and the name of a number.
///
/// # Errors
/// Memory for `out` was refused, which may have a part of the text then.
pub fn write_named(
    layout: &Layout,
    word: &str,
    number: u32,
    out: &mut String,
) -> Result<(), AllocError>
    ensures written { OnOk result (string_bytes out.new ≡ string_bytes out.old ++ (word.now ++ named layout.now number)) }
{
    out.push_str(word)?;
    write_name(layout, number, out)
}

/// Writes the names of numbers.
fn write_list(layout: &Layout, numbers: &[u32], out: &mut String) -> Result<(), AllocError>
    ensures { OnOk result (string_bytes out.new ≡ string_bytes out.old ++ list_text layout.now numbers.now) }
{
    if numbers.is_empty() {
        return out.push_str(" nothing");
    }
    for number in numbers {
        write_name(layout, *number, out)?;
    }
    Ok(())
}

/// Writes a line of a word and a list of numbers.
///
/// # Errors
/// Memory for `out` was refused, which may have a part of the text then.
pub fn write_row(
    layout: &Layout,
    word: &str,
    numbers: &[u32],
    out: &mut String,
) -> Result<(), AllocError>
    ensures written { OnOk result (string_bytes out.new ≡ string_bytes out.old ++ row_text layout.now word.now numbers.now) }
{
    out.push_str(word)?;
    write_list(layout, numbers, out)?;
    out.push_str("\n")
}
