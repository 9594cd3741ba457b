//! A line of the script with a caret under one of its words.
ghost use Rattle.std.specs.Prelude.{◌≡◌, ◌++◌, OnOk, string_bytes};
ghost use Rattle.cam_explain.specs.Pointed.{blanks, pointed_text};

use cam_base::NoMemory;
use std::alloc::Global;

/// How many bytes a line may have to be shown.
const LONGEST: usize = 400;

/// Appends what stands before a caret under so many bytes of a line: a tab under a tab, else a
/// blank.
fn write_blanks(line: &[u8], many: usize, out: &mut String) -> Result<(), NoMemory>
    ensures { OnOk result (string_bytes out.new ≡ string_bytes out.old ++ blanks line.now many) }
{
    for place in 0..many {
        let byte = line.get(place).copied().unwrap_or(b' ');
        out.push_str(if byte == b'\t' { "\t" } else { " " })?;
    }
    Ok(())
}

/// Appends a line of the script, and a caret under a column of it, which counts from 1. A line that
/// is too long for a person is left out.
pub(crate) fn write_pointed(
    alloc: Global,
    line: &[u8],
    column: usize,
    out: &mut String,
) -> Result<(), NoMemory>
    ensures { OnOk result (string_bytes out.new ≡ string_bytes out.old
        ++ pointed_text line.now column) }
{
    if line.len() > LONGEST {
        return Ok(());
    }
    let text = String::from_utf8_lossy(alloc, line)?;
    out.push_str("    ")?;
    out.push_str(&text)?;
    out.push_str("\n    ")?;
    write_blanks(line, column.saturating_sub(1), out)?;
    Ok(out.push_str("^\n")?)
}
