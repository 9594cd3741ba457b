//! A line of the columns: its numbers, and its lanes.
ghost use Rattle.std.specs.Prelude.{◌≡◌, ◌≤◌, ◌++◌, IfOk, OnOk, string_bytes};
ghost use Rattle.cam_columns.specs.Text.{indented, lane, lanes, line_text, padded};

use cam_base::NoMemory;
use std::alloc::Global;

/// Appends blanks until the text has this length.
pub(crate) fn pad(line: &mut String, width: usize) -> Result<(), NoMemory>
    ensures { OnOk result (string_bytes line.new ≡ padded width (string_bytes line.old)) }
{
    let missing = width.saturating_sub(line.len());
    for done in 0..missing {
        line.push_str(" ")?;
    }
    Ok(())
}

/// A text behind so many blanks that both have this length.
pub(crate) fn indented(alloc: Global, text: &str, width: usize) -> Result<String, NoMemory>
    ensures { IfOk result (λ line. string_bytes line ≡ indented width text.now) }
{
    let mut line = String::new(alloc);
    pad(&mut line, width.saturating_sub(text.len()))?;
    line.push_str(text)?;
    Ok(line)
}

/// Appends one lane: the bar of another node, or the mark and the text of the event's.
fn push_lane(line: &mut String, is_own: bool, mark: &str, text: &str) -> Result<(), NoMemory>
    ensures { OnOk result (string_bytes line.new ≡ string_bytes line.old
        ++ lane is_own mark.now text.now) }
{
    if is_own {
        line.push_str(mark)?;
        Ok(line.push_str(text)?)
    } else {
        Ok(line.push_str("|")?)
    }
}

/// Appends the lanes of so many nodes, of which the one of this node has the mark and the text.
fn push_lanes(
    line: &mut String,
    nodes: u8,
    node: u8,
    mark: &str,
    text: &str,
) -> Result<(), NoMemory>
    ensures { OnOk result (string_bytes line.new
        ≡ lanes (string_bytes line.old) node mark.now text.now nodes) }
{
    for before in 0..nodes {
        let place = 12 + 22 * before as usize;
        pad(line, place)?;
        push_lane(line, before + 1 == node, mark, text)?;
    }
    Ok(())
}

/// Appends a whole line: what stands before the lanes, and the lanes.
pub(crate) fn write_line(
    alloc: Global,
    front: &str,
    nodes: u8,
    node: u8,
    mark: &str,
    text: &str,
    out: &mut String,
) -> Result<(), NoMemory>
    ensures { OnOk result (string_bytes out.new ≡ string_bytes out.old
        ++ line_text front.now nodes node mark.now text.now) }
{
    let mut line = String::from_str(alloc, front)?;
    push_lanes(&mut line, nodes, node, mark, text)?;
    out.push_str(&line)?;
    Ok(out.push_str("\n")?)
}
