//! The rows as text.
ghost use Rattle.std.specs.Prelude.{◌≡◌, ◌++◌, IfOk, OnOk, map, string_bytes};
ghost use Rattle.std.specs.List.{flat_map};
ghost use Rattle.cam_columns.specs.Text.{columns_text, continued, heads, number_text, numbers, row_text};

use crate::lanes::{indented, pad, write_line};
use crate::rows::{Row, Rows};
use cam_base::NoMemory;
use cam_scope::push_number;
use std::alloc::Global;

/// Appends a number right-aligned.
fn write_number(alloc: Global, number: u64, width: usize, out: &mut String) -> Result<(), NoMemory>
    ensures { OnOk result (string_bytes out.new ≡ string_bytes out.old ++ number_text width number) }
{
    let mut digits = String::new(alloc);
    push_number(&mut digits, number)?;
    let text = indented(alloc, &digits, width)?;
    Ok(out.push_str(&text)?)
}

/// The numbers of a row: that of its event, and that of its line.
fn numbers_of(alloc: Global, row: &Row) -> Result<String, NoMemory>
    ensures { IfOk result (λ text. string_bytes text ≡ numbers row.now) }
{
    let mut text = String::new(alloc);
    write_number(alloc, row.event as u64, 5, &mut text)?;
    if let Some(line) = row.line {
        write_number(alloc, u64::from(line), 5, &mut text)?;
    }
    Ok(text)
}

/// Appends lines of a cell behind its first one.
fn write_continued(
    alloc: Global,
    nodes: u8,
    node: u8,
    cell: &[String],
    out: &mut String,
) -> Result<(), NoMemory>
    ensures { OnOk result (string_bytes out.new ≡ string_bytes out.old
        ++ flat_map (continued nodes node) (map string_bytes cell.now)) }
{
    for text in cell {
        write_line(alloc, "", nodes, node, "| ", text, out)?;
    }
    Ok(())
}

/// Appends the lines of a row.
fn write_row(alloc: Global, nodes: u8, row: &Row, out: &mut String) -> Result<(), NoMemory>
    ensures { OnOk result (string_bytes out.new ≡ string_bytes out.old ++ row_text nodes row.now) }
{
    let numbers = numbers_of(alloc, row)?;
    match row.cell.as_slice().split_first() {
        None => write_line(alloc, &numbers, nodes, row.node, "*", "", out),
        Some((first, rest)) => {
            write_line(alloc, &numbers, nodes, row.node, "* ", first, out)?;
            write_continued(alloc, nodes, row.node, rest, out)
        }
    }
}

/// Appends the rows, in order.
fn write_rows(alloc: Global, nodes: u8, rows: &Rows, out: &mut String) -> Result<(), NoMemory>
    ensures { OnOk result (string_bytes out.new ≡ string_bytes out.old
        ++ flat_map (row_text nodes) rows.now) }
{
    for row in rows.as_slice() {
        write_row(alloc, nodes, row, out)?;
    }
    Ok(())
}

/// The heads of the lanes.
fn heads_of(alloc: Global, nodes: u8) -> Result<String, NoMemory>
    ensures { IfOk result (λ text. string_bytes text ≡ heads nodes) }
{
    let mut text = String::from_str(alloc, "event line")?;
    for before in 0..nodes {
        let place = 12 + 22 * before as usize;
        pad(&mut text, place)?;
        text.push_str("node ")?;
        push_number(&mut text, before as u64 + 1)?;
    }
    Ok(text)
}

/// The rows as text, behind the heads of so many lanes. For four nodes a line has 100 characters at
/// most, unless a word of it is longer than a lane.
pub fn columns_text(alloc: Global, nodes: u8, rows: &Rows) -> Result<String, NoMemory>
    ensures { IfOk result (λ text. string_bytes text ≡ columns_text nodes rows.now) }
{
    let mut text = heads_of(alloc, nodes)?;
    text.push_str("\n")?;
    write_rows(alloc, nodes, rows, &mut text)?;
    Ok(text)
}
