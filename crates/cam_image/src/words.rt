//! Records in words.
ghost use Rattle.std.specs.Prelude.{◌≡◌, ◌++◌, ◌+◌, ◌≤◌, ◌∷◌, [], length, OnOk, string_bytes};
ghost use Rattle.std.specs.List.{flat_map};
ghost use Rattle.cam_base.specs.Lines.{words, inner_line};
ghost use Rattle.cam_names.specs.Dependencies.{pairs_from, pairs_of};
ghost use Rattle.cam_names.specs.Text.{name_text};
ghost use Rattle.cam_recman.specs.Inspect.{entry_text, pair_text, record_words};

use cam_base::NoMemory;
use cam_names::{Deps, Name};
use cam_recman::Record;
use std::alloc::Global;
use std::fmt::Write;

/// Appends a word and a name.
fn write_named(alloc: Global, word: &str, name: &Name, out: &mut String) -> Result<(), NoMemory>
    ensures { OnOk result (string_bytes out.new ≡ string_bytes out.old
        ++ words (word.now ∷ name_text name.now ∷ [])) }
{
    write!(out, "{word} ")?;
    name.write_text(alloc, out)
}

/// Appends these counts, which are those of the nodes from this one on, each after a blank and its node.
fn write_pairs(node: u8, counts: &[u32], out: &mut String) -> Result<(), NoMemory>
    requires { (1 ≤ node) × (node + length counts.now ≤ 9) }
    ensures { OnOk result (string_bytes out.new ≡ string_bytes out.old
        ++ flat_map (λ pair. 32 ∷ pair_text pair) (pairs_from node counts.now)) }
{
    let Some((count, behind)) = counts.split_first() else {
        return Ok(());
    };
    if *count > 0 {
        write!(out, " {node}:{count}")?;
    }
    write_pairs(node + 1, behind, out)
}

/// Appends dependencies, each after a blank.
fn write_deps(deps: &Deps, out: &mut String) -> Result<(), NoMemory>
    ensures { OnOk result (string_bytes out.new ≡ string_bytes out.old
        ++ flat_map (λ pair. 32 ∷ pair_text pair) (pairs_of deps.now)) }
{
    write_pairs(1, &deps.counts(), out)
}

/// Appends the words of a record.
fn write_record(alloc: Global, one: &Record, out: &mut String) -> Result<(), NoMemory>
    ensures { OnOk result (string_bytes out.new ≡ string_bytes out.old
        ++ words (record_words one.now)) }
{
    match one {
        Record::Count(count) => write!(out, "count {count}")?,
        Record::Abort(name) => write_named(alloc, "abort", name, out)?,
        Record::Commit(name, deps) => {
            write_named(alloc, "commit", name, out)?;
            write_deps(deps, out)?;
        }
        Record::Seen(node, count) => write!(out, "seen {node} {count}")?,
        Record::Secure(held) => {
            write_named(alloc, "secure", &held.family, out)?;
            write!(out, " {} {}", held.count, held.ops.len())?;
        }
        Record::Version => write!(out, "version 2")?,
    }
    Ok(())
}

/// Appends records, a line each.
fn write_records(alloc: Global, records: &[Record], out: &mut String) -> Result<(), NoMemory>
    ensures { OnOk result (string_bytes out.new ≡ string_bytes out.old
        ++ flat_map (λ one. inner_line (record_words one)) records.now) }
{
    for one in records {
        write!(out, "  ")?;
        write_record(alloc, one, out)?;
        writeln!(out)?;
    }
    Ok(())
}

/// Appends an entry: its number, and its records.
pub(crate) fn write_entry(
    alloc: Global,
    number: u64,
    records: &[Record],
    out: &mut String,
) -> Result<(), NoMemory>
    ensures { OnOk result (string_bytes out.new ≡ string_bytes out.old
        ++ entry_text number records.now) }
{
    writeln!(out, "entry {number}")?;
    write_records(alloc, records, out)
}
