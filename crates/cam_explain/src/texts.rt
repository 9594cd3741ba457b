//! Parts of sentences.
ghost use Rattle.std.specs.Prelude.{◌≡◌, ◌++◌, OnOk, decimal, string_bytes};
ghost use Rattle.std.specs.Fmt.{signed_decimal};
ghost use Rattle.cam_names.specs.Names.{home_node};
ghost use Rattle.cam_explain.specs.Parts.{line_part};
ghost use Rattle.cam_scope.specs.Words.{kind_text, name_word, object_word};

use cam_base::NoMemory;
use cam_names::Name;
use cam_scope::{LetterKind, Names, object_text, push_number, push_value};
use cam_script::Labels;
use std::alloc::Global;

/// Appends ` (line 12)`.
pub(crate) fn say_line(out: &mut String, line: u32) -> Result<(), NoMemory>
    ensures { OnOk result (string_bytes out.new ≡ string_bytes out.old ++ line_part line) }
{
    out.push_str(" (line ")?;
    push_number(out, line as u64)?;
    Ok(out.push_str(")")?)
}

/// Appends a text, a number, and a text.
pub(crate) fn say_number(
    out: &mut String,
    before: &str,
    number: u64,
    behind: &str,
) -> Result<(), NoMemory>
    ensures { OnOk result (string_bytes out.new ≡ string_bytes out.old
        ++ (before.now ++ (decimal number ++ behind.now))) }
{
    out.push_str(before)?;
    push_number(out, number)?;
    Ok(out.push_str(behind)?)
}

/// Appends three texts.
pub(crate) fn say(out: &mut String, before: &str, text: &str, behind: &str) -> Result<(), NoMemory>
    ensures { OnOk result (string_bytes out.new ≡ string_bytes out.old
        ++ (before.now ++ (text.now ++ behind.now))) }
{
    out.push_str(before)?;
    out.push_str(text)?;
    Ok(out.push_str(behind)?)
}

/// Appends a text, an action with its line, and a text.
pub(crate) fn say_action(
    alloc: Global,
    names: &Names,
    before: &str,
    action: &Name,
    line: u32,
    behind: &str,
    out: &mut String,
) -> Result<(), NoMemory>
    ensures { OnOk result (string_bytes out.new ≡ string_bytes out.old
        ++ (before.now ++ (name_word names.now action.now ++ (line_part line ++ behind.now)))) }
{
    out.push_str(before)?;
    names.write_name(alloc, action, out)?;
    say_line(out, line)?;
    Ok(out.push_str(behind)?)
}

/// Appends a text, an action, and a text.
pub(crate) fn say_name(
    alloc: Global,
    names: &Names,
    before: &str,
    action: &Name,
    behind: &str,
    out: &mut String,
) -> Result<(), NoMemory>
    ensures { OnOk result (string_bytes out.new ≡ string_bytes out.old
        ++ (before.now ++ (name_word names.now action.now ++ behind.now))) }
{
    out.push_str(before)?;
    names.write_name(alloc, action, out)?;
    Ok(out.push_str(behind)?)
}

/// Appends a text, the node of an action's home, and a text.
pub(crate) fn say_home(
    before: &str,
    action: &Name,
    behind: &str,
    out: &mut String,
) -> Result<(), NoMemory>
    ensures { OnOk result (string_bytes out.new ≡ string_bytes out.old
        ++ (before.now ++ (decimal (home_node action.now) ++ behind.now))) }
{
    let (node, _) = action.home();
    out.push_str(before)?;
    push_number(out, node as u64)?;
    Ok(out.push_str(behind)?)
}

/// Appends a text, a line, and a text.
pub(crate) fn say_at_line(
    before: &str,
    line: u32,
    behind: &str,
    out: &mut String,
) -> Result<(), NoMemory>
    ensures { OnOk result (string_bytes out.new ≡ string_bytes out.old
        ++ (before.now ++ (line_part line ++ behind.now))) }
{
    out.push_str(before)?;
    say_line(out, line)?;
    Ok(out.push_str(behind)?)
}

/// Appends a text and a value.
pub(crate) fn say_value(before: &str, value: i64, out: &mut String) -> Result<(), NoMemory>
    ensures { OnOk result (string_bytes out.new ≡ string_bytes out.old
        ++ (before.now ++ signed_decimal value)) }
{
    out.push_str(before)?;
    push_value(out, value)
}

/// Appends what a letter is for, and a text.
pub(crate) fn say_kind(kind: LetterKind, behind: &str, out: &mut String) -> Result<(), NoMemory>
    ensures { OnOk result (string_bytes out.new ≡ string_bytes out.old
        ++ (kind_text kind ++ behind.now)) }
{
    out.push_str(kind.words())?;
    Ok(out.push_str(behind)?)
}

/// Appends a text, an object with the line in which it was called, and a text.
pub(crate) fn say_object(
    labels: &Labels,
    before: &str,
    object: u8,
    line: u32,
    behind: &str,
    out: &mut String,
) -> Result<(), NoMemory>
    ensures { OnOk result (string_bytes out.new ≡ string_bytes out.old
        ++ (before.now ++ (object_word labels.now object ++ (line_part line ++ behind.now)))) }
{
    out.push_str(before)?;
    out.push_str(object_text(labels, object))?;
    say_line(out, line)?;
    Ok(out.push_str(behind)?)
}
