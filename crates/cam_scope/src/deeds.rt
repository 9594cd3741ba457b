//! Deeds and notes in words.
ghost use Rattle.std.specs.Prelude.{◌≡◌, ◌++◌, OnOk, string_bytes};
ghost use Rattle.cam_scope.specs.Deeds.{deed_text, heard, note_text};
ghost use Rattle.cam_scope.specs.Words.{name_word};

use crate::names::Names;
use crate::numbers::{push_number, push_value};
use crate::values::{object_text, write_answer, write_op, write_reason, write_seen};
use cam_base::NoMemory;
use cam_event::{Deed, Note};
use cam_names::Name;
use cam_script::Labels;
use std::alloc::Global;

/// Appends an action's word between two texts.
fn write_named(
    alloc: Global,
    names: &Names,
    before: &str,
    action: &Name,
    behind: &str,
    out: &mut String,
) -> Result<(), NoMemory>
    ensures { OnOk result (string_bytes out.new ≡ string_bytes out.old
        ++ before.now ++ name_word names.now action.now ++ behind.now) }
{
    out.push_str(before)?;
    names.write_name(alloc, action, out)?;
    Ok(out.push_str(behind)?)
}

/// Appends a deed: `C calls y read`, `commit T`, `hears abort C`.
pub fn write_deed(
    alloc: Global,
    names: &Names,
    labels: &Labels,
    deed: &Deed,
    out: &mut String,
) -> Result<(), NoMemory>
    ensures { OnOk result (string_bytes out.new ≡ string_bytes out.old
        ++ deed_text names.now labels.now deed.now) }
{
    match deed {
        Deed::Create { action } => write_named(alloc, names, "create ", action, "", out),
        Deed::Ask { action, child } => {
            write_named(alloc, names, "", action, " asks for ", out)?;
            names.write_name(alloc, child, out)
        }
        Deed::Call {
            action,
            object,
            op,
            ..
        } => {
            write_named(alloc, names, "", action, " calls ", out)?;
            out.push_str(object_text(labels, *object))?;
            out.push_str(" ")?;
            write_op(op, out)
        }
        Deed::Perform { action, answer, .. } => {
            write_named(alloc, names, "perform for ", action, ": ", out)?;
            write_answer(answer, out)
        }
        Deed::Bounce { action, holder, .. } => {
            write_named(alloc, names, "", action, " meets the lock of ", out)?;
            names.write_name(alloc, holder, out)
        }
        Deed::Got { action, seen, .. } => {
            write_named(alloc, names, "", action, " got ", out)?;
            write_seen(alloc, names, seen, out)
        }
        Deed::AskCommit { action, value } => {
            write_named(alloc, names, "", action, " asks to commit ", out)?;
            push_value(out, *value)
        }
        Deed::AskAbort { action } => write_named(alloc, names, "", action, " asks to abort", out),
        Deed::Commit { action } => write_named(alloc, names, "commit ", action, "", out),
        Deed::Abort { action } => write_named(alloc, names, "abort ", action, "", out),
        Deed::Secure { family, .. } => write_named(alloc, names, "secure ", family, "", out),
        Deed::Inform {
            name,
            committed,
            ..
        } => write_named(alloc, names, heard(*committed), name, "", out),
        Deed::Crash { site } => {
            out.push_str("restart of node ")?;
            push_number(out, u64::from(*site))
        }
    }
}

/// What a node hears of an action.
fn heard(committed: bool) -> &'static str
    ensures { result.now ≡ heard committed }
{
    if committed {
        "hears commit "
    } else {
        "hears abort "
    }
}

/// Appends a note: nothing for a plain one, else a word for it, with the reason for a stop.
pub fn write_note(
    alloc: Global,
    names: &Names,
    note: &Note,
    out: &mut String,
) -> Result<(), NoMemory>
    ensures { OnOk result (string_bytes out.new ≡ string_bytes out.old
        ++ note_text names.now note.now) }
{
    match note {
        Note::Plain => Ok(()),
        Note::Stopped(action, reason) => {
            write_named(alloc, names, "STOP ", action, ": ", out)?;
            write_reason(alloc, names, reason, out)
        }
        Note::Missed => Ok(out.push_str("missed")?),
        Note::Again => Ok(out.push_str("again")?),
        Note::Ended => Ok(out.push_str("ended")?),
        Note::Late => Ok(out.push_str("late")?),
        Note::Preparing(family) => write_named(alloc, names, "prepare ", family, "", out),
        Note::Voted => Ok(out.push_str("voted")?),
    }
}
