//! Deeds in words.
ghost use Rattle.std.specs.Prelude.{◌≡◌, ◌++◌, ◌∷◌, [], OnOk, codes, decimal, string_bytes};
ghost use Rattle.cam_names.specs.Text.{name_text};
ghost use Rattle.cam_report.specs.Words.{words, op_words};
ghost use Rattle.cam_report.specs.DeedWords.{outcome_word, deed_words};

use crate::words::{object_text, write_answer, write_op, write_seen};
use cam_base::NoMemory;
use cam_event::Deed;
use cam_names::Name;
use cam_script::Labels;
use cam_type::Op;
use std::alloc::Global;
use std::fmt::Write;

/// Appends a word and a name.
fn write_named(alloc: Global, word: &str, name: &Name, out: &mut String) -> Result<(), NoMemory>
    ensures { OnOk result (string_bytes out.new ≡ string_bytes out.old
        ++ words (word.now ∷ name_text name.now ∷ [])) }
{
    write!(out, "{word} ")?;
    name.write_text(alloc, out)
}

/// Appends a word, an action, the number of its call, and a blank.
fn write_call_head(
    alloc: Global,
    word: &str,
    action: &Name,
    number: u32,
    out: &mut String,
) -> Result<(), NoMemory>
    ensures { OnOk result (string_bytes out.new ≡ string_bytes out.old
        ++ words (word.now ∷ name_text action.now ∷ decimal number ∷ []) ++ codes " ") }
{
    write_named(alloc, word, action, out)?;
    Ok(write!(out, " {number} ")?)
}

/// Appends what was called: an object's name, the operation on it, and the addressed count of its node.
fn write_called(object: &str, op: &Op, count: u32, out: &mut String) -> Result<(), NoMemory>
    ensures { OnOk result (string_bytes out.new ≡ string_bytes out.old
        ++ words (object.now ∷ op_words op.now ++ decimal count ∷ [])) }
{
    write!(out, "{object} ")?;
    write_op(op, out)?;
    Ok(write!(out, " {count}")?)
}

/// The word for an outcome.
fn outcome_word(committed: bool) -> &'static str
    ensures { result.now ≡ outcome_word committed }
{
    if committed { "commit" } else { "abort" }
}

/// Appends the words of a deed.
pub(crate) fn write_deed(
    alloc: Global,
    labels: &Labels,
    deed: &Deed,
    out: &mut String,
) -> Result<(), NoMemory>
    ensures { OnOk result (string_bytes out.new ≡ string_bytes out.old
        ++ words (deed_words labels.now deed.now)) }
{
    match deed {
        Deed::Create { action } => write_named(alloc, "create", action, out),
        Deed::Ask { action, child } => {
            write_named(alloc, "ask", action, out)?;
            out.push_str(" ")?;
            child.write_text(alloc, out)
        }
        Deed::Call {
            action,
            number,
            object,
            op,
            count,
        } => {
            write_call_head(alloc, "call", action, *number, out)?;
            write_called(object_text(labels, *object), op, *count, out)
        }
        Deed::Perform {
            action,
            number,
            answer,
        } => {
            write_call_head(alloc, "perform", action, *number, out)?;
            write_answer(answer, out)
        }
        Deed::Bounce {
            action,
            number,
            holder,
        } => {
            write_call_head(alloc, "bounce", action, *number, out)?;
            holder.write_text(alloc, out)
        }
        Deed::Got {
            action,
            number,
            seen,
        } => {
            write_call_head(alloc, "got", action, *number, out)?;
            write_seen(alloc, seen, out)
        }
        Deed::AskCommit { action, value } => {
            write_named(alloc, "askcommit", action, out)?;
            Ok(write!(out, " {value}")?)
        }
        Deed::AskAbort { action } => write_named(alloc, "askabort", action, out),
        Deed::Commit { action } => write_named(alloc, "commit", action, out),
        Deed::Abort { action } => write_named(alloc, "abort", action, out),
        Deed::Secure {
            family,
            site,
            count,
        } => {
            write_named(alloc, "secure", family, out)?;
            Ok(write!(out, " {site} {count}")?)
        }
        Deed::Inform {
            site,
            name,
            committed,
        } => {
            write!(out, "inform {site} ")?;
            write_named(alloc, outcome_word(*committed), name, out)
        }
        Deed::Crash { site } => Ok(write!(out, "crash {site}")?),
    }
}
