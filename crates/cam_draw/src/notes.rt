//! The notes of events in words: what became of a letter, and why an orphan is stopped.
ghost use Rattle.std.specs.Prelude.{◌≡◌, ◌++◌, OnOk, codes, decimal, string_bytes};
ghost use Rattle.cam_event.specs.declared.Note.TheVariants.{Stopped};
ghost use Rattle.cam_scope.specs.Words.{name_word};
ghost use Rattle.cam_draw.specs.Words.{cause_words, note_words, stop_word};

use cam_base::NoMemory;
use cam_event::Note;
use cam_know::Reason;
use cam_names::Name;
use cam_scope::{Names, push_number};
use std::alloc::Global;

/// Appends a word and a number.
pub(crate) fn write_numbered(out: &mut String, word: &str, number: u64) -> Result<(), NoMemory>
    ensures { OnOk result (string_bytes out.new ≡ string_bytes out.old
        ++ word.now ++ decimal number) }
{
    out.push_str(word)?;
    push_number(out, number)
}

/// Appends an action's word between two texts.
fn write_named(
    alloc: Global,
    names: &Names,
    before: &str,
    action: &Name,
    behind: &str,
    out: &mut String,
) -> Result<(), NoMemory>
    ensures { OnOk result (string_bytes out.new ≡ string_bytes out.old
        ++ before.now ++ name_word names.now action.now ++ behind.now) }
{
    out.push_str(before)?;
    names.write_name(alloc, action, out)?;
    Ok(out.push_str(behind)?)
}

/// Appends what made an action an orphan.
fn write_cause(
    alloc: Global,
    names: &Names,
    reason: &Reason,
    out: &mut String,
) -> Result<(), NoMemory>
    ensures { OnOk result (string_bytes out.new ≡ string_bytes out.old
        ++ cause_words names.now reason.now) }
{
    match reason {
        Reason::Abort(action) => write_named(alloc, names, "", action, " was aborted", out),
        Reason::Crash { node, .. } => {
            write_numbered(out, "node ", *node as u64)?;
            Ok(out.push_str(" restarted")?)
        }
    }
}

/// How it begins that an orphan is stopped.
#[tactic(auto, unfolding(crate::specs::Words::stop_word))]
fn stop_word() -> &'static str
    ensures { result.now ≡ stop_word }
{
    "STOP orphan "
}

/// Appends that an orphan is stopped, and why.
fn write_stop(
    alloc: Global,
    names: &Names,
    action: &Name,
    reason: &Reason,
    out: &mut String,
) -> Result<(), NoMemory>
    ensures { OnOk result (string_bytes out.new ≡ string_bytes out.old
        ++ note_words names.now (Stopped action.now reason.now)) }
{
    write_named(alloc, names, stop_word(), action, ": ", out)?;
    write_cause(alloc, names, reason, out)
}

/// Appends a note: nothing for a plain one.
pub(crate) fn write_note(
    alloc: Global,
    names: &Names,
    note: &Note,
    out: &mut String,
) -> Result<(), NoMemory>
    ensures { OnOk result (string_bytes out.new ≡ string_bytes out.old
        ++ note_words names.now note.now) }
{
    match note {
        Note::Plain => Ok(()),
        Note::Stopped(action, reason) => write_stop(alloc, names, action, reason, out),
        Note::Missed => Ok(out.push_str("missed: the node has restarted since")?),
        Note::Again => Ok(out.push_str("again: this was done before")?),
        Note::Ended => Ok(out.push_str("ended: this call is old")?),
        Note::Late => Ok(out.push_str("late: this changes nothing")?),
        Note::Preparing(family) => {
            write_named(alloc, names, "asks for votes on ", family, "", out)
        }
        Note::Voted => Ok(out.push_str("a vote is counted")?),
    }
}
