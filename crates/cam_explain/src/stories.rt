//! The story of an action.
ghost use Rattle.std.specs.Prelude.{◌≡◌, ◌++◌, IfOk, OnOk, string_bytes};
ghost use Rattle.cam_explain.specs.Moments.{told_in};
ghost use Rattle.cam_explain.specs.Stories.{ended_part, is_told, moment_text, story, value_part, what_text};

use crate::course::Course;
use crate::moments::{Moment, Outcome, What};
use crate::standing::Standing;
use crate::texts::{say_line, say_value};
use cam_base::NoMemory;
use cam_names::Name;
use cam_scope::{Scope, object_text, push_value, write_op, write_seen};
use cam_script::Script;
use std::alloc::Global;

/// Appends the value with which a child asked to commit, if it did.
fn write_value(value: Option<i64>, out: &mut String) -> Result<(), NoMemory>
    ensures { OnOk result (string_bytes out.new ≡ string_bytes out.old ++ value_part value) }
{
    match value {
        Some(value) => {
            out.push_str(" with ")?;
            push_value(out, value)
        }
        None => Ok(()),
    }
}

/// Appends how a child ended.
fn write_ended(
    course: &Course,
    child: &Name,
    outcome: Outcome,
    out: &mut String,
) -> Result<(), NoMemory>
    ensures { OnOk result (string_bytes out.new ≡ string_bytes out.old
        ++ ended_part (told_in course.now) child.now outcome) }
{
    match outcome {
        Outcome::Committed => {
            out.push_str(" committed")?;
            write_value(Standing::of(course.moments(child)).value, out)
        }
        Outcome::Aborted => Ok(out.push_str(" aborted")?),
    }
}

/// Appends what happened to an action; nothing where its story leaves it out.
fn write_what(
    alloc: Global,
    script: &Script,
    scope: &Scope,
    course: &Course,
    what: &What,
    out: &mut String,
) -> Result<(), NoMemory>
    ensures { OnOk result (string_bytes out.new ≡ string_bytes out.old
        ++ what_text script.now scope.now (told_in course.now) what.now) }
{
    match what {
        What::Created | What::Performed | What::Stopped => Ok(()),
        What::Asked(child) => {
            out.push_str("asks for ")?;
            scope.names.write_name(alloc, child, out)
        }
        What::Called(object, op) => {
            out.push_str("calls ")?;
            out.push_str(object_text(&script.labels, *object))?;
            out.push_str(" ")?;
            write_op(op, out)
        }
        What::Got(seen) => {
            out.push_str("got ")?;
            write_seen(alloc, &scope.names, seen, out)
        }
        What::ChildEnded(child, outcome) => {
            out.push_str("its child ")?;
            scope.names.write_name(alloc, child, out)?;
            write_ended(course, child, *outcome, out)
        }
        What::CommitAsked(value) => {
            say_value("asks to commit with ", *value, out)?;
            Ok(())
        }
        What::AbortAsked => Ok(out.push_str("asks to abort")?),
    }
}

/// Whether the story of an action tells of this.
fn is_told(what: &What) -> bool
    ensures { result ≡ is_told what.now }
{
    !matches!(what, What::Created | What::Performed | What::Stopped)
}

/// Appends a line of a story, if there is one.
fn write_moment(
    alloc: Global,
    script: &Script,
    scope: &Scope,
    course: &Course,
    moment: &Moment,
    out: &mut String,
) -> Result<(), NoMemory>
    ensures { OnOk result (string_bytes out.new ≡ string_bytes out.old
        ++ moment_text script.now scope.now (told_in course.now) moment.now) }
{
    if !is_told(&moment.what) {
        return Ok(());
    }
    out.push_str("  ")?;
    write_what(alloc, script, scope, course, &moment.what, out)?;
    say_line(out, moment.line)?;
    Ok(out.push_str("\n")?)
}

/// The story of an action.
pub(crate) fn story_of(
    alloc: Global,
    script: &Script,
    scope: &Scope,
    course: &Course,
    action: &Name,
) -> Result<String, NoMemory>
    ensures { IfOk result (λ text. string_bytes text
        ≡ story script.now scope.now (told_in course.now) action.now) }
{
    let mut text = String::new(alloc);
    for moment in course.moments(action) {
        write_moment(alloc, script, scope, course, moment, &mut text)?;
    }
    Ok(text)
}
