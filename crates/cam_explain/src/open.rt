//! The actions that are open at the end, and for what they wait.
ghost use Rattle.std.specs.Prelude.{◌≡◌, ◌++◌, OnOk, string_bytes};
ghost use Rattle.cam_names.specs.Names.{parent};
ghost use Rattle.cam_explain.specs.Moments.{told_in};
ghost use Rattle.cam_explain.specs.Open.{asked_text, child_text, decided_by, decision, open_text, own_call_text, restarted_text, wait_text};
ghost use Rattle.cam_explain.specs.Standings.{standing};

use crate::course::Course;
use crate::held::{write_giveup, write_own_held};
use crate::standing::{Asked, OpenCall, Standing, has_restarted, open_child};
use crate::texts::{say_action, say_at_line, say_home, say_number, say_object};
use cam_base::NoMemory;
use cam_names::Name;
use cam_scope::Scope;
use cam_script::Script;
use std::alloc::Global;

/// Appends which line decides an action, if it is a child.
fn write_decided_by(
    alloc: Global,
    scope: &Scope,
    action: &Name,
    out: &mut String,
) -> Result<(), NoMemory>
    ensures { OnOk result (string_bytes out.new ≡ string_bytes out.old
        ++ decided_by scope.now action.now (parent action.now)) }
{
    match action.parent() {
        Some(parent) => {
            write_giveup(alloc, scope, " ", &parent, action, " decides it.", out)?;
            Ok(())
        }
        None => Ok(()),
    }
}

/// Appends which line decides an action, if it is a child and does not work at a body.
fn write_decision(
    alloc: Global,
    scope: &Scope,
    action: &Name,
    out: &mut String,
) -> Result<(), NoMemory>
    ensures { OnOk result (string_bytes out.new ≡ string_bytes out.old
        ++ decision scope.now action.now) }
{
    if scope.is_started(&action.family()) {
        return Ok(());
    }
    write_decided_by(alloc, scope, action, out)
}

/// Appends that the home of an action has restarted, and which line decides it.
fn write_restarted(
    alloc: Global,
    scope: &Scope,
    action: &Name,
    out: &mut String,
) -> Result<(), NoMemory>
    ensures { OnOk result (string_bytes out.new ≡ string_bytes out.old
        ++ restarted_text scope.now action.now) }
{
    let behind = ", has restarted since, so it does nothing more.";
    say_home("  Its home, node ", action, behind, out)?;
    write_decision(alloc, scope, action, out)?;
    Ok(out.push_str("\n")?)
}

/// Appends what an action has asked for that has not come about.
fn write_asked(asked: Option<Asked>, out: &mut String) -> Result<(), NoMemory>
    ensures { OnOk result (string_bytes out.new ≡ string_bytes out.old ++ asked_text asked) }
{
    match asked {
        None => Ok(out.push_str("  Nothing holds it up: no line asks for its end.\n")?),
        Some(Asked::ToCommit(line)) => {
            let behind = ", and that is not decided.\n";
            say_at_line("  It has asked to commit", line, behind, out)?;
            Ok(())
        }
        Some(Asked::ToAbort(line)) => {
            let behind = ", and that is not decided.\n";
            say_at_line("  It has asked to abort", line, behind, out)?;
            Ok(())
        }
    }
}

/// Appends for which child an action waits, or what it has asked for.
fn write_child(
    alloc: Global,
    scope: &Scope,
    child: Option<(Name, u32)>,
    asked: Option<Asked>,
    out: &mut String,
) -> Result<(), NoMemory>
    ensures { OnOk result (string_bytes out.new ≡ string_bytes out.old
        ++ child_text scope.now child (asked_text asked)) }
{
    match child {
        Some((child, line)) => {
            let before = "  It waits for its child ";
            say_action(alloc, &scope.names, before, &child, line, ".\n", out)?;
            Ok(())
        }
        None => write_asked(asked, out),
    }
}

/// Appends for the answer to which call an action waits.
fn write_call(script: &Script, call: OpenCall, out: &mut String) -> Result<(), NoMemory>
    ensures { OnOk result (string_bytes out.new ≡ string_bytes out.old
        ++ own_call_text script.now call) }
{
    let before = "  It waits for the answer to its call of ";
    say_object(&script.labels, before, call.object, call.line, ".\n", out)
}

/// Appends for what an open action waits.
fn write_wait(
    alloc: Global,
    script: &Script,
    scope: &Scope,
    course: &Course,
    action: &Name,
    standing: &Standing,
    out: &mut String,
) -> Result<(), NoMemory>
    ensures { OnOk result (string_bytes out.new ≡ string_bytes out.old
        ++ wait_text script.now scope.now (told_in course.now) action.now standing.now) }
{
    if has_restarted(course, action, standing) {
        return write_restarted(alloc, scope, action, out);
    }
    if let Some(event) = standing.stopped_at {
        return say_number(out, "  It was stopped at event ", event as u64, ".\n");
    }
    if let Some(call) = standing.call {
        return write_call(script, call, out);
    }
    let child = open_child(course.moments(action));
    write_child(alloc, scope, child, standing.asked, out)
}

/// Appends for what an open action waits, by what happened to it.
fn write_own_wait(
    alloc: Global,
    script: &Script,
    scope: &Scope,
    course: &Course,
    action: &Name,
    out: &mut String,
) -> Result<(), NoMemory>
    ensures { OnOk result (string_bytes out.new ≡ string_bytes out.old
        ++ wait_text script.now scope.now (told_in course.now) action.now
        (standing ((told_in course.now).moments action.now))) }
{
    let standing = Standing::of(course.moments(action));
    write_wait(alloc, script, scope, course, action, &standing, out)?;
    Ok(())
}

/// Appends what is to be said of an action that is open at the end.
pub(crate) fn write_open(
    alloc: Global,
    script: &Script,
    scope: &Scope,
    course: &Course,
    action: &Name,
    out: &mut String,
) -> Result<(), NoMemory>
    ensures { OnOk result (string_bytes out.new ≡ string_bytes out.old
        ++ open_text script.now scope.now (told_in course.now) action.now) }
{
    write_own_wait(alloc, script, scope, course, action, out)?;
    write_own_held(alloc, script, scope, course, action, out)?;
    Ok(())
}
