//! What an open action holds, and which line would free it.
ghost use Rattle.std.specs.Prelude.{◌≡◌, ◌++◌, OnOk, codes, string_bytes};
ghost use Rattle.std.specs.List.{flat_map};
ghost use Rattle.cam_names.specs.Names.{parent};
ghost use Rattle.cam_scope.specs.Words.{object_word};
ghost use Rattle.cam_explain.specs.Moments.{told_in};
ghost use Rattle.cam_explain.specs.Open.{giveup_text, held_text, holding_text, own_held_text, own_way_out, query_text, started_text, top_text, way_out};

use crate::course::Course;
use crate::standing::{Asked, Standing, has_restarted, held_by};
use crate::texts::{say_home, say_name};
use cam_base::NoMemory;
use cam_names::Name;
use cam_scope::{Scope, object_text};
use cam_script::{Labels, Script};
use std::alloc::Global;

/// Appends a text, `giveup P C` between backquotes, and a text.
pub(crate) fn write_giveup(
    alloc: Global,
    scope: &Scope,
    before: &str,
    parent: &Name,
    child: &Name,
    behind: &str,
    out: &mut String,
) -> Result<(), NoMemory>
    ensures { OnOk result (string_bytes out.new ≡ string_bytes out.old
        ++ (before.now ++ (giveup_text scope.now parent.now child.now ++ behind.now))) }
{
    out.push_str(before)?;
    out.push_str("`giveup ")?;
    scope.names.write_name(alloc, parent, out)?;
    out.push_str(" ")?;
    scope.names.write_name(alloc, child, out)?;
    out.push_str("`")?;
    Ok(out.push_str(behind)?)
}

/// Appends that a query frees what a family holds.
fn write_query(alloc: Global, scope: &Scope, top: &Name, out: &mut String) -> Result<(), NoMemory>
    ensures { OnOk result (string_bytes out.new ≡ string_bytes out.old
        ++ query_text scope.now top.now) }
{
    let behind = " at the node of the object frees it.\n";
    say_name(alloc, &scope.names, "`query` of ", top, behind, out)
}

/// Appends what frees what a family holds that works at bodies.
fn write_started(alloc: Global, scope: &Scope, top: &Name, out: &mut String) -> Result<(), NoMemory>
    ensures { OnOk result (string_bytes out.new ≡ string_bytes out.old
        ++ started_text scope.now top.now) }
{
    let before = "No line aborts an action that works at a body. After `restart ";
    say_home(before, top, "`, ", out)?;
    write_query(alloc, scope, top, out)?;
    Ok(())
}

/// Appends which line frees what an open top action holds.
fn write_top(
    alloc: Global,
    scope: &Scope,
    action: &Name,
    asked: Option<Asked>,
    out: &mut String,
) -> Result<(), NoMemory>
    ensures { OnOk result (string_bytes out.new ≡ string_bytes out.old
        ++ top_text scope.now action.now asked) }
{
    match asked {
        Some(_) => Ok(out.push_str(
            "`drain` delivers the letters that decide it, if they are not lost.\n",
        )?),
        None => {
            let behind = "` and its letters free it.\n";
            say_name(alloc, &scope.names, "`abort ", action, behind, out)?;
            Ok(())
        }
    }
}

/// Appends which line frees what an open action holds, by itself or by its parent.
fn write_own_way_out(
    alloc: Global,
    scope: &Scope,
    action: &Name,
    asked: Option<Asked>,
    out: &mut String,
) -> Result<(), NoMemory>
    ensures { OnOk result (string_bytes out.new ≡ string_bytes out.old
        ++ own_way_out scope.now action.now asked (parent action.now)) }
{
    match action.parent() {
        Some(parent) => {
            let behind = " frees it, once letters have told the node of the object.\n";
            write_giveup(alloc, scope, "", &parent, action, behind, out)?;
            Ok(())
        }
        None => write_top(alloc, scope, action, asked, out),
    }
}

/// Appends which line frees what an open action holds.
fn write_way_out(
    alloc: Global,
    scope: &Scope,
    course: &Course,
    action: &Name,
    asked: Option<Asked>,
    out: &mut String,
) -> Result<(), NoMemory>
    ensures { OnOk result (string_bytes out.new ≡ string_bytes out.old
        ++ way_out scope.now (told_in course.now) action.now asked) }
{
    let family = action.family();
    let top = Standing::of(course.moments(&family));
    if has_restarted(course, &family, &top) {
        write_query(alloc, scope, &family, out)
    } else if scope.is_started(&family) {
        write_started(alloc, scope, &family, out)
    } else {
        write_own_way_out(alloc, scope, action, asked, out)
    }
}

/// Appends the names of objects, each behind a blank.
fn write_objects(labels: &Labels, objects: &[u8], out: &mut String) -> Result<(), NoMemory>
    ensures { OnOk result (string_bytes out.new ≡ string_bytes out.old
        ++ flat_map (λ x. codes " " ++ object_word labels.now x) objects.now) }
{
    for object in objects {
        out.push_str(" ")?;
        out.push_str(object_text(labels, *object))?;
    }
    Ok(())
}

/// Appends the objects that an open action holds, and which line frees them.
fn write_holding(
    alloc: Global,
    script: &Script,
    scope: &Scope,
    course: &Course,
    action: &Name,
    held: &[u8],
    asked: Option<Asked>,
    out: &mut String,
) -> Result<(), NoMemory>
    ensures { OnOk result (string_bytes out.new ≡ string_bytes out.old
        ++ holding_text script.now held.now
        (way_out scope.now (told_in course.now) action.now asked)) }
{
    out.push_str("  It holds")?;
    write_objects(&script.labels, held, out)?;
    out.push_str(". ")?;
    write_way_out(alloc, scope, course, action, asked, out)?;
    Ok(())
}

/// Appends what an open action holds, if it holds something.
fn write_held(
    alloc: Global,
    script: &Script,
    scope: &Scope,
    course: &Course,
    action: &Name,
    held: &[u8],
    asked: Option<Asked>,
    out: &mut String,
) -> Result<(), NoMemory>
    ensures { OnOk result (string_bytes out.new ≡ string_bytes out.old
        ++ held_text script.now held.now
        (way_out scope.now (told_in course.now) action.now asked)) }
{
    if held.is_empty() {
        return Ok(());
    }
    write_holding(alloc, script, scope, course, action, held, asked, out)
}

/// Appends what an open action holds, by what happened to it.
pub(crate) fn write_own_held(
    alloc: Global,
    script: &Script,
    scope: &Scope,
    course: &Course,
    action: &Name,
    out: &mut String,
) -> Result<(), NoMemory>
    ensures { OnOk result (string_bytes out.new ≡ string_bytes out.old
        ++ own_held_text script.now scope.now (told_in course.now) action.now) }
{
    let moments = course.moments(action);
    let standing = Standing::of(moments);
    let held = held_by(alloc, &script.objects, course, moments)?;
    write_held(
        alloc,
        script,
        scope,
        course,
        action,
        &held,
        standing.asked,
        out,
    )?;
    Ok(())
}
