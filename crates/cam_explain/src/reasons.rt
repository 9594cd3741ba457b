//! What stood against a refused line.
ghost use Rattle.std.specs.Prelude.{◌≡◌, ◌++◌, OnOk, string_bytes};
ghost use Rattle.cam_explain.specs.Moments.{told_in};
ghost use Rattle.cam_explain.specs.Reasons.{actor, against_text, by_actor, ended_text, halted_text, letter_of, lost_before, missing_text, no_letter_text, not_open_text, of_action, unanswered_text, unbound_text, undecided_text};

use crate::acts::{actor, binder, letter_at, letter_of, node_of};
use crate::course::Course;
use crate::moments::Moment;
use crate::standing::{Asked, OpenCall, Standing, before, open_child};
use crate::texts::{say_action, say_number, say_object};
use cam_base::NoMemory;
use cam_event::LineRefusal;
use cam_names::Name;
use cam_scope::{Fate, NamedLetter, Scope};
use cam_script::{Act, Script};
use std::alloc::Global;

/// Appends which node is halted.
fn write_halted(node: Option<u8>, out: &mut String) -> Result<(), NoMemory>
    ensures { OnOk result (string_bytes out.new ≡ string_bytes out.old ++ halted_text node) }
{
    if let Some(node) = node {
        say_number(out, "  It is node ", node as u64, ".\n")?;
    }
    Ok(())
}

/// Appends the line that should have bound the variable.
fn write_unbound(
    script: &Script,
    scope: &Scope,
    act: &Act,
    out: &mut String,
) -> Result<(), NoMemory>
    ensures { OnOk result (string_bytes out.new ≡ string_bytes out.old
        ++ unbound_text script.now scope.now act.now) }
{
    let Some(place) = binder(scope, act) else {
        return Ok(());
    };
    match script.steps.get(place as usize) {
        Some(step) => say_number(out, "  See line ", step.line as u64, ".\n"),
        None => Ok(()),
    }
}

/// The line that took out a letter, if it stands before this one.
fn lost_before(line: u32, fate: Fate) -> Option<u32>
    ensures { result ≡ lost_before line fate }
{
    match fate {
        Fate::Lost(lost) => if lost < line { Some(lost) } else { None },
        _ => None,
    }
}

/// Appends what became of a letter that was not there for a line.
fn write_missing(line: u32, letter: &NamedLetter, out: &mut String) -> Result<(), NoMemory>
    ensures { OnOk result (string_bytes out.new ≡ string_bytes out.old
        ++ missing_text letter.now (lost_before line letter.now.fate)) }
{
    match lost_before(line, letter.fate) {
        Some(lost) => say_number(out, "  It was lost in line ", lost as u64, ".\n")?,
        None => say_number(out, "  It is sent later, by event ", letter.id.event, ".\n")?,
    }
    Ok(())
}

/// Appends what became of the letter of a line.
fn write_no_letter(scope: &Scope, line: u32, act: &Act, out: &mut String) -> Result<(), NoMemory>
    ensures { OnOk result (string_bytes out.new ≡ string_bytes out.old
        ++ no_letter_text scope.now line (letter_of act.now)) }
{
    let Some(number) = letter_of(act) else {
        return Ok(());
    };
    match letter_at(scope, number) {
        Some(letter) => write_missing(line, letter, out),
        None => {
            let letters = scope.letters.len() as u64;
            say_number(out, "  The whole run sends ", letters, " letters.\n")
        }
    }
}

/// Appends how an action had ended.
fn write_ended(action: &Name, asked: Option<Asked>, out: &mut String) -> Result<(), NoMemory>
    ensures { OnOk result (string_bytes out.new ≡ string_bytes out.old
        ++ ended_text action.now asked) }
{
    match asked {
        Some(Asked::ToCommit(line)) => {
            say_number(out, "  It asked to commit in line ", line as u64, ".\n")?
        }
        Some(Asked::ToAbort(line)) => {
            say_number(out, "  It asked to abort in line ", line as u64, ".\n")?
        }
        None => {
            let (node, _) = action.home();
            say_number(
                out,
                "  Its home, node ",
                node as u64,
                ", has restarted since.\n",
            )?
        }
    }
    Ok(())
}

/// Appends the call that has no answer.
fn write_unanswered(
    script: &Script,
    call: Option<OpenCall>,
    out: &mut String,
) -> Result<(), NoMemory>
    ensures { OnOk result (string_bytes out.new ≡ string_bytes out.old
        ++ unanswered_text script.now call) }
{
    match call {
        Some(call) => {
            let behind = " has no answer.\n";
            say_object(
                &script.labels,
                "  The call of ",
                call.object,
                call.line,
                behind,
                out,
            )?;
            Ok(())
        }
        None => Ok(()),
    }
}

/// Appends the child that is not decided.
fn write_undecided(
    alloc: Global,
    scope: &Scope,
    child: Option<(Name, u32)>,
    out: &mut String,
) -> Result<(), NoMemory>
    ensures { OnOk result (string_bytes out.new ≡ string_bytes out.old
        ++ undecided_text scope.now child) }
{
    match child {
        Some((child, line)) => {
            let behind = " has neither committed nor aborted.\n";
            say_action(
                alloc,
                &scope.names,
                "  The child ",
                &child,
                line,
                behind,
                out,
            )?;
            Ok(())
        }
        None => Ok(()),
    }
}

/// Why an action is not created, or a child not open.
fn not_open_text(is_created: bool) -> &'static str
    ensures { result.now ≡ not_open_text is_created }
{
    if is_created {
        "  The child is decided, or was never asked for.\n"
    } else {
        "  No letter has brought it to its home yet.\n"
    }
}

/// Appends what stood against the request of an action, by what had happened to it.
fn write_of_action(
    alloc: Global,
    script: &Script,
    scope: &Scope,
    action: &Name,
    moments: &[Moment],
    refusal: LineRefusal,
    out: &mut String,
) -> Result<(), NoMemory>
    ensures { OnOk result (string_bytes out.new ≡ string_bytes out.old
        ++ of_action script.now scope.now action.now moments.now refusal) }
{
    let standing = Standing::of(moments);
    match refusal {
        LineRefusal::Ended => write_ended(action, standing.asked, out),
        LineRefusal::OpenCall => write_unanswered(script, standing.call, out),
        LineRefusal::OpenChild => write_undecided(alloc, scope, open_child(moments), out),
        LineRefusal::NotOpen => { Ok(out.push_str(not_open_text(standing.created_at.is_some()))?) }
        _ => Ok(()),
    }
}

/// Appends what stood against the request of the action of a line, if it is about one.
fn write_by_actor(
    alloc: Global,
    script: &Script,
    scope: &Scope,
    course: &Course,
    line: u32,
    act: &Act,
    refusal: LineRefusal,
    out: &mut String,
) -> Result<(), NoMemory>
    ensures { OnOk result (string_bytes out.new ≡ string_bytes out.old
        ++ by_actor script.now scope.now (told_in course.now) line refusal
        (actor scope.now act.now)) }
{
    match actor(scope, act) {
        Some(action) => {
            let moments = before(course.moments(&action), line);
            write_of_action(alloc, script, scope, &action, moments, refusal, out)
        }
        None => Ok(()),
    }
}

/// Appends what stood against a line.
pub(crate) fn write_against(
    alloc: Global,
    script: &Script,
    scope: &Scope,
    course: &Course,
    line: u32,
    act: &Act,
    refusal: LineRefusal,
    out: &mut String,
) -> Result<(), NoMemory>
    ensures { OnOk result (string_bytes out.new ≡ string_bytes out.old
        ++ against_text script.now scope.now (told_in course.now) line act.now refusal) }
{
    match refusal {
        LineRefusal::Unbound => write_unbound(script, scope, act, out),
        LineRefusal::NoLetter => write_no_letter(scope, line, act, out),
        LineRefusal::Halted => write_halted(node_of(scope, act), out),
        _ => write_by_actor(alloc, script, scope, course, line, act, refusal, out),
    }
}
