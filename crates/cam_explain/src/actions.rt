//! What each action did and saw.
ghost use Rattle.std.specs.Prelude.{◌≡◌, ◌++◌, List, OnOk, length, reverse, string_bytes};
ghost use Rattle.cam_event.specs.declared.Deed.{Deed as AnyDeed};
ghost use Rattle.cam_report.specs.Gathered.{IsGathered};
ghost use Rattle.cam_explain.specs.Moments.{told_in};
ghost use Rattle.cam_explain.specs.Open.{open_text};
ghost use Rattle.cam_explain.specs.Stories.{action_text, actions_text, head_end, head_text, if_open, state_text, stated_text, with_story};

use crate::course::Course;
use crate::open::write_open;
use crate::stories::story_of;
use crate::texts::say_line;
use cam_base::NoMemory;
use cam_event::Deed;
use cam_names::Name;
use cam_report::{ActionState, Actions, gather};
use cam_scope::Scope;
use cam_script::Script;
use std::alloc::Global;

/// How an action stands at the end, in words.
fn state_text(state: ActionState) -> &'static str
    ensures { result.now ≡ state_text state }
{
    match state {
        ActionState::Committed => " committed",
        ActionState::Aborted => " aborted",
        ActionState::Open => " is open at the end",
    }
}

/// A colon before what is told of an action, else a full stop.
fn head_end(state: ActionState, story: &str) -> &'static str
    ensures { result.now ≡ head_end state (length story.now) }
{
    match state {
        ActionState::Open => ":\n",
        _ => if story.is_empty() { ".\n" } else { ":\n" },
    }
}

/// Appends an action's word, its name in the report, its line, and how it stands.
fn write_head(
    alloc: Global,
    scope: &Scope,
    action: &Name,
    state: ActionState,
    story: &str,
    out: &mut String,
) -> Result<(), NoMemory>
    ensures { OnOk result (string_bytes out.new ≡ string_bytes out.old
        ++ head_text scope.now action.now state story.now) }
{
    scope.names.write_name(alloc, action, out)?;
    out.push_str(" = ")?;
    action.write_text(alloc, out)?;
    if let Some(line) = scope.names.line(action) {
        say_line(out, line)?;
    }
    out.push_str(state_text(state))?;
    Ok(out.push_str(head_end(state, story))?)
}

/// Appends what is told of an action that is open at the end.
fn write_if_open(
    alloc: Global,
    script: &Script,
    scope: &Scope,
    course: &Course,
    action: &Name,
    state: ActionState,
    out: &mut String,
) -> Result<(), NoMemory>
    ensures { OnOk result (string_bytes out.new ≡ string_bytes out.old
        ++ if_open state
        (open_text script.now scope.now (told_in course.now) action.now)) }
{
    match state {
        ActionState::Open => {
            write_open(alloc, script, scope, course, action, out)?;
            Ok(())
        }
        _ => Ok(()),
    }
}

/// Appends what is told of an action that has this story.
fn write_with_story(
    alloc: Global,
    script: &Script,
    scope: &Scope,
    course: &Course,
    action: &Name,
    state: ActionState,
    story: &str,
    out: &mut String,
) -> Result<(), NoMemory>
    ensures { OnOk result (string_bytes out.new ≡ string_bytes out.old
        ++ with_story script.now scope.now (told_in course.now) action.now state story.now) }
{
    write_head(alloc, scope, action, state, story, out)?;
    out.push_str(story)?;
    write_if_open(alloc, script, scope, course, action, state, out)?;
    Ok(())
}

/// Appends what is told of an action that stands so at the end.
fn write_stated(
    alloc: Global,
    script: &Script,
    scope: &Scope,
    course: &Course,
    action: &Name,
    state: ActionState,
    out: &mut String,
) -> Result<(), NoMemory>
    ensures { OnOk result (string_bytes out.new ≡ string_bytes out.old
        ++ stated_text script.now scope.now (told_in course.now) action.now state) }
{
    let story = story_of(alloc, script, scope, course, action)?;
    write_with_story(alloc, script, scope, course, action, state, &story, out)?;
    Ok(())
}

/// Appends what is told of an action.
fn write_action(
    alloc: Global,
    script: &Script,
    scope: &Scope,
    course: &Course,
    actions: &Actions,
    action: &Name,
    out: &mut String,
) -> Result<(), NoMemory>
    ensures { OnOk result ((L : List AnyDeed) → IsGathered L actions.now
        → string_bytes out.new ≡ string_bytes out.old
        ++ action_text script.now scope.now (told_in course.now) L action.now) }
{
    let state = actions.state(action);
    write_stated(alloc, script, scope, course, action, state, out)?;
    Ok(())
}

/// Appends what each created action did and saw, in order of names.
pub(crate) fn write_actions(
    alloc: Global,
    script: &Script,
    scope: &Scope,
    course: &Course,
    deeds: &[Deed],
    out: &mut String,
) -> Result<(), NoMemory>
    ensures { OnOk result (string_bytes out.new ≡ string_bytes out.old
        ++ actions_text script.now scope.now (told_in course.now) (reverse deeds.now)) }
{
    let actions = gather(alloc, deeds)?;
    for action in actions.created() {
        write_action(alloc, script, scope, course, &actions, action, out)?;
    }
    Ok(())
}
