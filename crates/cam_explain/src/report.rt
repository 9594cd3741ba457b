//! A whole run in words.
ghost use Rattle.std.specs.Prelude.{◌≡◌, [], IfOk, OnOk, reverse, string_bytes};
ghost use Rattle.cam_event.specs.History.{after};
ghost use Rattle.cam_report.specs.Report.{values_from};
ghost use Rattle.cam_why.specs.Causes.{IsWhole};
ghost use Rattle.cam_explain.specs.Explained.{explained, with_part};
ghost use Rattle.cam_explain.specs.Marks.{marks_text};
ghost use Rattle.cam_explain.specs.Moments.{told_in};
ghost use Rattle.cam_explain.specs.Notes.{letters_from, notes_from};
ghost use Rattle.cam_explain.specs.Stops.{stops_from};
ghost use Rattle.cam_explain.specs.Stories.{actions_text};

use crate::actions::write_actions;
use crate::course::{Course, course_of};
use crate::letters::write_letters;
use crate::marks::write_marks;
use crate::notes::write_notes;
use crate::stops::write_stops;
use cam_base::NoMemory;
use cam_event::{Deeds, RunRecord};
use cam_report::{deeds_of, write_values};
use cam_scope::{Lines, Scope};
use cam_script::Script;
use std::alloc::Global;

/// Appends a part behind an empty line, unless it is empty or the first.
fn add_part(text: &mut String, part: &str) -> Result<(), NoMemory>
    ensures { OnOk result (string_bytes text.new ≡ with_part (string_bytes text.old) part.now) }
{
    if part.is_empty() {
        return Ok(());
    }
    if !text.is_empty() {
        text.push_str("\n")?;
    }
    Ok(text.push_str(part)?)
}

/// What each action did and saw.
fn actions_of(
    alloc: Global,
    script: &Script,
    scope: &Scope,
    course: &Course,
    deeds: &Deeds,
) -> Result<String, NoMemory>
    ensures { IfOk result (λ text. string_bytes text
        ≡ actions_text script.now scope.now (told_in course.now) (reverse deeds.now)) }
{
    let mut text = String::new(alloc);
    write_actions(alloc, script, scope, course, deeds.as_slice(), &mut text)?;
    Ok(text)
}

/// Adds the marks of lines.
fn add_marks(
    alloc: Global,
    source: &Lines<'_>,
    script: &Script,
    scope: &Scope,
    course: &Course,
    run: &RunRecord,
    text: &mut String,
) -> Result<(), NoMemory>
    ensures { OnOk result (string_bytes text.new ≡ with_part (string_bytes text.old)
        (marks_text source.now script.now scope.now (told_in course.now) run.now.marks)) }
{
    let mut marks = String::new(alloc);
    write_marks(alloc, source, script, scope, course, &run.marks, &mut marks)?;
    add_part(text, &marks)
}

/// Adds the stops.
fn add_stops(
    alloc: Global,
    scope: &Scope,
    run: &RunRecord,
    text: &mut String,
) -> Result<(), NoMemory>
    ensures { OnOk result (IsWhole (reverse run.now.trace)
        → string_bytes text.new ≡ with_part (string_bytes text.old)
        (stops_from scope.now (reverse run.now.trace) 0 run.now.trace)) }
{
    let mut stops = String::new(alloc);
    write_stops(alloc, scope, run, &mut stops)?;
    add_part(text, &stops)
}

/// Adds the notes of events, and the letters that no event received.
fn add_notes(
    alloc: Global,
    scope: &Scope,
    run: &RunRecord,
    text: &mut String,
) -> Result<(), NoMemory>
    ensures { OnOk result (string_bytes text.new
        ≡ with_part (with_part (string_bytes text.old) (notes_from scope.now 0 run.now.trace))
        (letters_from 1 scope.now.letters)) }
{
    let mut notes = String::new(alloc);
    write_notes(scope, &run.trace, &mut notes)?;
    add_part(text, &notes)?;
    let mut letters = String::new(alloc);
    write_letters(scope.letters.as_slice(), &mut letters)?;
    add_part(text, &letters)
}

/// Adds the values of the objects.
fn add_values(
    alloc: Global,
    script: &Script,
    deeds: &Deeds,
    text: &mut String,
) -> Result<(), NoMemory>
    ensures { OnOk result (string_bytes text.new ≡ with_part (string_bytes text.old)
        (values_from script.now.objects (after [] deeds.now) 0 script.now.labels)) }
{
    let mut values = String::new(alloc);
    write_values(alloc, script, deeds, &mut values)?;
    add_part(text, &values)
}

/// The run of a script in words: what each action did and saw, and for what it waits if it is open;
/// the marks of lines, with what stood against each refused one; the stops, with the letters that
/// led to each; the notes of events; the letters that no event received; the values of the objects.
/// To the byte it is the text that `explained` gives of the run.
pub fn explain_text(
    alloc: Global,
    source: &Lines<'_>,
    script: &Script,
    run: &RunRecord,
    scope: &Scope,
) -> Result<String, NoMemory>
    ensures { IfOk result (λ text. IsWhole (reverse run.now.trace)
        → string_bytes text ≡ explained source.now script.now scope.now run.now) }
{
    let course = course_of(alloc, &scope.events, &run.trace)?;
    let deeds = deeds_of(alloc, &run.trace)?;
    let mut text = actions_of(alloc, script, scope, &course, &deeds)?;
    add_marks(alloc, source, script, scope, &course, run, &mut text)?;
    add_stops(alloc, scope, run, &mut text)?;
    add_notes(alloc, scope, run, &mut text)?;
    add_values(alloc, script, &deeds, &mut text)?;
    Ok(text)
}
