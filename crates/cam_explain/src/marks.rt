//! The marks of a run in words: letters that were cut, nodes that halted, and lines that were
//! refused.
ghost use Rattle.std.specs.Prelude.{◌≡◌, ◌++◌, OnOk, codes, string_bytes};
ghost use Rattle.std.specs.Option.{option_copied};
ghost use Rattle.cam_sentences.specs.Sentences.{fault_text};
ghost use Rattle.cam_explain.specs.Moments.{told_in};
ghost use Rattle.cam_explain.specs.Marks.{act_in, cut_text, halt_text, mark_text, marks_text, refused_act, refused_line, refused_text, taken_text};

use crate::acts::pointed_by;
use crate::course::Course;
use crate::pointer::write_pointed;
use crate::reasons::write_against;
use crate::texts::{say, say_number};
use cam_base::NoMemory;
use cam_event::{LetterFault, LineRefusal, Mark, Marks};
use cam_scope::{Lines, Scope, column};
use cam_script::{Act, Script, Step};
use cam_sentences::{fault_sentence, refusal_label, refusal_sentence};
use std::alloc::Global;

/// The act of the step in a line, if it has one.
fn act_in(steps: &[Step], line: u32) -> Option<&Act>
    ensures { option_copied result ≡ act_in steps.now line }
{
    for step in steps {
        if step.line == line {
            return Some(&step.act);
        }
    }
    None
}

/// Appends a refused line with a caret at its word, the rule, and what stood against it.
fn write_refused_act(
    alloc: Global,
    source: &Lines<'_>,
    script: &Script,
    scope: &Scope,
    course: &Course,
    number: u32,
    refusal: LineRefusal,
    act: &Act,
    out: &mut String,
) -> Result<(), NoMemory>
    ensures { OnOk result (string_bytes out.new ≡ string_bytes out.old
        ++ refused_act source.now script.now scope.now (told_in course.now) number refusal
        act.now) }
{
    let line = source.line(number);
    write_pointed(alloc, line, column(line, pointed_by(act, refusal)), out)?;
    say(out, "  ", refusal_label(refusal), ": ")?;
    out.push_str(refusal_sentence(refusal))?;
    out.push_str("\n")?;
    write_against(alloc, script, scope, course, number, act, refusal, out)
}

/// Appends that a line is refused, and why.
fn write_refused_line(
    alloc: Global,
    source: &Lines<'_>,
    script: &Script,
    scope: &Scope,
    course: &Course,
    line: u32,
    refusal: LineRefusal,
    act: &Act,
    out: &mut String,
) -> Result<(), NoMemory>
    ensures { OnOk result (string_bytes out.new ≡ string_bytes out.old
        ++ refused_line source.now script.now scope.now (told_in course.now) line refusal
        act.now) }
{
    say_number(out, "line ", line as u64, " is refused:\n")?;
    write_refused_act(
        alloc, source, script, scope, course, line, refusal, act, out,
    )?;
    Ok(())
}

/// Appends a refused line, if the script has it.
fn write_refused(
    alloc: Global,
    source: &Lines<'_>,
    script: &Script,
    scope: &Scope,
    course: &Course,
    line: u32,
    refusal: LineRefusal,
    out: &mut String,
) -> Result<(), NoMemory>
    ensures { OnOk result (string_bytes out.new ≡ string_bytes out.old
        ++ refused_text source.now script.now scope.now (told_in course.now) line refusal
        (act_in script.now.steps line)) }
{
    match act_in(script.steps.as_slice(), line) {
        Some(act) => {
            write_refused_line(
                alloc, source, script, scope, course, line, refusal, act, out,
            )
        }
        None => Ok(()),
    }
}

/// Whether the event of a halt stands.
fn taken_text(taken: bool) -> &'static str
    ensures { result.now ≡ taken_text taken }
{
    if taken {
        "The entry had reached its log, so its event stands.\n"
    } else {
        "The entry did not reach its log, so there is no event.\n"
    }
}

/// Appends that a letter comes cut short.
fn write_cut(
    line: u32,
    letter: u32,
    fault: LetterFault,
    at: u64,
    out: &mut String,
) -> Result<(), NoMemory>
    ensures { OnOk result (string_bytes out.new ≡ string_bytes out.old
        ++ cut_text line letter fault at) }
{
    say_number(out, "line ", line as u64, ": letter ")?;
    let behind = " comes cut short, and cannot be read at byte ";
    say_number(out, "", letter as u64, behind)?;
    say_number(out, "", at, ". ")?;
    say_fault(fault, out)?;
    Ok(())
}

/// Appends why a letter cannot be read.
fn say_fault(fault: LetterFault, out: &mut String) -> Result<(), NoMemory>
    ensures { OnOk result (string_bytes out.new ≡ string_bytes out.old
        ++ (fault_text fault ++ codes "\n")) }
{
    out.push_str(fault_sentence(fault))?;
    Ok(out.push_str("\n")?)
}

/// Appends whether the event of a halt stands.
fn say_taken(taken: bool, out: &mut String) -> Result<(), NoMemory>
    ensures { OnOk result (string_bytes out.new ≡ string_bytes out.old ++ taken_text taken) }
{
    Ok(out.push_str(taken_text(taken))?)
}

/// Appends that a node halts.
fn write_halt(line: u32, node: u8, taken: bool, out: &mut String) -> Result<(), NoMemory>
    ensures { OnOk result (string_bytes out.new ≡ string_bytes out.old
        ++ halt_text line node taken) }
{
    say_number(out, "line ", line as u64, ": node ")?;
    say_number(out, "", node as u64, " halts, since its disk was stopped. ")?;
    say_taken(taken, out)?;
    Ok(())
}

/// Appends a mark.
fn write_mark(
    alloc: Global,
    source: &Lines<'_>,
    script: &Script,
    scope: &Scope,
    course: &Course,
    mark: &Mark,
    out: &mut String,
) -> Result<(), NoMemory>
    ensures { OnOk result (string_bytes out.new ≡ string_bytes out.old
        ++ mark_text source.now script.now scope.now (told_in course.now) mark.now) }
{
    match mark {
        Mark::Refused { line, refusal } => {
            write_refused(alloc, source, script, scope, course, *line, *refusal, out)
        }
        Mark::Cut {
            line,
            letter,
            fault,
            at,
        } => write_cut(*line, *letter, *fault, *at, out),
        Mark::Halted { line, node, taken } => write_halt(*line, *node, *taken, out),
    }
}

/// Appends the marks, in order of lines.
pub(crate) fn write_marks(
    alloc: Global,
    source: &Lines<'_>,
    script: &Script,
    scope: &Scope,
    course: &Course,
    marks: &Marks,
    out: &mut String,
) -> Result<(), NoMemory>
    ensures { OnOk result (string_bytes out.new ≡ string_bytes out.old
        ++ marks_text source.now script.now scope.now (told_in course.now) marks.now) }
{
    for mark in marks.as_slice() {
        write_mark(alloc, source, script, scope, course, mark, out)?;
    }
    Ok(())
}
