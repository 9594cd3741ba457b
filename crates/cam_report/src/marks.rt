//! Refused, cut and halted lines.
ghost use Rattle.std.specs.Prelude.{◌≡◌, ◌++◌, OnOk, string_bytes};
ghost use Rattle.std.specs.List.{flat_map};
ghost use Rattle.cam_report.specs.Report.{refusal_number, fault_word, taken_word, mark_text};

use cam_base::NoMemory;
use cam_event::{LetterFault, LineRefusal, Mark, Marks};
use std::fmt::Write;

/// The number by which a refusal is shown.
fn refusal_number(refusal: LineRefusal) -> u8
    ensures { result ≡ refusal_number refusal }
{
    match refusal {
        LineRefusal::Unbound => 1,
        LineRefusal::NoLetter => 2,
        LineRefusal::Halted => 3,
        LineRefusal::Ended => 4,
        LineRefusal::OpenCall => 5,
        LineRefusal::OpenChild => 6,
        LineRefusal::NotOpen => 7,
        LineRefusal::TooDeep => 8,
        LineRefusal::NothingToDo => 9,
    }
}

/// The word for a letter's fault.
fn fault_word(fault: LetterFault) -> &'static str
    ensures { result.now ≡ fault_word fault }
{
    match fault {
        LetterFault::Short => "short",
        LetterFault::Tag => "tag",
        LetterFault::Number => "number",
        LetterFault::Order => "order",
        LetterFault::Rest => "rest",
    }
}

/// The word for whether the step of a halt was taken.
fn taken_word(taken: bool) -> &'static str
    ensures { result.now ≡ taken_word taken }
{
    if taken { "taken" } else { "lost" }
}

/// Appends a mark's line.
pub fn write_mark(mark: &Mark, out: &mut String) -> Result<(), NoMemory>
    ensures { OnOk result (string_bytes out.new ≡ string_bytes out.old ++ mark_text mark.now) }
{
    match mark {
        Mark::Refused { line, refusal } => {
            writeln!(out, "refused {line} L{}", refusal_number(*refusal))?;
        }
        Mark::Cut {
            line,
            letter,
            fault,
            at,
        } => {
            writeln!(out, "cut {line} {letter} {} {at}", fault_word(*fault))?;
        }
        Mark::Halted { line, node, taken } => {
            writeln!(out, "halted {line} {node} {}", taken_word(*taken))?;
        }
    }
    Ok(())
}

/// Appends the line of each mark, in order.
pub(crate) fn write_marks(marks: &Marks, out: &mut String) -> Result<(), NoMemory>
    ensures { OnOk result (string_bytes out.new ≡ string_bytes out.old
        ++ flat_map mark_text marks.now) }
{
    for mark in marks.as_slice() {
        write_mark(mark, out)?;
    }
    Ok(())
}
