//! What is said of the lines that left marks.
use cam_base::NoMemory;
use cam_event::{Mark, Marks};
use cam_scope::push_number;
use cam_sentences::refusal_label;

/// Appends `line 12` and what became of it.
fn write_line(line: u32, became: &[&str], out: &mut String) -> Result<(), NoMemory> {
    out.push_str("line ")?;
    push_number(out, u64::from(line))?;
    for part in became {
        out.push_str(part)?;
    }
    Ok(out.push_str("\n")?)
}

/// Appends what is said of a mark.
fn write_mark(mark: &Mark, out: &mut String) -> Result<(), NoMemory> {
    match mark {
        Mark::Refused { line, refusal } => {
            write_line(*line, &[" refused"], out)?;
            write_line(*line, &[" refused ", refusal_label(*refusal)], out)
        }
        Mark::Cut { line, .. } => write_line(*line, &[" cut"], out),
        Mark::Halted { line, taken, .. } => {
            write_line(*line, &[" halted"], out)?;
            write_line(
                *line,
                &[if *taken {
                    " halted taken"
                } else {
                    " halted lost"
                }],
                out,
            )
        }
    }
}

/// Appends what is said of the lines that left marks.
pub(crate) fn write_facts_of_marks(marks: &Marks, out: &mut String) -> Result<(), NoMemory> {
    for mark in marks.as_slice() {
        write_mark(mark, out)?;
    }
    Ok(())
}
