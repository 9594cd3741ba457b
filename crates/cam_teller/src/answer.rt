//! The answer to a question by the bytes of a script.
ghost use Rattle.cam_script.specs.Law.{IsScript};

use crate::comparing::ScriptFile;
use crate::orders::ordered;
use crate::picture::drawn;
use crate::smallest::shrunk;
use crate::sweeping::swept;
use crate::told::{Status, Told};
use cam_base::NoMemory;
use cam_columns::{columns_text, rows_of};
use cam_event::RunRecord;
use cam_expect::{check, expectations_of, facts_of, findings_text};
use cam_explain::{explain_text, fault_text};
use cam_scope::{Lines, Scope, scope_of};
use cam_scope_args::Question;
use cam_script::{Script, ScriptFault, parse};
use cam_shiviz::shiviz_text;
use cam_whatif::record_of;
use std::alloc::Global;

/// What is told where the script runs to its end.
fn fine(text: String) -> Told {
    Told {
        text,
        status: Status::Fine,
    }
}

/// How the run keeps the expectations of the script.
fn checked(
    alloc: Global,
    file: &str,
    source: &Lines<'_>,
    script: &Script,
    run: &RunRecord,
    scope: &Scope,
) -> Result<Told, NoMemory> {
    let facts = facts_of(alloc, script, run, scope)?;
    let expectations = expectations_of(alloc, source)?;
    let findings = check(alloc, &facts, &expectations, &run.marks)?;
    let status = if findings.is_empty() {
        Status::Fine
    } else {
        Status::Finding
    };
    Ok(Told {
        text: findings_text(alloc, file, &findings)?,
        status,
    })
}

/// What is told where one script alone is to be compared.
fn compared(alloc: Global, file: &str) -> Result<Told, NoMemory> {
    let mut text = String::new(alloc);
    text.push_str(file)?;
    text.push_str(": compare takes two scripts.\n")?;
    Ok(Told {
        text,
        status: Status::Finding,
    })
}

/// What is told of a run.
fn of_run(
    alloc: Global,
    question: Question<'_>,
    file: &str,
    bytes: &[u8],
    source: &Lines<'_>,
    script: &Script,
    run: &RunRecord,
) -> Result<Told, NoMemory> {
    let scope = scope_of(alloc, source, script, run)?;
    match question {
        Question::Explain => Ok(fine(explain_text(alloc, source, script, run, &scope)?)),
        Question::Columns => {
            let rows = rows_of(alloc, script, run, &scope)?;
            Ok(fine(columns_text(alloc, script.nodes, &rows)?))
        }
        Question::Draw(lit) => drawn(alloc, lit, file, script, run, &scope),
        Question::Shiviz => Ok(fine(shiviz_text(alloc, script, run, &scope)?)),
        Question::Check => checked(alloc, file, source, script, run, &scope),
        Question::Shrink(line) => shrunk(alloc, file, bytes, line),
        Question::Orders => ordered(alloc, file, source, script),
        Question::Sweep(options) => swept(alloc, file, bytes, source, script, run, options),
        Question::Compare => compared(alloc, file),
    }
}

/// What is told of a script that is accepted.
fn of_script(
    alloc: Global,
    question: Question<'_>,
    file: &str,
    bytes: &[u8],
    source: &Lines<'_>,
    script: &Script,
) -> Result<Told, NoMemory>
    requires { IsScript script.now }
{
    let run = record_of(alloc, script)?;
    of_run(alloc, question, file, bytes, source, script, &run)
}

/// What is told of a script that is refused.
pub(crate) fn refused(
    alloc: Global,
    source: &ScriptFile<'_>,
    fault: ScriptFault,
) -> Result<Told, NoMemory> {
    match fault {
        ScriptFault::Bad {
            line,
            column,
            cause,
        } => {
            let lines = Lines::of(alloc, source.bytes)?;
            Ok(Told {
                text: fault_text(alloc, source.name, &lines, line, column, cause)?,
                status: Status::Finding,
            })
        }
        ScriptFault::NoMemory => Err(NoMemory),
    }
}

/// What is told of the bytes of a script, which stand in a file of this name. A script that is
/// refused is told of as a finding.
pub fn tell(
    alloc: Global,
    question: Question<'_>,
    file: &str,
    bytes: &[u8],
) -> Result<Told, NoMemory> {
    let source = Lines::of(alloc, bytes)?;
    match parse(alloc, bytes) {
        Ok(script) => of_script(alloc, question, file, bytes, &source, &script),
        Err(fault) => refused(alloc, &ScriptFile { name: file, bytes }, fault),
    }
}
