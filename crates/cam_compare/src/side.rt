//! Two runs, side by side.
use crate::events::{first_difference, write_event};
use crate::facts::write_alone;
use cam_base::NoMemory;
use cam_event::RunRecord;
use cam_expect::{Facts, facts_of};
use cam_scope::{Lines, Scope, push_number, scope_of};
use cam_script::Script;
use std::alloc::Global;

/// A script with its run, by names.
#[derive(Drop)]
pub struct Side<'a> {
    pub(crate) script: &'a Script,
    pub(crate) run: &'a RunRecord,
    pub(crate) scope: Scope,
    facts: Facts,
}

impl<'a> Side<'a> {
    /// A script with its run.
    pub fn of(
        alloc: Global,
        source: &Lines<'_>,
        script: &'a Script,
        run: &'a RunRecord,
    ) -> Result<Side<'a>, NoMemory> {
        let scope = scope_of(alloc, source, script, run)?;
        let facts = facts_of(alloc, script, run, &scope)?;
        Ok(Side {
            script,
            run,
            scope,
            facts,
        })
    }
}

/// Appends at which event two runs differ first.
fn write_first(
    alloc: Global,
    a: &Side<'_>,
    b: &Side<'_>,
    out: &mut String,
) -> Result<bool, NoMemory> {
    let Some(number) = first_difference(&a.run.trace, &b.run.trace) else {
        out.push_str("The events are the same.\n")?;
        return Ok(false);
    };
    out.push_str("The runs differ from event ")?;
    push_number(out, number as u64)?;
    out.push_str(" on:\n")?;
    write_event(alloc, "  A: ", a, number, out)?;
    write_event(alloc, "  B: ", b, number, out)?;
    Ok(true)
}

/// In what two runs differ, and whether they do.
pub fn compare_text(alloc: Global, a: &Side<'_>, b: &Side<'_>) -> Result<(String, bool), NoMemory> {
    let mut out = String::new(alloc);
    let mut alone = String::new(alloc);
    let differs = write_first(alloc, a, b, &mut out)?;
    write_alone("  A: ", &a.facts, &b.facts, &mut alone)?;
    write_alone("  B: ", &b.facts, &a.facts, &mut alone)?;
    if alone.is_empty() {
        out.push_str("All facts are the same.\n")?;
        return Ok((out, differs));
    }
    out.push_str("Only one of them has these facts:\n")?;
    out.push_str(alone.as_str())?;
    Ok((out, true))
}
