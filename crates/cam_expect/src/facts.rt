//! The lines to which a run comes.
use crate::actions::write_facts_of_actions;
use crate::refused::write_facts_of_marks;
use cam_base::NoMemory;
use cam_event::RunRecord;
use cam_report::{deeds_of, write_values};
use cam_scope::Scope;
use cam_script::Script;
use std::alloc::Global;
use std::collections::BTreeSet;

/// The lines to which a run comes, as they may be expected.
pub type Facts = BTreeSet<String>;

/// Adds the lines of a text.
fn add_lines(alloc: Global, facts: &mut Facts, text: &str) -> Result<(), NoMemory> {
    for line in text.lines() {
        facts.insert(String::from_str(alloc, line)?)?;
    }
    Ok(())
}

/// The lines to which a run comes: the value of each object, how each action ended and what it saw,
/// which actions were stopped, and which lines were refused, were cut or halted a node.
pub fn facts_of(
    alloc: Global,
    script: &Script,
    run: &RunRecord,
    scope: &Scope,
) -> Result<Facts, NoMemory> {
    let mut text = String::new(alloc);
    let deeds = deeds_of(alloc, &run.trace)?;
    write_values(alloc, script, &deeds, &mut text)?;
    write_facts_of_actions(alloc, script, run, scope, &mut text)?;
    write_facts_of_marks(&run.marks, &mut text)?;
    let mut facts = Facts::new(alloc);
    add_lines(alloc, &mut facts, &text)?;
    Ok(facts)
}
