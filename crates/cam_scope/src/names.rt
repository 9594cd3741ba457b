//! The words by which a script knows the actions of its run.
ghost use Rattle.std.specs.Prelude.{◌≡◌, ◌++◌, OnOk, drop, string_bytes};
ghost use Rattle.std.specs.List.{flat_map};
ghost use Rattle.cam_scope.specs.Words.{bound_line, name_word, place_text, word_from};

use crate::numbers::push_number;
use cam_base::NoMemory;
use cam_event::{Deed, Trace};
use cam_names::Name;
use cam_words::Label;
use std::alloc::Global;
use std::collections::BTreeMap;

/// What a line calls an action.
#[derive(Drop)]
pub(crate) struct Variable {
    pub(crate) label: Label,
    pub(crate) line: u32,
}

/// The variables of a script, by the actions for which they stand.
pub(crate) type Variables = BTreeMap<Name, Variable>;

/// The actions of a run with the words by which its script knows them: a variable, `T`; or, where a
/// body asked for it, the parent's word and the child's place among the parent's children, `T/2`.
#[derive(Drop)]
pub struct Names {
    variables: Variables,
    actions: BTreeMap<String, Name>,
}

impl Names {
    /// The names of all actions that are asked for or created in the trace.
    pub(crate) fn of(
        alloc: Global,
        variables: Variables,
        trace: &Trace,
    ) -> Result<Names, NoMemory> {
        let mut names = Names {
            variables,
            actions: BTreeMap::new(alloc),
        };
        for event in trace.as_slice() {
            for deed in event.deeds.as_slice() {
                names.note(alloc, deed)?;
            }
        }
        Ok(names)
    }

    /// Notes the action that a deed creates or asks for.
    fn note(&mut self, alloc: Global, deed: &Deed) -> Result<(), NoMemory> {
        match deed {
            Deed::Create { action } => self.note_action(alloc, action),
            Deed::Ask { child, .. } => self.note_action(alloc, child),
            _ => Ok(()),
        }
    }

    /// Notes an action under its word.
    fn note_action(&mut self, alloc: Global, action: &Name) -> Result<(), NoMemory> {
        let mut word = String::new(alloc);
        self.write_name(alloc, action, &mut word)?;
        self.actions.insert(word, *action)?;
        Ok(())
    }

    /// Appends the word of an action. An action that the script cannot name is written as the
    /// report writes it.
    pub fn write_name(&self, alloc: Global, action: &Name, out: &mut String) -> Result<(), NoMemory>
        ensures { OnOk result (string_bytes out.new ≡ string_bytes out.old
            ++ name_word self.now action.now) }
    {
        write_from(alloc, &self.variables, action.depth(), action, action, out)
    }

    /// The line whose variable the action is, if one is.
    pub fn line(&self, action: &Name) -> Option<u32>
        ensures { result ≡ bound_line self.now action.now }
    {
        match self.variables.get(action) {
            Some(variable) => Some(variable.line),
            None => None,
        }
    }

    /// The action of a word, `T` or `T/2`, if the run has one.
    pub fn action(&self, word: &str) -> Option<Name> {
        self.actions.get(word).copied()
    }
}

/// Appends the word of an action by this ancestor of it or one above, so many levels up at most.
fn write_from(
    alloc: Global,
    variables: &Variables,
    levels: usize,
    ancestor: &Name,
    action: &Name,
    out: &mut String,
) -> Result<(), NoMemory>
    ensures { OnOk result (string_bytes out.new ≡ string_bytes out.old
        ++ word_from variables.now levels ancestor.now action.now) }
{
    if levels == 0 {
        return action.write_text(alloc, out);
    }
    if let Some(variable) = variables.get(ancestor) {
        out.push_str(variable.label.as_str())?;
        return write_places(ancestor.depth(), action, out);
    }
    match ancestor.parent() {
        Some(parent) => write_from(alloc, variables, levels - 1, &parent, action, out),
        None => action.write_text(alloc, out),
    }
}

/// Appends the places of the children on the way to an action from its ancestor of this depth.
fn write_places(depth: usize, action: &Name, out: &mut String) -> Result<(), NoMemory>
    ensures { OnOk result (string_bytes out.new ≡ string_bytes out.old
        ++ flat_map place_text (drop depth action.now)) }
{
    if let Some(below) = action.parts().get(depth..) {
        for part in below {
            out.push_str("/")?;
            push_number(out, u64::from(part.number))?;
        }
    }
    Ok(())
}
