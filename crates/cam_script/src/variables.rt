//! Variables: the steps that bind them, and where they may be used.
ghost use Rattle.std.specs.Prelude.{◌≡◌, ◌≤◌, [], ◌∷◌, ◌++◌, length, option_map, Ok, Err, IfOk, OnOk, OnErr};
ghost use Rattle.cam_words.specs.Words.{IsFurther};
ghost use Rattle.cam_script.specs.SoFar.{variable_names};
ghost use Rattle.cam_script.specs.Variables.{against, variable_of, variable_at};
ghost use Rattle.cam_script.specs.VariableTable.{bound_of, named};

use crate::name_table::NameTable;
use crate::{Binding, Use};
use cam_base::NoMemory;
use cam_words::{Cause, Label, Line, ScriptFault};
use std::alloc::Global;
use std::marker::Model;

/// What a variable stands for: the place of the step that binds it, and the kind of that line.
#[derive(Clone, Copy)]
pub(crate) struct Bound {
    pub step: u32,
    pub binding: Binding,
}

/// The variables, in order of the steps that bind them.
#[derive(Drop)]
pub(crate) struct Variables {
    names: NameTable,
    bound: Vec<Bound>,
}

impl Model for Variables {
    ghost use Rattle.std.specs.Prelude.{◌≡◌, List, length};
    ghost use Rattle.cam_script.specs.SoFar.{Variable};
    ghost use Rattle.cam_script.specs.VariableTable.{all_named};

    ghost Value = { List Variable };

    ghost view = { λ v. all_named v.names v.bound.items };

    ghost invariant = { λ v. length v.names ≡ length v.bound.items };
}

impl Variables {
    /// No variable. It takes no memory.
    pub fn new(alloc: Global) -> Variables
        ensures { result ≡ [] }
    {
        Variables {
            names: NameTable::new(alloc),
            bound: Vec::new(alloc),
        }
    }

    /// Their names.
    pub fn names(&self) -> &NameTable
        ensures { result.now ≡ variable_names self.now }
    {
        &self.names
    }

    /// What the variable of this name stands for.
    fn find(&self, name: &[u8]) -> Option<Bound>
        ensures { result ≡ option_map bound_of (variable_of self.now name.now) }
    {
        let place = self.names.place_of(name)?;
        self.bound.get(place).copied()
    }

    /// Adds a variable of this name.
    pub fn push(&mut self, name: Label, bound: Bound) -> Result<(), NoMemory>
        ensures ok { OnOk result (self.new ≡ self.old ++ named name bound ∷ []) }
        ensures err { OnErr result (self.new ≡ self.old) }
    {
        self.bound.reserve(1)?;
        self.names.push(name)?;
        self.bound.push_reserved(bound);
        Ok(())
    }
}

/// The step of a variable that may be used so, and the place after its word.
#[tactic(auto, unfolding(crate::specs::Variables::variable_at))]
pub(crate) fn variable_at(
    line: &Line,
    at: usize,
    variables: &Variables,
    used: Use,
) -> Result<(u32, usize), ScriptFault>
    requires { at ≤ length line.now.bytes.now }
    ensures value { result ≡ variable_at used variables.now line.now.number at line.now.bytes.now }
    ensures end { IfOk result (λ read. IsFurther at line.now.bytes.now read.1) }
{
    let word = line.word_at(at)?;
    match variables.find(line.text(word)) {
        None => Err(line.fault(word.start, Cause::Undeclared)),
        Some(bound) => match against(used, bound.binding) {
            None => Ok((bound.step, word.end)),
            Some(cause) => Err(line.fault(word.start, cause)),
        },
    }
}

/// What stands against such a use of a variable that is bound so.
fn against(used: Use, binding: Binding) -> Option<Cause>
    ensures { result ≡ against used binding }
{
    match (used, binding) {
        (Use::Request, Binding::Start) => Some(Cause::Misplaced),
        (Use::Request, _) => None,
        (Use::Go, Binding::Start) => None,
        (Use::Go, _) => Some(Cause::Misplaced),
        (Use::Query, _) => None,
        (Use::Begun, Binding::Begin) => None,
        (Use::Begun, _) => Some(Cause::Misplaced),
    }
}
