//! What stands after some lines of a script.
ghost use Rattle.std.specs.Prelude.{◌≡◌, ◌≤◌, ◌+◌, length, min, IsTrue, OnOk, Result};
ghost use Rattle.cam_words.specs.Numbers.{is_name};
ghost use Rattle.cam_script.specs.SoFar.{nothing, step_cost, with_nodes, with_object, with_variable_at, with_step, with_binding_step};
ghost use Rattle.cam_script.specs.Grammar.{read_end};

use crate::body_table::{BodyTable, Writing};
use crate::name_table::NameTable;
use crate::variables::{Bound, Variables};
use crate::{Act, Binding, Script, Step, Steps};
use cam_base::NoMemory;
use cam_type::{ObjectDecl, Objects};
use cam_words::{Cause, Label, ScriptFault};
use std::alloc::Global;
use std::marker::Model;

/// What is declared so far, the steps so far and what they cost, and the body that is being written: what a parser of this language, or of
/// one that shares its lines, keeps.
#[derive(Drop)]
pub struct SoFar {
    /// 0 until `nodes` was read.
    pub(crate) nodes: u8,
    pub(crate) objects: Objects,
    pub(crate) labels: NameTable,
    pub(crate) bodies: BodyTable,
    pub(crate) steps: Steps,
    pub(crate) variables: Variables,
    /// The steps spent, with the costs of bodies.
    pub(crate) spent: u32,
    pub(crate) writing: Option<Writing>,
}

impl Model for SoFar {
    ghost use Rattle.cam_script.specs.SoFar.{SoFar as Seen};

    ghost Value = { Seen };

    ghost view = { λ d. record {
      script = record {
        nodes = d.nodes;
        objects = d.objects;
        labels = d.labels;
        bodies = d.bodies.bodies;
        steps = d.steps;
      };
      body_names = d.bodies.names;
      sizes = d.bodies.sizes;
      variables = d.variables;
      spent = d.spent;
      writing = d.writing;
    } };
}

impl SoFar {
    /// Nothing.
    pub fn new(alloc: Global) -> SoFar
        ensures { result ≡ nothing }
    {
        SoFar {
            nodes: 0,
            objects: Objects::new(alloc),
            labels: NameTable::new(alloc),
            bodies: BodyTable::new(alloc),
            steps: Steps::new(alloc),
            variables: Variables::new(alloc),
            spent: 0,
            writing: None,
        }
    }

    /// After `nodes N`.
    pub fn set_nodes(&mut self, nodes: u8)
        ensures { self.new ≡ with_nodes self.old nodes }
    {
        self.nodes = nodes;
    }

    /// After an object of this name.
    pub fn push_object(&mut self, name: &[u8], object: ObjectDecl) -> Result<(), NoMemory>
        requires { IsTrue (is_name name.now) }
        ensures { OnOk result (self.new ≡ with_object self.old name.now object) }
    {
        let label = Label::of_word(self.labels.allocator(), name)?;
        self.objects.push(object)?;
        self.labels.push(label)?;
        Ok(())
    }

    /// A variable of this name for the step at this place.
    pub fn push_variable(
        &mut self,
        name: &[u8],
        step: u32,
        binding: Binding,
    ) -> Result<(), NoMemory>
        requires { IsTrue (is_name name.now) }
        ensures { OnOk result (self.new ≡ with_variable_at self.old name.now step binding) }
    {
        let name = Label::of_word(self.labels.allocator(), name)?;
        self.variables.push(name, Bound { step, binding })
    }

    /// After a step that binds the variable of this name, in the line of this number.
    pub fn push_binding(
        &mut self,
        line: u32,
        name: &[u8],
        binding: Binding,
        act: Act,
    ) -> Result<(), NoMemory>
        requires name { IsTrue (is_name name.now) }
        requires steps { length self.old.script.steps ≤ 512 }
        requires room { self.old.spent + step_cost self.old.sizes act ≤ 512 }
        ensures { OnOk result (self.new ≡ with_binding_step self.old line name.now binding act) }
    {
        let step = self.steps.len() as u32;
        self.push_variable(name, step, binding)?;
        self.push_step(line, act)
    }

    /// After a step in the line of this number.
    pub fn push_step(&mut self, line: u32, act: Act) -> Result<(), NoMemory>
        requires { self.old.spent + step_cost self.old.sizes act ≤ 512 }
        ensures { OnOk result (self.new ≡ with_step self.old line act) }
    {
        let cost = self.step_cost(act);
        self.steps.push_copy(&Step { line, act })?;
        self.spent += cost;
        Ok(())
    }

    /// What a step costs, up to what is too much for every script.
    fn step_cost(&self, act: Act) -> u32
        ensures { result ≡ min (step_cost self.now.sizes act) 514 }
    {
        match act {
            Act::Start { node: _, body } => 1 + self.bodies.size_at(body as usize).cost,
            _ => 1,
        }
    }

    /// The script, where the line of this number is the one after the last.
    pub fn into_script(self, line: u32) -> Result<Script, ScriptFault>
        ensures { result ≡ read_end self line }
    {
        let SoFar {
            nodes,
            objects,
            labels,
            bodies,
            steps,
            variables: _,
            spent: _,
            writing,
        } = self;
        if writing.is_some() || nodes == 0 {
            return Err(ScriptFault::Bad {
                line,
                column: 1,
                cause: Cause::Misplaced,
            });
        }
        let labels = labels.into_labels();
        let bodies = bodies.into_bodies();
        Ok(Script {
            nodes,
            objects,
            labels,
            bodies,
            steps,
        })
    }
}
