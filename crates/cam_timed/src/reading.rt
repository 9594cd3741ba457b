//! What the parser keeps after some lines of a script by time.
ghost use Rattle.std.specs.Prelude.{◌≡◌, ◌≤◌, ◌<◌, length, None, IsTrue, IsFalse, OnOk, Ok, Err};
ghost use Rattle.cam_words.specs.Numbers.{is_name};
ghost use Rattle.cam_script.specs.Parse.{Leads, IsWithin};
ghost use Rattle.cam_timed.specs.TimedGrammar.{timed_nothing, timed_section, is_timed_full, with_timed, with_bound, read_form, with_first_word, read_timed_line, read_timed_end};

use crate::forms::{TimedForm, form_of, may_stand};
use crate::lines::{act_line, ask_line, begin_line};
use crate::{TimedAct, TimedScript, TimedStep, TimedSteps};
use cam_base::NoMemory;
use cam_script::{Binding, Form, Section, SoFar, begins_with_hash};
use cam_words::{Cause, Line, ScriptFault, Word, bad_byte};
use std::alloc::Global;

/// The most steps of a script.
const MOST_STEPS: usize = 512;

/// What is declared so far, with the variables and without steps, and the steps so far.
#[derive(Drop)]
pub(crate) struct TimedSoFar {
    pub declared: SoFar,
    pub steps: TimedSteps,
}

impl TimedSoFar {
    /// Nothing.
    pub fn new(alloc: Global) -> TimedSoFar
        ensures { result ≡ timed_nothing }
    {
        TimedSoFar {
            declared: SoFar::new(alloc),
            steps: TimedSteps::new(alloc),
        }
    }

    /// Where the next line comes.
    fn section(&self) -> Section
        ensures { result ≡ timed_section self.now }
    {
        if self.steps.is_empty() {
            self.declared.section()
        } else {
            Section::AtSteps
        }
    }

    /// Whether a line of this form is one too many.
    fn is_full(&self, form: TimedForm, line: &Line, at: usize) -> bool
        requires within { IsWithin self.now.declared }
        requires place { at ≤ length line.now.bytes.now }
        ensures { result ≡ is_timed_full self.now form at line.now.bytes.now }
    {
        match form {
            TimedForm::Nodes => false,
            TimedForm::Object => self.declared.is_full(Form::Object, line, at),
            _ => self.steps.len() >= MOST_STEPS,
        }
    }

    /// After a step in the line of this number.
    fn push_step(&mut self, line: u32, act: TimedAct) -> Result<(), NoMemory>
        ensures { OnOk result (self.new ≡ with_timed self.old line act) }
    {
        self.steps.push_copy(&TimedStep { line, act })
    }

    /// After a step that binds the variable of this name, in the line of this number.
    fn push_binding(
        &mut self,
        line: u32,
        name: &[u8],
        binding: Binding,
        act: TimedAct,
    ) -> Result<(), NoMemory>
        requires name { IsTrue (is_name name.now) }
        requires room { length self.old.steps ≤ 512 }
        ensures { OnOk result (self.new ≡ with_bound self.old line name.now binding act) }
    {
        let step = self.steps.len() as u32;
        self.declared.push_variable(name, step, binding)?;
        self.push_step(line, act)
    }

    /// Reads a line.
    #[tactic(auto, unfolding(crate::specs::TimedGrammar::read_timed_line))]
    pub fn read_line(&mut self, line: &Line) -> Result<(), ScriptFault>
        requires within { IsWithin self.old.declared }
        requires outside { self.old.declared.writing ≡ None }
        requires room { length self.old.steps ≤ 512 }
        ensures { Leads result self.new (read_timed_line self.old line.now.number line.now.bytes.now) }
    {
        if let Some(at) = bad_byte(line.bytes) {
            return Err(line.fault(at, Cause::ByteNotAllowed));
        }
        let first = line.next_word(0);
        if first.is_missing() || begins_with_hash(line.text(first)) {
            return Ok(());
        }
        self.with_first_word(line, first)
    }

    /// Reads a line that begins with this word.
    #[tactic(auto, unfolding(crate::specs::TimedGrammar::with_first_word))]
    fn with_first_word(&mut self, line: &Line, first: Word) -> Result<(), ScriptFault>
        requires within { IsWithin self.old.declared }
        requires outside { self.old.declared.writing ≡ None }
        requires room { length self.old.steps ≤ 512 }
        requires start { first.start ≤ first.end }
        requires end { first.end ≤ length line.now.bytes.now }
        ensures { Leads result self.new
            (with_first_word self.old line.now.number first line.now.bytes.now) }
    {
        let Some(form) = form_of(line.text(first)) else {
            return Err(line.fault(first.start, Cause::UnknownWord));
        };
        if !may_stand(self.section(), form) {
            return Err(line.fault(first.start, Cause::Misplaced));
        }
        if self.is_full(form, line, first.end) {
            return Err(line.fault(first.start, Cause::TooMany));
        }
        self.read_form(form, line, first.end)
    }

    /// Reads a line of this form, after its first word.
    fn read_form(&mut self, form: TimedForm, line: &Line, at: usize) -> Result<(), ScriptFault>
        requires within { IsWithin self.old.declared }
        requires outside { self.old.declared.writing ≡ None }
        requires room { length self.old.steps ≤ 512 }
        requires full { IsFalse (is_timed_full self.old form at line.now.bytes.now) }
        requires place { at ≤ length line.now.bytes.now }
        ensures { Leads result self.new
            (read_form self.old form line.now.number at line.now.bytes.now) }
    {
        match form {
            TimedForm::Nodes => { self.declared.read_outside(Form::Nodes, line, at) }
            TimedForm::Object => { self.declared.read_outside(Form::Object, line, at) }
            TimedForm::Begin => {
                let (name, act) = begin_line(&self.declared, line, at)?;
                self.push_binding(line.number, line.text(name), Binding::Begin, act)?;
                Ok(())
            }
            TimedForm::Ask => {
                let (name, act) = ask_line(&self.declared, line, at)?;
                self.push_binding(line.number, line.text(name), Binding::Ask, act)?;
                Ok(())
            }
            _ => {
                let act = act_line(&self.declared, form, line, at)?;
                self.push_step(line.number, act)?;
                Ok(())
            }
        }
    }

    /// The script, if the line of this number is the one after the last.
    pub fn into_script(self, line: u32) -> Result<TimedScript, ScriptFault>
        ensures { result ≡ read_timed_end self line }
    {
        let TimedSoFar { declared, steps } = self;
        let script = declared.into_script(line)?;
        Ok(TimedScript { script, steps })
    }
}
