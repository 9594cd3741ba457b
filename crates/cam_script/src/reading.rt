//! A line, by its first word and by where it stands.
ghost use Rattle.std.specs.Prelude.{◌≡◌, ◌≤◌, length, Some, None, Ok, Err, IsTrue, IsFalse, IfOk};
ghost use Rattle.cam_script.specs.SoFar.{Writing as AnyWriting, step_cost};
ghost use Rattle.cam_script.specs.Order.{is_step, is_too_many};
ghost use Rattle.cam_script.specs.Grammar.{statement_of, in_body, act_line, outside, by_place, begins_with_hash, with_word, read_line};
ghost use Rattle.cam_script.specs.Parse.{Leads, IsWithin, costs_one};

use crate::abort::abort_statement;
use crate::commit::commit_statement;
use crate::cut::cut_line;
use crate::deliver::deliver_line;
use crate::drain::drain_line;
use crate::end::end_line;
use crate::forms::form_named;
use crate::lose::lose_line;
use crate::nodes::nodes_line;
use crate::order::may_stand;
use crate::play::play_line;
use crate::so_far::SoFar;
use crate::{Act, Binding, Form, Statement};
use cam_words::{Cause, Line, ScriptFault, Word, bad_byte};

impl SoFar {
    /// Reads a line.
    #[tactic(auto, unfolding(crate::specs::Grammar::read_line))]
    pub fn read_line(&mut self, line: &Line) -> Result<(), ScriptFault>
        requires { IsWithin self.old }
        ensures { Leads result self.new
            (read_line self.old line.now.number line.now.bytes.now) }
    {
        if let Some(at) = bad_byte(line.bytes) {
            return Err(line.fault(at, Cause::ByteNotAllowed));
        }
        let first = line.next_word(0);
        if first.is_missing() || begins_with_hash(line.text(first)) {
            return Ok(());
        }
        self.with_word(line, first)
    }

    /// Reads a line that begins with this word.
    #[tactic(auto, unfolding(crate::specs::Grammar::with_word))]
    fn with_word(&mut self, line: &Line, first: Word) -> Result<(), ScriptFault>
        requires within { IsWithin self.old }
        requires start { first.start ≤ first.end }
        requires end { first.end ≤ length line.now.bytes.now }
        ensures { Leads result self.new
            (with_word self.old line.now.number first line.now.bytes.now) }
    {
        let Some(form) = form_named(line.text(first)) else {
            return Err(line.fault(first.start, Cause::UnknownWord));
        };
        if !may_stand(self.section(), form) {
            return Err(line.fault(first.start, Cause::Misplaced));
        }
        if self.is_full(form, line, first.end) {
            return Err(line.fault(first.start, Cause::TooMany));
        }
        self.read_form(form, line, first.end)
    }

    /// Reads a line of this form, after its first word.
    fn read_form(&mut self, form: Form, line: &Line, at: usize) -> Result<(), ScriptFault>
        requires within { IsWithin self.old }
        requires room { IsFalse (is_too_many self.old form at line.now.bytes.now) }
        requires place { at ≤ length line.now.bytes.now }
        ensures { Leads result self.new (by_place self.old.writing self.old form
            line.now.number at line.now.bytes.now) }
    {
        match &self.writing {
            Some(writing) => {
                let earlier = writing.statements.len() as u8;
                self.read_in_body(form, line, at, earlier)
            }
            None => self.read_outside(form, line, at),
        }
    }

    /// Reads a line in a body that has this many statements.
    fn read_in_body(
        &mut self,
        form: Form,
        line: &Line,
        at: usize,
        earlier: u8,
    ) -> Result<(), ScriptFault>
        requires within { IsWithin self.old }
        requires place { at ≤ length line.now.bytes.now }
        ensures { (w : AnyWriting) → self.old.writing ≡ Some w → length w.statements ≡ earlier
            → Leads result self.new (in_body self.old w form line.now.number at line.now.bytes.now) }
    {
        match form {
            Form::End => {
                end_line(line, at)?;
                self.close_body()?;
                Ok(())
            }
            _ => {
                let statement = self.statement_of(form, line, at, earlier)?;
                self.push_statement(statement)?;
                Ok(())
            }
        }
    }

    /// The statement of a line in a body, after this many earlier ones.
    fn statement_of(
        &self,
        form: Form,
        line: &Line,
        at: usize,
        earlier: u8,
    ) -> Result<Statement, ScriptFault>
        requires within { IsWithin self.now }
        requires place { at ≤ length line.now.bytes.now }
        ensures { (w : AnyWriting) → length w.statements ≡ earlier
            → result ≡ statement_of self.now w form line.now.number at line.now.bytes.now }
    {
        match form {
            Form::Call => self.call_statement(line, at, earlier),
            Form::Child => self.child_statement(line, at),
            Form::Commit => commit_statement(line, at, earlier),
            Form::Abort => abort_statement(line, at),
            _ => Err(line.fault(0, Cause::Misplaced)),
        }
    }

    /// Reads a line outside bodies, of this form, after its first word. It answers the fault of the grammar, or `NoMemory`.
    pub fn read_outside(&mut self, form: Form, line: &Line, at: usize) -> Result<(), ScriptFault>
        requires within { IsWithin self.old }
        requires outside { self.old.writing ≡ None }
        requires room { IsFalse (is_too_many self.old form at line.now.bytes.now) }
        requires place { at ≤ length line.now.bytes.now }
        ensures { Leads result self.new
            (outside self.old form line.now.number at line.now.bytes.now) }
    {
        match form {
            Form::Nodes => {
                let nodes = nodes_line(line, at)?;
                self.set_nodes(nodes);
                Ok(())
            }
            Form::Object => {
                let (name, object) = self.object_line(line, at)?;
                self.push_object(line.text(name), object)?;
                Ok(())
            }
            Form::Body => {
                let name = self.body_line(line, at)?;
                self.open_body(line.text(name))?;
                Ok(())
            }
            Form::Child | Form::End => Err(line.fault(0, Cause::Misplaced)),
            _ => self.read_step(form, line, at),
        }
    }

    /// Reads a step.
    #[tactic(auto, using(crate::proofs::Costs::room_for))]
    fn read_step(&mut self, form: Form, line: &Line, at: usize) -> Result<(), ScriptFault>
        requires within { IsWithin self.old }
        requires outside { self.old.writing ≡ None }
        requires step { IsTrue (is_step form) }
        requires room { IsFalse (is_too_many self.old form at line.now.bytes.now) }
        requires place { at ≤ length line.now.bytes.now }
        ensures { Leads result self.new
            (outside self.old form line.now.number at line.now.bytes.now) }
    {
        match form {
            Form::Begin => {
                let (name, act) = self.begin_line(line, at)?;
                self.push_binding(line.number, line.text(name), Binding::Begin, act)?;
                Ok(())
            }
            Form::Start => {
                let (name, act) = self.start_line(line, at)?;
                self.push_binding(line.number, line.text(name), Binding::Start, act)?;
                Ok(())
            }
            Form::Ask => {
                let (name, act) = self.ask_line(line, at)?;
                self.push_binding(line.number, line.text(name), Binding::Ask, act)?;
                Ok(())
            }
            _ => {
                let act = self.act_line(form, line, at)?;
                self.push_step(line.number, act)?;
                Ok(())
            }
        }
    }

    /// The step of a line that binds no variable, after its first word. It answers the fault of the grammar.
    pub fn act_line(&self, form: Form, line: &Line, at: usize) -> Result<Act, ScriptFault>
        requires within { IsWithin self.now }
        requires place { at ≤ length line.now.bytes.now }
        ensures value { result
            ≡ act_line self.now form line.now.number at line.now.bytes.now }
        ensures cost { IfOk result (λ act. step_cost self.now.sizes act ≡ 1) }
        ensures one { IfOk result (λ act. IsTrue (costs_one form)) }
    {
        match form {
            Form::Call => self.call_line(line, at),
            Form::Commit => self.commit_line(line, at),
            Form::Abort => self.abort_line(line, at),
            Form::GiveUp => self.giveup_line(line, at),
            Form::Go => self.go_line(line, at),
            Form::Deliver => deliver_line(line, at),
            Form::Cut => cut_line(line, at),
            Form::Lose => lose_line(line, at),
            Form::Restart => self.restart_line(line, at),
            Form::Drain => drain_line(line, at),
            Form::Play => play_line(line, at),
            Form::Tell => self.tell_line(line, at),
            Form::Query => self.query_line(line, at),
            Form::Stop => self.stop_line(line, at),
            _ => Err(line.fault(0, Cause::Misplaced)),
        }
    }
}

/// A line whose first word begins so is skipped.
pub fn begins_with_hash(word: &[u8]) -> bool
    ensures { result ≡ begins_with_hash word.now }
{
    match word.split_first() {
        Some((b'#', _)) => true,
        _ => false,
    }
}
