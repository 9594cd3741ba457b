//! Which lines may stand where, and how many.
ghost use Rattle.std.specs.Prelude.{◌≡◌, ◌≤◌, length};
ghost use Rattle.cam_script.specs.Order.{section_of, is_step, is_statement, may_stand, cost_ahead, nests_too_deep, is_full_script, is_too_many};
ghost use Rattle.cam_script.specs.Parse.{IsWithin};

use crate::body_table::is_closed;
use crate::so_far::SoFar;
use crate::{Form, Section};
use cam_words::Line;

/// The most objects of a script.
const MOST_OBJECTS: usize = 64;

/// The most bodies of a script.
const MOST_BODIES: usize = 32;

/// The most statements of a body, its `commit` or `abort` among them.
const MOST_STATEMENTS: usize = 32;

/// The deepest nesting of a body.
const DEEPEST_NESTING: u8 = 8;

/// The most steps of a script, with the costs of the bodies that it starts.
const MOST_STEPS: u32 = 512;

impl SoFar {
    /// Where the next line stands.
    pub fn section(&self) -> Section
        ensures { result ≡ section_of self.now }
    {
        match &self.writing {
            Some(writing) => {
                if is_closed(&writing.statements) {
                    Section::BehindBody
                } else {
                    Section::InBody
                }
            }
            None => {
                if self.nodes == 0 {
                    Section::AtNodes
                } else if self.steps.is_empty() {
                    Section::AtDeclarations
                } else {
                    Section::AtSteps
                }
            }
        }
    }

    /// Whether a line of this form is one too many. What it names with its fourth word counts, whatever its other words hold.
    pub fn is_full(&self, form: Form, line: &Line, at: usize) -> bool
        requires place { at ≤ length line.now.bytes.now }
        requires within { IsWithin self.now }
        ensures { result ≡ is_too_many self.now form at line.now.bytes.now }
    {
        match &self.writing {
            Some(writing) => {
                let full = writing.statements.len() >= MOST_STATEMENTS;
                is_statement(form) && (full || self.nests_too_deep(form, line, at))
            }
            None => self.is_full_script(form, line, at),
        }
    }

    /// Whether a line is one too many outside bodies.
    #[tactic(auto, using(crate::proofs::Sizes::start_full))]
    fn is_full_script(&self, form: Form, line: &Line, at: usize) -> bool
        requires place { at ≤ length line.now.bytes.now }
        requires within { IsWithin self.now }
        ensures { result ≡ is_full_script self.now form at line.now.bytes.now }
    {
        match form {
            Form::Nodes | Form::Child | Form::End => false,
            Form::Object => self.objects.len() >= MOST_OBJECTS,
            Form::Body => self.bodies.len() >= MOST_BODIES,
            Form::Start => {
                let body = self.bodies.size_named(line.text(line.third_word(at)));
                self.spent + 1 + body.cost > MOST_STEPS
            }
            _ => self.spent >= MOST_STEPS,
        }
    }

    /// Whether a statement is a child whose body would nest too deep.
    #[tactic(auto, using(crate::proofs::Sizes::child_deep))]
    fn nests_too_deep(&self, form: Form, line: &Line, at: usize) -> bool
        requires { at ≤ length line.now.bytes.now }
        ensures { result ≡ nests_too_deep self.now form at line.now.bytes.now }
    {
        match form {
            Form::Child => {
                let body = self.bodies.size_named(line.text(line.third_word(at)));
                body.nesting >= DEEPEST_NESTING
            }
            _ => false,
        }
    }
}

/// Which lines may stand where.
pub(crate) fn may_stand(section: Section, form: Form) -> bool
    ensures { result ≡ may_stand section form }
{
    match section {
        Section::AtNodes => form == Form::Nodes,
        Section::AtDeclarations => form == Form::Object || form == Form::Body || is_step(form),
        Section::InBody => is_statement(form),
        Section::BehindBody => form == Form::End,
        Section::AtSteps => is_step(form),
    }
}

fn is_step(form: Form) -> bool
    ensures { result ≡ is_step form }
{
    match form {
        Form::Nodes | Form::Object | Form::Body | Form::Child | Form::End => false,
        _ => true,
    }
}

fn is_statement(form: Form) -> bool
    ensures { result ≡ is_statement form }
{
    match form {
        Form::Call | Form::Child | Form::Commit | Form::Abort => true,
        _ => false,
    }
}
