//! `body`, and the statements of the body that is being written.
ghost use Rattle.std.specs.Prelude.{◌≡◌, ◌≤◌, length, Some, Ok, Err, IfOk, IsTrue, OnOk};
ghost use Rattle.cam_words.specs.Words.{text_of, IsInLine};
ghost use Rattle.cam_words.specs.Numbers.{is_name};
ghost use Rattle.cam_script.specs.SoFar.{Writing as AnyWriting, with_body, with_statement};
ghost use Rattle.cam_script.specs.Declarations.{body_line};

use crate::body_table::Writing;
use crate::name_table::new_name_at;
use crate::so_far::SoFar;
use crate::{BodyText, Statement};
use cam_base::NoMemory;
use cam_words::{Label, Line, ScriptFault, Word};

impl SoFar {
    /// `body NAME`: the word of the name.
    #[tactic(auto, unfolding(crate::specs::Declarations::body_line))]
    pub fn body_line(&self, line: &Line, at: usize) -> Result<Word, ScriptFault>
        requires { at ≤ length line.now.bytes.now }
        ensures value { result
            ≡ body_line self.now.body_names line.now.number at line.now.bytes.now }
        ensures word { IfOk result (λ name. IsInLine line.now.bytes.now name) }
        ensures name { IfOk result (λ name. IsTrue (is_name (text_of name line.now.bytes.now))) }
    {
        let name = new_name_at(line, at, self.bodies.names())?;
        line.end_at(name.end)?;
        Ok(name)
    }

    /// After `body NAME`.
    pub fn open_body(&mut self, name: &[u8]) -> Result<(), NoMemory>
        requires { IsTrue (is_name name.now) }
        ensures { OnOk result (self.new ≡ with_body self.old name.now) }
    {
        let alloc = self.labels.allocator();
        self.writing = Some(Writing {
            name: Label::of_word(alloc, name)?,
            statements: BodyText::new(alloc),
        });
        Ok(())
    }

    /// After a statement of the body that is being written.
    pub fn push_statement(&mut self, statement: Statement) -> Result<(), NoMemory>
        ensures { (w : AnyWriting) → self.old.writing ≡ Some w
            → OnOk result (self.new ≡ with_statement self.old w statement) }
    {
        if let Some(mut writing) = self.writing.take() {
            writing.statements.push_copy(&statement)?;
            self.writing = Some(writing);
        }
        Ok(())
    }
}
