//! `start`.
ghost use Rattle.std.specs.Prelude.{◌≡◌, ◌≤◌, length, Ok, Err, IfOk, IsTrue};
ghost use Rattle.cam_words.specs.Words.{text_of, IsInLine};
ghost use Rattle.cam_words.specs.Numbers.{is_name};
ghost use Rattle.cam_script.specs.Steps.{start_line};
ghost use Rattle.cam_script.specs.Parse.{IsWithin};

use crate::Act;
use crate::name_table::{declared_at, new_name_at};
use crate::so_far::SoFar;
use cam_words::{Line, ScriptFault, Word};

impl SoFar {
    /// `start A NODE BODY`: the word of the variable, and the step.
    #[tactic(auto, unfolding(crate::specs::Steps::start_line))]
    pub fn start_line(&self, line: &Line, at: usize) -> Result<(Word, Act), ScriptFault>
        requires place { at ≤ length line.now.bytes.now }
        requires within { IsWithin self.now }
        ensures value { result ≡ start_line self.now line.now.number at line.now.bytes.now }
        ensures word { IfOk result (λ said. IsInLine line.now.bytes.now said.0) }
        ensures name { IfOk result (λ said. IsTrue (is_name (text_of said.0 line.now.bytes.now))) }
    {
        let name = new_name_at(line, at, self.variables.names())?;
        let (node, at) = line.node_at(name.end, self.nodes)?;
        let (body, at) = declared_at(line, at, self.bodies.names())?;
        line.end_at(at)?;
        let body = body as u8;
        Ok((name, Act::Start { node, body }))
    }
}
