//! `begin`.
ghost use Rattle.std.specs.Prelude.{◌≡◌, ◌≤◌, length, Ok, Err, IfOk, IsTrue};
ghost use Rattle.cam_words.specs.Words.{text_of, IsInLine};
ghost use Rattle.cam_words.specs.Numbers.{is_name};
ghost use Rattle.cam_script.specs.SoFar.{step_cost};
ghost use Rattle.cam_script.specs.Steps.{begin_line};

use crate::Act;
use crate::name_table::new_name_at;
use crate::so_far::SoFar;
use cam_words::{Line, ScriptFault, Word};

impl SoFar {
    /// `begin A NODE`: the word of the variable, and the step.
    #[tactic(auto, unfolding(crate::specs::Steps::begin_line))]
    pub fn begin_line(&self, line: &Line, at: usize) -> Result<(Word, Act), ScriptFault>
        requires { at ≤ length line.now.bytes.now }
        ensures value { result ≡ begin_line self.now line.now.number at line.now.bytes.now }
        ensures word { IfOk result (λ said. IsInLine line.now.bytes.now said.0) }
        ensures name { IfOk result (λ said. IsTrue (is_name (text_of said.0 line.now.bytes.now))) }
        ensures cost { IfOk result (λ said. step_cost self.now.sizes said.1 ≡ 1) }
    {
        let name = new_name_at(line, at, self.variables.names())?;
        let (node, at) = line.node_at(name.end, self.nodes)?;
        line.end_at(at)?;
        Ok((name, Act::Begin { node }))
    }
}
