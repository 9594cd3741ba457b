//! `child`.
ghost use Rattle.std.specs.Prelude.{◌≡◌, ◌≤◌, length, Ok, Err};
ghost use Rattle.cam_script.specs.Statements.{child_statement};
ghost use Rattle.cam_script.specs.Parse.{IsWithin};

use crate::Statement;
use crate::name_table::declared_at;
use crate::so_far::SoFar;
use cam_words::{Line, ScriptFault};

impl SoFar {
    /// In a body `child TRIES NODE BODY`, TRIES 1 to 9, the body one whose `end` was read.
    #[tactic(auto, unfolding(crate::specs::Statements::child_statement))]
    pub fn child_statement(&self, line: &Line, at: usize) -> Result<Statement, ScriptFault>
        requires place { at ≤ length line.now.bytes.now }
        requires within { IsWithin self.now }
        ensures { result ≡ child_statement self.now.body_names self.now.script.nodes
            line.now.number at line.now.bytes.now }
    {
        let (tries, at) = line.number_at(at, 1, 9)?;
        let (node, at) = line.node_at(at, self.nodes)?;
        let (body, at) = declared_at(line, at, self.bodies.names())?;
        line.end_at(at)?;
        let tries = tries as u8;
        let body = body as u8;
        Ok(Statement::Child { tries, node, body })
    }
}
