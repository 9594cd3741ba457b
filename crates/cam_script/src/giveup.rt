//! `giveup`.
ghost use Rattle.std.specs.Prelude.{◌≡◌, ◌≤◌, length, Ok, Err, IfOk};
ghost use Rattle.cam_script.specs.SoFar.{step_cost};
ghost use Rattle.cam_script.specs.Steps.{giveup_line};

use crate::so_far::SoFar;
use crate::variables::variable_at;
use crate::{Act, Use};
use cam_words::{Line, ScriptFault};

impl SoFar {
    /// `giveup A B`
    #[tactic(auto, unfolding(crate::specs::Steps::giveup_line))]
    pub fn giveup_line(&self, line: &Line, at: usize) -> Result<Act, ScriptFault>
        requires { at ≤ length line.now.bytes.now }
        ensures value { result ≡ giveup_line self.now line.now.number at line.now.bytes.now }
        ensures cost { IfOk result (λ act. step_cost self.now.sizes act ≡ 1) }
    {
        let (action, at) = variable_at(line, at, &self.variables, Use::Request)?;
        let (child, at) = variable_at(line, at, &self.variables, Use::Request)?;
        line.end_at(at)?;
        Ok(Act::GiveUp { action, child })
    }
}
