//! `go`.
ghost use Rattle.std.specs.Prelude.{◌≡◌, ◌≤◌, length, Ok, Err, IfOk};
ghost use Rattle.cam_script.specs.SoFar.{step_cost};
ghost use Rattle.cam_script.specs.Steps.{go_line};

use crate::so_far::SoFar;
use crate::variables::variable_at;
use crate::{Act, Use};
use cam_words::{Line, ScriptFault};

impl SoFar {
    /// `go A`
    #[tactic(auto, unfolding(crate::specs::Steps::go_line))]
    pub fn go_line(&self, line: &Line, at: usize) -> Result<Act, ScriptFault>
        requires { at ≤ length line.now.bytes.now }
        ensures value { result ≡ go_line self.now line.now.number at line.now.bytes.now }
        ensures cost { IfOk result (λ act. step_cost self.now.sizes act ≡ 1) }
    {
        let (action, at) = variable_at(line, at, &self.variables, Use::Go)?;
        line.end_at(at)?;
        Ok(Act::Go { action })
    }
}
