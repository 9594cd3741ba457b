//! `stop`.
ghost use Rattle.std.specs.Prelude.{◌≡◌, ◌≤◌, length, Ok, Err, IfOk};
ghost use Rattle.cam_script.specs.SoFar.{step_cost};
ghost use Rattle.cam_script.specs.Steps.{stop_line};

use crate::Act;
use crate::so_far::SoFar;
use cam_words::{Line, ScriptFault};

impl SoFar {
    /// `stop NODE CALLS`, CALLS 0 to 1,000
    #[tactic(auto, unfolding(crate::specs::Steps::stop_line))]
    pub fn stop_line(&self, line: &Line, at: usize) -> Result<Act, ScriptFault>
        requires { at ≤ length line.now.bytes.now }
        ensures value { result ≡ stop_line self.now line.now.number at line.now.bytes.now }
        ensures cost { IfOk result (λ act. step_cost self.now.sizes act ≡ 1) }
    {
        let (node, at) = line.node_at(at, self.nodes)?;
        let (calls, at) = line.number_at(at, 0, 1000)?;
        line.end_at(at)?;
        Ok(Act::Stop { node, calls })
    }
}
