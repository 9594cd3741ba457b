//! `tell`.
ghost use Rattle.std.specs.Prelude.{◌≡◌, ◌≤◌, length, Ok, Err, IfOk};
ghost use Rattle.cam_script.specs.SoFar.{step_cost};
ghost use Rattle.cam_script.specs.Steps.{tell_line};

use crate::Act;
use crate::so_far::SoFar;
use cam_words::{Line, ScriptFault};

impl SoFar {
    /// `tell NODE NODE`
    #[tactic(auto, unfolding(crate::specs::Steps::tell_line))]
    pub fn tell_line(&self, line: &Line, at: usize) -> Result<Act, ScriptFault>
        requires { at ≤ length line.now.bytes.now }
        ensures value { result ≡ tell_line self.now line.now.number at line.now.bytes.now }
        ensures cost { IfOk result (λ act. step_cost self.now.sizes act ≡ 1) }
    {
        let (node, at) = line.node_at(at, self.nodes)?;
        let (to, at) = line.node_at(at, self.nodes)?;
        line.end_at(at)?;
        Ok(Act::Tell { node, to })
    }
}
