//! `query`.
ghost use Rattle.std.specs.Prelude.{◌≡◌, ◌≤◌, length, Ok, Err, IfOk};
ghost use Rattle.cam_script.specs.SoFar.{step_cost};
ghost use Rattle.cam_script.specs.Steps.{query_line};

use crate::so_far::SoFar;
use crate::variables::variable_at;
use crate::{Act, Use};
use cam_words::{Line, ScriptFault};

impl SoFar {
    /// `query NODE A`, a question after A's family
    #[tactic(auto, unfolding(crate::specs::Steps::query_line))]
    pub fn query_line(&self, line: &Line, at: usize) -> Result<Act, ScriptFault>
        requires { at ≤ length line.now.bytes.now }
        ensures value { result ≡ query_line self.now line.now.number at line.now.bytes.now }
        ensures cost { IfOk result (λ act. step_cost self.now.sizes act ≡ 1) }
    {
        let (node, at) = line.node_at(at, self.nodes)?;
        let (action, at) = variable_at(line, at, &self.variables, Use::Query)?;
        line.end_at(at)?;
        Ok(Act::Query { node, action })
    }
}
