//! `abort`, as a line and as a statement.
ghost use Rattle.std.specs.Prelude.{◌≡◌, ◌≤◌, length, Ok, Err, IfOk};
ghost use Rattle.cam_script.specs.SoFar.{step_cost};
ghost use Rattle.cam_script.specs.Steps.{abort_line};
ghost use Rattle.cam_script.specs.Statements.{abort_statement};

use crate::so_far::SoFar;
use crate::variables::variable_at;
use crate::{Act, Statement, Use};
use cam_words::{Line, ScriptFault};

impl SoFar {
    /// `abort A`
    #[tactic(auto, unfolding(crate::specs::Steps::abort_line))]
    pub fn abort_line(&self, line: &Line, at: usize) -> Result<Act, ScriptFault>
        requires { at ≤ length line.now.bytes.now }
        ensures value { result ≡ abort_line self.now line.now.number at line.now.bytes.now }
        ensures cost { IfOk result (λ act. step_cost self.now.sizes act ≡ 1) }
    {
        let (action, at) = variable_at(line, at, &self.variables, Use::Request)?;
        line.end_at(at)?;
        Ok(Act::Abort { action })
    }
}

/// In a body `abort`
#[tactic(auto, unfolding(crate::specs::Statements::abort_statement))]
pub(crate) fn abort_statement(line: &Line, at: usize) -> Result<Statement, ScriptFault>
    requires { at ≤ length line.now.bytes.now }
    ensures { result ≡ abort_statement line.now.number at line.now.bytes.now }
{
    line.end_at(at)?;
    Ok(Statement::Abort)
}
