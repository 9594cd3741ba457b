//! `commit`, as a line and as a statement.
ghost use Rattle.std.specs.Prelude.{◌≡◌, ◌≤◌, length, Ok, Err, IfOk};
ghost use Rattle.cam_script.specs.SoFar.{step_cost};
ghost use Rattle.cam_script.specs.Steps.{commit_line};
ghost use Rattle.cam_script.specs.Statements.{commit_statement};

use crate::so_far::SoFar;
use crate::variables::variable_at;
use crate::{Act, Statement, Use};
use cam_words::{Line, ScriptFault};

impl SoFar {
    /// `commit A V`
    #[tactic(auto, unfolding(crate::specs::Steps::commit_line))]
    pub fn commit_line(&self, line: &Line, at: usize) -> Result<Act, ScriptFault>
        requires { at ≤ length line.now.bytes.now }
        ensures value { result ≡ commit_line self.now line.now.number at line.now.bytes.now }
        ensures cost { IfOk result (λ act. step_cost self.now.sizes act ≡ 1) }
    {
        let (action, at) = variable_at(line, at, &self.variables, Use::Request)?;
        let (value, at) = line.value_at(at)?;
        line.end_at(at)?;
        Ok(Act::Commit { action, value })
    }
}

/// In a body `commit E`, after this many earlier statements.
#[tactic(auto, unfolding(crate::specs::Statements::commit_statement))]
pub(crate) fn commit_statement(
    line: &Line,
    at: usize,
    earlier: u8,
) -> Result<Statement, ScriptFault>
    requires { at ≤ length line.now.bytes.now }
    ensures { result ≡ commit_statement earlier line.now.number at line.now.bytes.now }
{
    let (expr, at) = line.expression_at(at, earlier)?;
    line.end_at(at)?;
    Ok(Statement::Commit(expr))
}
