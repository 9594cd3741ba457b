//! `call`, as a line and as a statement.
ghost use Rattle.std.specs.Prelude.{◌≡◌, ◌≤◌, length, Ok, Err, IfOk};
ghost use Rattle.cam_script.specs.SoFar.{step_cost};
ghost use Rattle.cam_script.specs.Steps.{call_line};
ghost use Rattle.cam_script.specs.Statements.{call_statement};
ghost use Rattle.cam_script.specs.Parse.{IsWithin};

use crate::name_table::declared_at;
use crate::operations::{Expressions, Numbers, kind_at, op_at};
use crate::so_far::SoFar;
use crate::variables::variable_at;
use crate::{Act, Statement, Use};
use cam_type::Op;
use cam_words::{Line, ScriptFault};

impl SoFar {
    /// `call A OBJECT OP`
    #[tactic(auto, unfolding(crate::specs::Steps::call_line))]
    pub fn call_line(&self, line: &Line, at: usize) -> Result<Act, ScriptFault>
        requires place { at ≤ length line.now.bytes.now }
        requires within { IsWithin self.now }
        ensures value { result ≡ call_line self.now line.now.number at line.now.bytes.now }
        ensures cost { IfOk result (λ act. step_cost self.now.sizes act ≡ 1) }
    {
        let (action, at) = variable_at(line, at, &self.variables, Use::Request)?;
        let (object, at) = declared_at(line, at, &self.labels)?;
        let (op, at) = op_at(line, at, kind_at(&self.objects, object), &Numbers)?;
        line.end_at(at)?;
        let object = object as u8;
        let op = Op::from(op);
        Ok(Act::Call { action, object, op })
    }

    /// In a body `call TRIES OBJECT OP`, TRIES 1 to 9, after this many earlier statements.
    #[tactic(auto, unfolding(crate::specs::Statements::call_statement))]
    pub fn call_statement(
        &self,
        line: &Line,
        at: usize,
        earlier: u8,
    ) -> Result<Statement, ScriptFault>
        requires place { at ≤ length line.now.bytes.now }
        requires within { IsWithin self.now }
        ensures { result ≡ call_statement self.now.script.labels self.now.script.objects earlier
            line.now.number at line.now.bytes.now }
    {
        let (tries, at) = line.number_at(at, 1, 9)?;
        let (object, at) = declared_at(line, at, &self.labels)?;
        let values = Expressions { earlier };
        let (op, at) = op_at(line, at, kind_at(&self.objects, object), &values)?;
        line.end_at(at)?;
        let tries = tries as u8;
        let object = object as u8;
        Ok(Statement::Call { tries, object, op })
    }
}
