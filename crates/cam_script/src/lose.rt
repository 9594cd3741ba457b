//! `lose`.
ghost use Rattle.std.specs.Prelude.{◌≡◌, ◌≤◌, List, length, Ok, Err, IfOk};
ghost use Rattle.cam_script.specs.SoFar.{Size, step_cost};
ghost use Rattle.cam_script.specs.Steps.{lose_line};

use crate::Act;
use cam_words::{Line, ScriptFault};

/// `lose K`, K 1 to 4,294,967,295
#[tactic(auto, unfolding(crate::specs::Steps::lose_line))]
pub(crate) fn lose_line(line: &Line, at: usize) -> Result<Act, ScriptFault>
    requires { at ≤ length line.now.bytes.now }
    ensures value { result ≡ lose_line line.now.number at line.now.bytes.now }
    ensures cost { IfOk result (λ act. (sizes : List Size) → step_cost sizes act ≡ 1) }
{
    let (letter, at) = line.number_at(at, 1, u32::MAX)?;
    line.end_at(at)?;
    Ok(Act::Lose { letter })
}
