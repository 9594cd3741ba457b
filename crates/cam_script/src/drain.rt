//! `drain`.
ghost use Rattle.std.specs.Prelude.{◌≡◌, ◌≤◌, List, length, Ok, Err, IfOk};
ghost use Rattle.cam_script.specs.SoFar.{Size, step_cost};
ghost use Rattle.cam_script.specs.Steps.{drain_line};

use crate::Act;
use cam_words::{Line, ScriptFault};

/// `drain`
#[tactic(auto, unfolding(crate::specs::Steps::drain_line))]
pub(crate) fn drain_line(line: &Line, at: usize) -> Result<Act, ScriptFault>
    requires { at ≤ length line.now.bytes.now }
    ensures value { result ≡ drain_line line.now.number at line.now.bytes.now }
    ensures cost { IfOk result (λ act. (sizes : List Size) → step_cost sizes act ≡ 1) }
{
    line.end_at(at)?;
    Ok(Act::Drain)
}
