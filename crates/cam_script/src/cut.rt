//! `cut`.
ghost use Rattle.std.specs.Prelude.{◌≡◌, ◌≤◌, List, length, Ok, Err, IfOk};
ghost use Rattle.cam_script.specs.SoFar.{Size, step_cost};
ghost use Rattle.cam_script.specs.Steps.{cut_line};

use crate::Act;
use cam_words::{Line, ScriptFault};

/// `cut K BYTES`, K 1 to 4,294,967,295, BYTES 0 to 4,294,967,295
#[tactic(auto, unfolding(crate::specs::Steps::cut_line))]
pub(crate) fn cut_line(line: &Line, at: usize) -> Result<Act, ScriptFault>
    requires { at ≤ length line.now.bytes.now }
    ensures value { result ≡ cut_line line.now.number at line.now.bytes.now }
    ensures cost { IfOk result (λ act. (sizes : List Size) → step_cost sizes act ≡ 1) }
{
    let (letter, at) = line.number_at(at, 1, u32::MAX)?;
    let (bytes, at) = line.number_at(at, 0, u32::MAX)?;
    line.end_at(at)?;
    Ok(Act::Cut { letter, bytes })
}
