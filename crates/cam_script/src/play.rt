//! `play`.
ghost use Rattle.std.specs.Prelude.{◌≡◌, ◌≤◌, List, length, Ok, Err, IfOk};
ghost use Rattle.cam_script.specs.SoFar.{Size, step_cost};
ghost use Rattle.cam_script.specs.Steps.{play_line};

use crate::Act;
use cam_words::{Line, ScriptFault};

/// `play`
#[tactic(auto, unfolding(crate::specs::Steps::play_line))]
pub(crate) fn play_line(line: &Line, at: usize) -> Result<Act, ScriptFault>
    requires { at ≤ length line.now.bytes.now }
    ensures value { result ≡ play_line line.now.number at line.now.bytes.now }
    ensures cost { IfOk result (λ act. (sizes : List Size) → step_cost sizes act ≡ 1) }
{
    line.end_at(at)?;
    Ok(Act::Play)
}
