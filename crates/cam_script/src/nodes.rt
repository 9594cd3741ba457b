//! `nodes`.
ghost use Rattle.std.specs.Prelude.{◌≡◌, ◌≤◌, length, Ok, Err};
ghost use Rattle.cam_script.specs.Declarations.{nodes_line};

use cam_words::{Line, ScriptFault};

/// `nodes N`, N 1 to 8: the number of nodes.
#[tactic(auto, unfolding(crate::specs::Declarations::nodes_line))]
pub(crate) fn nodes_line(line: &Line, at: usize) -> Result<u8, ScriptFault>
    requires { at ≤ length line.now.bytes.now }
    ensures { result ≡ nodes_line line.now.number at line.now.bytes.now }
{
    let (nodes, at) = line.number_at(at, 1, 8)?;
    line.end_at(at)?;
    Ok(nodes as u8)
}
