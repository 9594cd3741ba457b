//! `end`.
ghost use Rattle.std.specs.Prelude.{◌≡◌, ◌≤◌, length, Some, OnOk};
ghost use Rattle.cam_words.specs.Words.{end_at};
ghost use Rattle.cam_script.specs.SoFar.{Writing as AnyWriting, with_written};

use crate::so_far::SoFar;
use cam_base::NoMemory;
use cam_words::{Line, ScriptFault};

/// In a body `end`
pub(crate) fn end_line(line: &Line, at: usize) -> Result<(), ScriptFault>
    requires { at ≤ length line.now.bytes.now }
    ensures { result ≡ end_at line.now.number at line.now.bytes.now }
{
    line.end_at(at)
}

impl SoFar {
    /// After the `end` of the body that is being written.
    pub fn close_body(&mut self) -> Result<(), NoMemory>
        ensures { (w : AnyWriting) → self.old.writing ≡ Some w
            → OnOk result (self.new ≡ with_written self.old w) }
    {
        if let Some(writing) = self.writing.take() {
            self.bodies.push(writing)?;
        }
        Ok(())
    }
}
