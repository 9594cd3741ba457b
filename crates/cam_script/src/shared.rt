//! The words that lines of several languages have alike: a new variable, a variable above, a node.
ghost use Rattle.std.specs.Prelude.{◌≡◌, ◌≤◌, length, IfOk, IsTrue};
ghost use Rattle.cam_words.specs.Words.{text_of, IsFurther, IsInLine};
ghost use Rattle.cam_words.specs.Numbers.{is_name, new_name_at, node_at};
ghost use Rattle.cam_script.specs.SoFar.{variable_names};
ghost use Rattle.cam_script.specs.Variables.{variable_at};

use crate::Use;
use crate::name_table::new_name_at;
use crate::so_far::SoFar;
use crate::variables::variable_at;
use cam_words::{Line, ScriptFault, Word};

impl SoFar {
    /// The word of a new variable.
    pub fn new_variable_at(&self, line: &Line, at: usize) -> Result<Word, ScriptFault>
        requires { at ≤ length line.now.bytes.now }
        ensures value { result ≡ new_name_at (variable_names self.now.variables)
            line.now.number at line.now.bytes.now }
        ensures word { IfOk result (λ word. (at ≤ word.start) × IsInLine line.now.bytes.now word) }
        ensures name { IfOk result (λ word. IsTrue (is_name (text_of word line.now.bytes.now))) }
    {
        new_name_at(line, at, self.variables.names())
    }

    /// The step of a variable that may be used so, and the place after its word.
    pub fn variable_at(
        &self,
        line: &Line,
        at: usize,
        used: Use,
    ) -> Result<(u32, usize), ScriptFault>
        requires { at ≤ length line.now.bytes.now }
        ensures value { result
            ≡ variable_at used self.now.variables line.now.number at line.now.bytes.now }
        ensures end { IfOk result (λ read. IsFurther at line.now.bytes.now read.1) }
    {
        variable_at(line, at, &self.variables, used)
    }

    /// A node of those that were declared, and the place after its word.
    pub fn node_at(&self, line: &Line, at: usize) -> Result<(u8, usize), ScriptFault>
        requires { at ≤ length line.now.bytes.now }
        ensures value { result
            ≡ node_at self.now.script.nodes line.now.number at line.now.bytes.now }
        ensures end { IfOk result (λ read. IsFurther at line.now.bytes.now read.1) }
    {
        line.node_at(at, self.nodes)
    }
}
