//! The parser: the script that bytes spell, or their first fault.
ghost use Rattle.std.specs.Prelude.{◌≤◌, length, IfOk};
ghost use Rattle.cam_script.specs.SoFar.{nothing};
ghost use Rattle.cam_words.specs.Lines.{lines_of};
ghost use Rattle.cam_script.specs.Grammar.{read_lines, read_script};
ghost use Rattle.cam_script.specs.Law.{IsScript};
ghost use Rattle.cam_script.specs.Parse.{Gives};

use crate::so_far::SoFar;
use crate::{Script, ScriptFault};
use cam_words::{Cause, Line, first_line};
use std::alloc::Global;

/// The most bytes of a script.
pub const MOST_BYTES: usize = 262_144;

/// The script that the bytes spell, or its first fault.
///
/// It answers `NoMemory` if memory runs out, and else `Bad`, with the cause of the first fault by lines, then by words. At one word the
/// first of 3, 10, 12, 4, 6, 7, 8, 9, 11, 5 counts:
///
/// 1. more than 262,144 bytes, at line 1, column 1, before all other causes;
/// 2. a byte that is not allowed, before the words of its line: each is 9, 10, 13 or 32 to 126;
/// 3. an unknown line, kind or operation;
/// 4. a word is missing, at the place after the last one;
/// 5. a word too many;
/// 6. a wrong number, value or expression;
/// 7. a new name that is not a letter and up to 15 letters or digits;
/// 8. a name that is declared above;
/// 9. a name that is not declared above, or `$K` without an earlier statement K;
/// 10. a line where it may not stand, a variable in a use that it does not have, or, at the line after the last, no `nodes` at all or a
///     body without its `end`;
/// 11. a node, 1 to 8, that the script does not have;
/// 12. object 65, body 33, statement 33, the step that passes 512, a body that nests to 9, at the first word.
#[tactic(auto, using(crate::proofs::Gives::gives_script))]
pub fn parse(alloc: Global, bytes: &[u8]) -> Result<Script, ScriptFault>
    ensures value { Gives result (read_script bytes.now) }
    ensures script { IfOk result IsScript }
{
    if bytes.len() > MOST_BYTES {
        return Err(ScriptFault::Bad {
            line: 1,
            column: 1,
            cause: Cause::TooLong,
        });
    }
    read_lines(alloc, bytes)
}

/// The script of these lines.
fn read_lines(alloc: Global, bytes: &[u8]) -> Result<Script, ScriptFault>
    requires { length bytes.now ≤ 262144 }
    ensures { Gives result (read_lines nothing 1 (lines_of bytes.now)) }
{
    let mut so_far = SoFar::new(alloc);
    let mut number = 1;
    let mut rest = bytes;
    while !rest.is_empty() {
        let (line, behind) = first_line(rest);
        so_far.read_line(&Line {
            number,
            bytes: line,
        })?;
        number += 1;
        rest = behind;
    }
    so_far.into_script(number)
}
