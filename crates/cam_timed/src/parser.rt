//! The parser: the script by time that bytes spell, or their first fault.
ghost use Rattle.std.specs.Prelude.{◌≡◌, ◌≤◌, length, IfOk};
ghost use Rattle.cam_words.specs.Lines.{lines_of};
ghost use Rattle.cam_script.specs.Parse.{Gives};
ghost use Rattle.cam_timed.specs.Law.{ViewsAreSound};
ghost use Rattle.cam_timed.specs.TimedGrammar.{timed_nothing, read_timed_lines, read_timed};
ghost use Rattle.cam_timed.specs.TimedRange.{IsTimedScript};

use crate::TimedScript;
use crate::reading::TimedSoFar;
use cam_script::MOST_BYTES;
use cam_words::{Cause, Line, ScriptFault, first_line};
use std::alloc::Global;

/// The script by time that the bytes spell, or its first fault, with the causes and in the order of a script without time.
///
/// `begin` and `ask` have a quiesce moment at their end; `tick NODE MOMENT` and `expire A`, A a variable of `begin`, are new; each moment is
/// 1 to 1,000,000,000. Bodies, `start`, `go`, `play`, `restart`, `cut` and `stop` are unknown lines. It returns `NoMemory` if memory runs
/// out. Each action of the run by time of an accepted script has its view in a legal history, in which it is no orphan (`views`).
#[tactic(auto, using(crate::proofs::TimedAccepts::gives_script, crate::proofs::TimedViews::gives_views))]
pub fn parse_timed(alloc: Global, bytes: &[u8]) -> Result<TimedScript, ScriptFault>
    ensures value { Gives result (read_timed bytes.now) }
    ensures script { IfOk result IsTimedScript }
    ensures views { IfOk result ViewsAreSound }
{
    if bytes.len() > MOST_BYTES {
        return Err(ScriptFault::Bad {
            line: 1,
            column: 1,
            cause: Cause::TooLong,
        });
    }
    read_lines(alloc, bytes)
}

/// The script of these lines.
fn read_lines(alloc: Global, bytes: &[u8]) -> Result<TimedScript, ScriptFault>
    requires { length bytes.now ≤ 262144 }
    ensures { Gives result (read_timed_lines timed_nothing 1 (lines_of bytes.now)) }
{
    let mut so_far = TimedSoFar::new(alloc);
    let mut number = 1;
    let mut rest = bytes;
    while !rest.is_empty() {
        let (line, behind) = first_line(rest);
        so_far.read_line(&Line {
            number,
            bytes: line,
        })?;
        number += 1;
        rest = behind;
    }
    so_far.into_script(number)
}
