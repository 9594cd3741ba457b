//! Runs and refused scripts in words, byte for byte.
use crate::check::same;
use crate::scripts::CHILD;
use cam_scope_args::Question;
use cam_teller::{Status, tell};
use std::test::Fail;

const TOLD: &str = "T = 1.1.1 (line 3) is open at the end:
  asks for C (line 4)
  It waits for its child C (line 4).
C = 1.1.1/2.1.1 (line 4) is open at the end:
  calls x write 5 (line 6)
  got ok (line 7)
  Nothing holds it up: no line asks for its end.
  It holds x. `giveup T C` frees it, once letters have told the node of the object.

line 8 is refused:
    commit T 7
           ^
  L6: A child of the action is not decided yet.
  The child C (line 4) has neither committed nor aborted.

value x 0
";

#[test]
fn an_open_child_is_told_of(rt: HostRuntime) -> Result<(), Fail> {
    let told = tell(rt.alloc(), Question::Explain, "S", CHILD.as_bytes())?;
    same(&rt, told.text.as_str(), TOLD);
    same(&rt, told.status, Status::Fine);
    Ok(())
}

/// A script that is refused, and what is said of it.
struct Refused {
    script: &'static str,
    said: &'static str,
}

const REFUSED: [Refused; 4] = [
    Refused {
        script: "nodes 1\nobject x 1 register 0\nbegin A 1\ncall A x tke\n",
        said: "S:4:10:
    call A x tke
             ^
  S3: This word begins no line, or is no kind, or no operation of this kind.
  Expected: read, write V or swap V of a register; size, put V or take of a queue; read or add V of a counter.
  A near word is `take`.
",
    },
    Refused {
        script: "nodes 1\nbegn A 1\n",
        said: "S:2:1:
    begn A 1
    ^
  S3: This word begins no line, or is no kind, or no operation of this kind.
  A near word is `begin`.
",
    },
    Refused {
        script: "nodes 1\nobject account 1 register 0\nbegin A 1\ncall A acount read\n",
        said: "S:4:8:
    call A acount read
           ^
  S9: This name is not declared above.
  The form of the line: call A OBJECT OP, or in a body call TRIES OBJECT OP
  A near word is `account`.
",
    },
    Refused {
        script: "nodes 1\nbegin A\n",
        said: "S:2:8:
    begin A
           ^
  S4: A word is missing here.
  The form of the line: begin A NODE
",
    },
];

#[test]
fn a_refused_script_is_told_of_with_the_near_word(rt: HostRuntime) -> Result<(), Fail> {
    for refused in &REFUSED {
        for question in [Question::Explain, Question::Check] {
            let told = tell(rt.alloc(), question, "S", refused.script.as_bytes())?;
            same(&rt, told.text.as_str(), refused.said);
            same(&rt, told.status, Status::Finding);
        }
    }
    Ok(())
}
