//! Expectations: which hold of a run, and what is said of those that do not.
use crate::check::same;
use crate::scripts::{BODIES, CHILD, COMMIT};
use cam_scope_args::Question;
use cam_teller::{Status, tell};
use std::alloc::Global;
use std::test::Fail;

/// A script with expectations behind it, and what is said of them.
struct Case {
    script: &'static str,
    expectations: &'static str,
    said: &'static str,
}

const CASES: [Case; 8] = [
    Case {
        script: COMMIT,
        expectations: "#= value x 5\n#= T committed\n#=T  saw 1\tx write 5 ok\n#= line 7 refused\n",
        said: "",
    },
    Case {
        script: COMMIT,
        expectations: "#= line 7 refused L2",
        said: "",
    },
    Case {
        script: COMMIT,
        expectations: "",
        said: "S:7: nothing expects that this line is refused, found `line 7 refused L2`\n",
    },
    Case {
        script: COMMIT,
        expectations: "#= line 7 refused L6\n",
        said: "S:9: expected `line 7 refused L6`, found `line 7 refused L2`\nS:7: nothing expects that this line is refused, found `line 7 refused L2`\n",
    },
    Case {
        script: COMMIT,
        expectations: "#= value x 6\n#= line 7 refused\n#= T aborted\n#= U committed\n",
        said: "S:9: expected `value x 6`, found `value x 5`\nS:11: expected `T aborted`, found `T committed`\nS:12: expected `U committed`, found nothing like it\n",
    },
    Case {
        script: CHILD,
        expectations: "#= T open\n#= C open\n#= value x 0\n#= line 8 refused L6\n",
        said: "",
    },
    Case {
        script: CHILD,
        expectations: "#= line 8 refused\n# = T committed\n #= T committed\n",
        said: "",
    },
    Case {
        script: BODIES,
        expectations: "#= T committed\n#= T/1 committed\n#= T/2 committed\n#= value x 4\n#= T/2 saw 1 x add 2 ok\n",
        said: "",
    },
];

/// What is said of a case.
fn said(alloc: Global, case: &Case) -> Result<(String, Status), Fail> {
    let mut script = String::from_str(alloc, case.script)?;
    script.push_str(case.expectations)?;
    let told = tell(alloc, Question::Check, "S", script.as_bytes())?;
    Ok((told.text, told.status))
}

#[test]
fn a_script_keeps_its_expectations_or_each_finding_is_told(rt: HostRuntime) -> Result<(), Fail> {
    for case in &CASES {
        let (text, status) = said(rt.alloc(), case)?;
        same(&rt, text.as_str(), case.said);
        let is_fine = status == Status::Fine;
        same(&rt, is_fine, case.said.is_empty());
    }
    Ok(())
}
