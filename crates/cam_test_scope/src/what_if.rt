//! What would become of a run: smaller scripts, other orders, faults, two runs.
use crate::check::same;
use crate::scripts::{CHILD, COMMIT};
use cam_scope_args::Question;
use cam_teller::{ScriptFile, Status, compare, made, tell};
use std::test::Fail;

/// Two actions write one register, in ways that differ by their names alone: so half of the orders
/// end with the value of each.
const TWO: &str = "nodes 1
object x 1 register 0
begin A 1
begin B 1
call A x write 1
call B x write 2
commit A 0
commit B 0
";

/// What is asked of a script, and what is told.
const TOLD: [(Question<'static>, &str, &str); 4] = [
    (
        Question::Shrink("value x 5"),
        COMMIT,
        "nodes 2
object x 2 register 0
begin T 1
call T x write 5
drain
commit T 7
drain
",
    ),
    (
        Question::Shrink("refused * L6"),
        CHILD,
        "nodes 2
begin T 1
ask T C 2
commit T 7
",
    ),
    (
        Question::Shrink("value x 6"),
        COMMIT,
        "S: the report of `camelot run` has no line 'value x 6'.
",
    ),
    (
        Question::Orders,
        COMMIT,
        "S:7: this line names a letter, which would be another one in another order.
",
    ),
];

#[test]
fn what_would_become_of_a_run_is_told(rt: HostRuntime) -> Result<(), Fail> {
    for (question, script, wanted) in &TOLD {
        let told = tell(rt.alloc(), *question, "S", (*script).as_bytes())?;
        same(&rt, told.text.as_str(), *wanted);
    }
    Ok(())
}

#[test]
fn each_order_is_counted(rt: HostRuntime) -> Result<(), Fail> {
    let told = tell(rt.alloc(), Question::Orders, "S", TWO.as_bytes())?;
    same(
        &rt,
        told.text.as_str().lines().next(),
        Some("20 orders, 2 ends."),
    );
    Ok(())
}

#[test]
fn a_sweep_begins_with_the_run_itself(rt: HostRuntime) -> Result<(), Fail> {
    let told = tell(rt.alloc(), Question::Sweep(&[]), "S", COMMIT.as_bytes())?;
    let wanted = "Without a fault:\n  values: x 5\n  actions: T committed\n";
    same(&rt, told.text.as_str().starts_with(wanted), true);
    same(&rt, told.status, Status::Fine);
    Ok(())
}

#[test]
fn what_differs_is_a_finding(rt: HostRuntime) -> Result<(), Fail> {
    let a = ScriptFile {
        name: "A",
        bytes: COMMIT.as_bytes(),
    };
    let b = ScriptFile {
        name: "B",
        bytes: CHILD.as_bytes(),
    };
    same(&rt, compare(rt.alloc(), &a, &b)?.status, Status::Finding);
    same(
        &rt,
        compare(rt.alloc(), &a, &a)?.text.as_str(),
        "The events are the same.\nAll facts are the same.\n",
    );
    Ok(())
}

#[test]
fn a_seed_makes_a_script_of_so_many_steps(rt: HostRuntime) -> Result<(), Fail> {
    match made(rt.alloc(), "7", "9")? {
        Some(script) => same(&rt, script.as_str().lines().count(), 15),
        None => same(&rt, true, false),
    }
    same(&rt, made(rt.alloc(), "7", "401")?.is_none(), true);
    Ok(())
}
