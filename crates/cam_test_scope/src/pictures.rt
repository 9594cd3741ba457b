//! Pictures: what is said where nothing can be lit.
use crate::check::same;
use crate::scripts::CHILD;
use cam_scope_args::{Lit, Question};
use cam_teller::{Status, tell};
use std::test::Fail;

/// What is to be lit, and what is said of it.
const NOT_LIT: [(Lit<'static>, &str); 3] = [
    (
        Lit::Action("Z"),
        "S: the run has no action Z.\n  Its actions: T C.\n",
    ),
    (
        Lit::Stop("2"),
        "S: event 2 stops no action.\n  The events that do: none.\n",
    ),
    (
        Lit::Stop("4294967296"),
        "S: event 4294967296 stops no action.\n  The events that do: none.\n",
    ),
];

#[test]
fn what_the_run_has_not_is_a_finding(rt: HostRuntime) -> Result<(), Fail> {
    for (lit, said) in &NOT_LIT {
        let told = tell(rt.alloc(), Question::Draw(*lit), "S", CHILD.as_bytes())?;
        same(&rt, told.text.as_str(), *said);
        same(&rt, told.status, Status::Finding);
    }
    Ok(())
}

#[test]
fn an_action_is_lit_by_its_word(rt: HostRuntime) -> Result<(), Fail> {
    let lit = Lit::Action("C");
    let told = tell(rt.alloc(), Question::Draw(lit), "S", CHILD.as_bytes())?;
    same(&rt, told.text.as_str().starts_with("<svg "), true);
    same(&rt, told.status, Status::Fine);
    Ok(())
}
