//! Pictures, byte for byte.
use crate::{halted, lost, stopped};
use cam_scope_args::{Lit, Question};
use cam_teller::{Status, tell};
use std::fmt::Debug;
use std::process::Abort;
use std::test::Fail;

/// Scripts, what is to be lit, and their pictures behind the style sheet.
const PICTURES: [(&str, Lit<'static>, &str); 3] = [
    (lost::SCRIPT, Lit::Action("T"), lost::PICTURE),
    (stopped::SCRIPT, Lit::Stop("5"), stopped::PICTURE),
    (halted::SCRIPT, Lit::All, halted::PICTURE),
];

/// Fails the test, and tells both, where they differ.
fn same<T: PartialEq + Debug + Copy>(rt: &impl Abort, got: T, wanted: T) {
    assert_eq!(rt; got, wanted);
}

#[test]
fn each_run_has_its_picture(rt: HostRuntime) -> Result<(), Fail> {
    for (script, lit, picture) in &PICTURES {
        let told = tell(rt.alloc(), Question::Draw(*lit), "S", script.as_bytes())?;
        let text = told.text.as_str();
        let (_, drawn) = text.split_once("</style>\n").unwrap_or((text, text));
        same(&rt, drawn, *picture);
        same(&rt, told.status, Status::Fine);
    }
    Ok(())
}
