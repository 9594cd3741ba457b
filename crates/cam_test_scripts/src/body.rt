//! `cam_body`: what an action with a body does next.

use crate::check::same;
use cam_body::{child_body, next_request};
use cam_event::{Seen, View, ViewStep};
use cam_names::{Name, Part};
use cam_script::{BodyOp, BodyText, Expr, Statement};
use cam_type::{Answer, Op};
use std::alloc::Global;
use std::test::Fail;

/// Calls object 0 up to twice, asks for a child up to twice, and commits 3 more than what the call read.
const TRANSFER: [Statement; 3] = [
    Statement::Call {
        tries: 2,
        object: 0,
        op: BodyOp::Read,
    },
    Statement::Child {
        tries: 2,
        node: 2,
        body: 5,
    },
    Statement::Commit(Expr::Kept { place: 1, add: 3 }),
];

/// Writes, then swaps the least value more than the 0 that the write left, and commits 1 more than what the swap found.
const SUMS: [Statement; 3] = [
    Statement::Call {
        tries: 1,
        object: 4,
        op: BodyOp::Write(Expr::Fixed(-7)),
    },
    Statement::Call {
        tries: 1,
        object: 4,
        op: BodyOp::Swap(Expr::Kept {
            place: 1,
            add: i64::MIN,
        }),
    },
    Statement::Commit(Expr::Kept { place: 2, add: 1 }),
];

/// A step of a view, but for the names in it.
#[derive(Clone, Copy)]
enum Told {
    Created,
    Called,
    Busy,
    Gone,
    Ok,
    Empty,
    Value(i64),
    Asked,
    Child(Option<i64>),
    CommitAsked,
    AbortAsked,
}

/// The step, with this name wherever it has one.
fn step_of(told: Told, name: Name) -> ViewStep {
    match told {
        Told::Created => ViewStep::Created,
        Told::Called => ViewStep::Called(1, 0, Op::Read),
        Told::Busy => ViewStep::Got(1, Seen::Busy(name)),
        Told::Gone => ViewStep::Got(1, Seen::Gone),
        Told::Ok => ViewStep::Got(1, Seen::Done(Answer::Ok)),
        Told::Empty => ViewStep::Got(1, Seen::Done(Answer::Empty)),
        Told::Value(value) => ViewStep::Got(1, Seen::Done(Answer::Value(value))),
        Told::Asked => ViewStep::Asked(name),
        Told::Child(value) => ViewStep::Child(name, value),
        Told::CommitAsked => ViewStep::CommitAsked(0),
        Told::AbortAsked => ViewStep::AbortAsked,
    }
}

/// Adds a step to a view. The names in it are all the same.
fn push(view: &mut View, told: Told) -> Result<(), Fail> {
    let Some(part) = Part::new(2, 1, 1) else {
        return Err(Fail::new("no part"));
    };
    let step = step_of(told, Name::top(part));
    view.push_copy(&step)?;
    Ok(())
}

fn body(alloc: Global, statements: &[Statement]) -> Result<BodyText, Fail> {
    let mut body = BodyText::new(alloc);
    for statement in statements {
        body.push_copy(statement)?;
    }
    Ok(body)
}

/// Whether the action does this next.
fn is_next(alloc: Global, body: &BodyText, view: &View, expected: &str) -> Result<bool, Fail> {
    let next = format!(in alloc; "{:?}", next_request(body, view))?;
    Ok(next.as_str() == expected)
}

/// Whether the action does this next, once the step is added to its view.
fn is_next_after(
    alloc: Global,
    body: &BodyText,
    view: &mut View,
    told: Told,
    expected: &str,
) -> Result<bool, Fail> {
    push(view, told)?;
    is_next(alloc, body, view, expected)
}

/// The first step of a view after which the action does not do what stands beside the step.
fn first_wrong(
    alloc: Global,
    statements: &[Statement],
    steps: &[(Told, &str)],
) -> Result<Option<usize>, Fail> {
    let body = body(alloc, statements)?;
    first_wrong_of(alloc, &body, steps)
}

/// The same of an action with this body.
fn first_wrong_of(
    alloc: Global,
    body: &BodyText,
    steps: &[(Told, &str)],
) -> Result<Option<usize>, Fail> {
    let mut view = View::new(alloc);
    for (i, (told, expected)) in steps.iter().enumerate() {
        if !is_next_after(alloc, body, &mut view, *told, expected)? {
            return Ok(Some(i));
        }
    }
    Ok(None)
}

#[test]
fn statements_are_tried_again_and_leave_their_values(rt: HostRuntime) -> Result<(), Fail> {
    let steps = [
        (Told::Created, "Request(Call(0, Read))"),
        (Told::Called, "Wait"),
        (Told::Busy, "Request(Call(0, Read))"),
        (Told::Called, "Wait"),
        (Told::Value(7), "Request(Ask(2))"),
        (Told::Asked, "Wait"),
        (Told::Child(None), "Request(Ask(2))"),
        (Told::Asked, "Wait"),
        (Told::Child(Some(4)), "Request(Commit(10))"),
        (Told::CommitAsked, "Over"),
    ];
    same(&rt, first_wrong(rt.alloc(), &TRANSFER, &steps)?, None);
    Ok(())
}

#[test]
fn an_empty_queue_leaves_nothing(rt: HostRuntime) -> Result<(), Fail> {
    let steps = [
        (Told::Called, "Wait"),
        (Told::Empty, "Request(Ask(2))"),
        (Told::Asked, "Wait"),
        (Told::Child(Some(4)), "Request(Commit(3))"),
    ];
    same(&rt, first_wrong(rt.alloc(), &TRANSFER, &steps)?, None);
    Ok(())
}

#[test]
fn an_action_aborts_after_its_last_try(rt: HostRuntime) -> Result<(), Fail> {
    let steps = [
        (Told::Called, "Wait"),
        (Told::Gone, "Request(Call(0, Read))"),
        (Told::Called, "Wait"),
        (Told::Busy, "Request(Abort)"),
        (Told::AbortAsked, "Over"),
    ];
    same(&rt, first_wrong(rt.alloc(), &TRANSFER, &steps)?, None);
    Ok(())
}

#[test]
fn sums_wrap_and_ok_leaves_nothing(rt: HostRuntime) -> Result<(), Fail> {
    let steps = [
        (Told::Created, "Request(Call(4, Write(-7)))"),
        (Told::Called, "Wait"),
        (Told::Ok, "Request(Call(4, Swap(-9223372036854775808)))"),
        (Told::Called, "Wait"),
        (
            Told::Value(i64::MAX),
            "Request(Commit(-9223372036854775808))",
        ),
    ];
    same(&rt, first_wrong(rt.alloc(), &SUMS, &steps)?, None);
    Ok(())
}

/// A view of these steps.
fn view_of(alloc: Global, steps: &[Told]) -> Result<View, Fail> {
    let mut view = View::new(alloc);
    for told in steps {
        push(&mut view, *told)?;
    }
    Ok(view)
}

/// The body of the child for which `TRANSFER` asks after these steps.
fn child_after(alloc: Global, steps: &[Told]) -> Result<Option<u8>, Fail> {
    let view = view_of(alloc, steps)?;
    let body = body(alloc, &TRANSFER)?;
    Ok(child_body(&body, &view))
}

#[test]
fn a_child_has_the_body_of_its_statement(rt: HostRuntime) -> Result<(), Fail> {
    let before = child_after(rt.alloc(), &[])?;
    let after = child_after(rt.alloc(), &[Told::Called, Told::Value(7)])?;
    same(&rt, (before, after), (None, Some(5)));
    Ok(())
}
