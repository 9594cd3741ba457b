// How the body of a letter is written: a tag, then its fields.
ghost use Rattle.std.specs.Prelude.{◌≡◌, ◌++◌, ◌∷◌, length, IfOk, OnOk};
ghost use Rattle.cam_bytes.specs.Fields.{name};
ghost use Rattle.cam_bytes.specs.Ranges.{IsName, IsFamily};
ghost use Rattle.cam_event.specs.declared.Body.TheVariants as bodies;
ghost use Rattle.cam_wire.specs.Spelling.{body as bytes_of_body};
ghost use Rattle.cam_wire.specs.Ranges.{IsBody};
ghost use Rattle.cam_wire.specs.Writable.{IsWritableBody};

use crate::bodies::{ANSWER, CALL, FINISH, NEWS, PREPARE, QUERY, QUIT, START, VOTE};
use crate::replies::write_reply;
use cam_base::NoMemory;
use cam_bytes::{
    write_byte, write_deps, write_family, write_name, write_number, write_object, write_op,
    write_value,
};
use cam_event::{Body, Reply};
use cam_names::{Deps, Name};
use cam_type::Op;

/// A tag and the name after it, written after what was written.
fn write_tagged_name(out: Vec<u8>, tag: u8, named: &Name) -> Result<Vec<u8>, NoMemory>
    ensures ok { IfOk result (λ text. text.items ≡ out.items ++ tag ∷ name named.now) }
    ensures range { OnOk result (IsName named.now) }
{
    write_name(write_byte(out, tag)?, named)
}

/// A tag and the name of the family after it, written after what was written.
fn write_tagged_family(out: Vec<u8>, tag: u8, family: &Name) -> Result<Vec<u8>, NoMemory>
    requires { length family.now ≡ 1 }
    ensures ok { IfOk result (λ text. text.items ≡ out.items ++ tag ∷ name family.now) }
    ensures range { OnOk result (IsFamily family.now) }
{
    write_family(write_byte(out, tag)?, family)
}

/// A Start, written after what was written.
fn write_start(out: Vec<u8>, child: &Name, deps: &Deps) -> Result<Vec<u8>, NoMemory>
    ensures ok { IfOk result (λ text. text.items ≡ out.items ++ bytes_of_body (bodies.Start child.now deps.now)) }
    ensures range { OnOk result (IsBody (bodies.Start child.now deps.now)) }
{
    let out = write_tagged_name(out, START, child)?;
    write_deps(out, deps)
}

/// A Call, written after what was written.
fn write_call(
    out: Vec<u8>,
    action: &Name,
    number: u32,
    object: u8,
    op: &Op,
    count: u32,
    deps: &Deps,
) -> Result<Vec<u8>, NoMemory>
    requires { IsWritableBody (bodies.Call action.now number object op.now count deps.now) }
    ensures ok { IfOk result (λ text. text.items ≡ out.items ++ bytes_of_body (bodies.Call action.now number object op.now count deps.now)) }
    ensures range { OnOk result (IsBody (bodies.Call action.now number object op.now count deps.now)) }
{
    let out = write_tagged_name(out, CALL, action)?;
    let out = write_number(out, number)?;
    let out = write_object(out, object)?;
    let out = write_op(out, op)?;
    let out = write_number(out, count)?;
    write_deps(out, deps)
}

/// An Answer, written after what was written.
fn write_answer(
    out: Vec<u8>,
    action: &Name,
    number: u32,
    reply: &Reply,
) -> Result<Vec<u8>, NoMemory>
    requires { IsWritableBody (bodies.Answer action.now number reply.now) }
    ensures ok { IfOk result (λ text. text.items ≡ out.items ++ bytes_of_body (bodies.Answer action.now number reply.now)) }
    ensures range { OnOk result (IsBody (bodies.Answer action.now number reply.now)) }
{
    let out = write_tagged_name(out, ANSWER, action)?;
    let out = write_number(out, number)?;
    write_reply(out, reply)
}

/// A Finish, written after what was written.
fn write_finish(out: Vec<u8>, action: &Name, value: i64, deps: &Deps) -> Result<Vec<u8>, NoMemory>
    ensures ok { IfOk result (λ text. text.items ≡ out.items ++ bytes_of_body (bodies.Finish action.now value deps.now)) }
    ensures range { OnOk result (IsBody (bodies.Finish action.now value deps.now)) }
{
    let out = write_tagged_name(out, FINISH, action)?;
    let out = write_value(out, value)?;
    write_deps(out, deps)
}

/// A Prepare, written after what was written.
fn write_prepare(out: Vec<u8>, family: &Name, count: u32) -> Result<Vec<u8>, NoMemory>
    requires { IsWritableBody (bodies.Prepare family.now count) }
    ensures ok { IfOk result (λ text. text.items ≡ out.items ++ bytes_of_body (bodies.Prepare family.now count)) }
    ensures range { OnOk result (IsBody (bodies.Prepare family.now count)) }
{
    let out = write_tagged_family(out, PREPARE, family)?;
    write_number(out, count)
}

/// A Vote, written after what was written.
fn write_vote(out: Vec<u8>, family: &Name, count: u32, yes: bool) -> Result<Vec<u8>, NoMemory>
    requires { IsWritableBody (bodies.Vote family.now count yes) }
    ensures ok { IfOk result (λ text. text.items ≡ out.items ++ bytes_of_body (bodies.Vote family.now count yes)) }
    ensures range { OnOk result (IsBody (bodies.Vote family.now count yes)) }
{
    let out = write_tagged_family(out, VOTE, family)?;
    let out = write_number(out, count)?;
    write_byte(out, if yes { 1 } else { 0 })
}

/// A body, written after what was written.
pub fn write_body(out: Vec<u8>, body: &Body) -> Result<Vec<u8>, NoMemory>
    requires { IsWritableBody body.now }
    ensures ok { IfOk result (λ text. text.items ≡ out.items ++ bytes_of_body body.now) }
    ensures range { OnOk result (IsBody body.now) }
{
    match body {
        Body::Start { child, deps } => write_start(out, child, deps),
        Body::Call {
            action,
            number,
            object,
            op,
            count,
            deps,
        } => write_call(out, action, *number, *object, op, *count, deps),
        Body::Answer {
            action,
            number,
            reply,
        } => write_answer(out, action, *number, reply),
        Body::Finish {
            action,
            value,
            deps,
        } => write_finish(out, action, *value, deps),
        Body::Quit { action } => write_tagged_name(out, QUIT, action),
        Body::Prepare { family, count } => write_prepare(out, family, *count),
        Body::Vote { family, count, yes } => write_vote(out, family, *count, *yes),
        Body::Query { family } => write_tagged_family(out, QUERY, family),
        Body::News => write_byte(out, NEWS),
    }
}
