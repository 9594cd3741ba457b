//! Operations, answers and reasons in words.
ghost use Rattle.std.specs.Prelude.{◌≡◌, ◌++◌, OnOk, codes, string_bytes};
ghost use Rattle.std.specs.Fmt.{signed_decimal};
ghost use Rattle.cam_scope.specs.Words.{answer_text, object_word, op_text, reason_text, seen_text};

use crate::names::Names;
use crate::numbers::{push_number, push_value};
use cam_base::NoMemory;
use cam_event::Seen;
use cam_know::Reason;
use cam_script::Labels;
use cam_type::{Answer, Op};
use std::alloc::Global;

/// The script's name of an object, which is empty where it has none.
pub fn object_text(labels: &Labels, object: u8) -> &str
    ensures { result.now ≡ object_word labels.now object }
{
    match labels.get(object as usize) {
        Some(label) => label.as_str(),
        None => "",
    }
}

/// Appends a word and a value.
fn push_valued(out: &mut String, word: &str, value: i64) -> Result<(), NoMemory>
    ensures { OnOk result (string_bytes out.new ≡ string_bytes out.old ++ word.now ++ codes " " ++ signed_decimal value) }
{
    out.push_str(word)?;
    out.push_str(" ")?;
    push_value(out, value)
}

/// Appends an operation, as a script spells it.
pub fn write_op(op: &Op, out: &mut String) -> Result<(), NoMemory>
    ensures { OnOk result (string_bytes out.new ≡ string_bytes out.old ++ op_text op.now) }
{
    match op {
        Op::Read => Ok(out.push_str("read")?),
        Op::Write(value) => push_valued(out, "write", *value),
        Op::Swap(value) => push_valued(out, "swap", *value),
        Op::Size => Ok(out.push_str("size")?),
        Op::Put(value) => push_valued(out, "put", *value),
        Op::Take => Ok(out.push_str("take")?),
        Op::Add(value) => push_valued(out, "add", *value),
    }
}

/// Appends what an operation answered: `ok`, a value, or `empty`.
pub fn write_answer(answer: &Answer, out: &mut String) -> Result<(), NoMemory>
    ensures { OnOk result (string_bytes out.new ≡ string_bytes out.old ++ answer_text answer.now) }
{
    match answer {
        Answer::Ok => Ok(out.push_str("ok")?),
        Answer::Value(value) => push_value(out, *value),
        Answer::Empty => Ok(out.push_str("empty")?),
    }
}

/// Appends what an action got to see of a call: an answer, `busy` with the holder's name, or
/// `gone`.
pub fn write_seen(
    alloc: Global,
    names: &Names,
    seen: &Seen,
    out: &mut String,
) -> Result<(), NoMemory>
    ensures { OnOk result (string_bytes out.new ≡ string_bytes out.old
        ++ seen_text names.now seen.now) }
{
    match seen {
        Seen::Done(answer) => write_answer(answer, out),
        Seen::Busy(holder) => {
            out.push_str("busy ")?;
            names.write_name(alloc, holder, out)
        }
        Seen::Gone => Ok(out.push_str("gone")?),
    }
}

/// Appends why an action was stopped: `abort T`, or `crash 2 1 2` with the node, the count that was
/// visited and the known one.
pub fn write_reason(
    alloc: Global,
    names: &Names,
    reason: &Reason,
    out: &mut String,
) -> Result<(), NoMemory>
    ensures { OnOk result (string_bytes out.new ≡ string_bytes out.old
        ++ reason_text names.now reason.now) }
{
    match reason {
        Reason::Abort(ancestor) => {
            out.push_str("abort ")?;
            names.write_name(alloc, ancestor, out)
        }
        Reason::Crash { node, old, new } => {
            out.push_str("crash ")?;
            push_number(out, u64::from(*node))?;
            out.push_str(" ")?;
            push_number(out, u64::from(*old))?;
            out.push_str(" ")?;
            push_number(out, u64::from(*new))
        }
    }
}
