// Replies: a tag, and what some of them have.
ghost use Rattle.std.specs.Prelude.{◌≡◌, ◌<◌, ◌≤◌, ◌++◌, length, IfOk, OnOk};
ghost use Rattle.cam_wire.specs.Spelling.{reply as bytes_of_reply};
ghost use Rattle.cam_wire.specs.Ranges.{IsReply};
ghost use Rattle.cam_wire.specs.ReadingBodies.{reply_of, reply_at};

use cam_base::NoMemory;
use cam_bytes::{WireFault, byte_at, name_at, value_at, write_byte, write_name, write_value};
use cam_event::Reply;
use cam_type::Answer;

const OK: u8 = 1;

const VALUE: u8 = 2;

const EMPTY: u8 = 3;

const BUSY: u8 = 4;

const MISSED: u8 = 5;

const REFUSED: u8 = 6;

/// A reply whose tag, which stands at `at`, was read, and the place after it.
#[tactic(auto, unfolding(crate::specs::ReadingBodies::reply_of))]
fn reply_of(bytes: &[u8], at: usize, tag: u8, behind: usize) -> Result<(Reply, usize), WireFault>
    requires { behind ≤ length bytes.now }
    ensures value { result ≡ reply_of tag at behind bytes.now }
    ensures end { IfOk result (λ read. (behind ≤ read.1) × (read.1 ≤ length bytes.now)) }
{
    match tag {
        OK => Ok((Reply::Done(Answer::Ok), behind)),
        VALUE => {
            let (value, end) = value_at(bytes, behind)?;
            Ok((Reply::Done(Answer::Value(value)), end))
        }
        EMPTY => Ok((Reply::Done(Answer::Empty), behind)),
        BUSY => {
            let (holder, end) = name_at(bytes, behind)?;
            Ok((Reply::Busy(holder), end))
        }
        MISSED => Ok((Reply::Missed, behind)),
        REFUSED => Ok((Reply::Refused, behind)),
        _ => Err(WireFault::BadTag(at as u64)),
    }
}

/// A reply at a place, and the place after it.
#[tactic(auto, unfolding(crate::specs::ReadingBodies::reply_at))]
pub fn reply_at(bytes: &[u8], at: usize) -> Result<(Reply, usize), WireFault>
    requires { at ≤ length bytes.now }
    ensures value { result ≡ reply_at at bytes.now }
    ensures end { IfOk result (λ read. (at < read.1) × (read.1 ≤ length bytes.now)) }
{
    let (tag, behind) = byte_at(bytes, at)?;
    reply_of(bytes, at, tag, behind)
}

/// A reply, written after what was written.
pub fn write_reply(out: Vec<u8>, reply: &Reply) -> Result<Vec<u8>, NoMemory>
    ensures ok { IfOk result (λ text. text.items ≡ out.items ++ bytes_of_reply reply.now) }
    ensures range { OnOk result (IsReply reply.now) }
{
    match reply {
        Reply::Done(Answer::Ok) => write_byte(out, OK),
        Reply::Done(Answer::Value(value)) => write_value(write_byte(out, VALUE)?, *value),
        Reply::Done(Answer::Empty) => write_byte(out, EMPTY),
        Reply::Busy(holder) => write_name(write_byte(out, BUSY)?, holder),
        Reply::Missed => write_byte(out, MISSED),
        Reply::Refused => write_byte(out, REFUSED),
    }
}
