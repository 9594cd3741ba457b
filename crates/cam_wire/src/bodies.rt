// How the body of a letter is read: a tag, then its fields.
ghost use Rattle.std.specs.Prelude.{◌≡◌, ◌<◌, ◌≤◌, length, IfOk};
ghost use Rattle.cam_wire.specs.ReadingBodies.{start_at, call_at, answer_at, finish_at, quit_at, prepare_at, vote_at, query_at, body_of, body_at};

use crate::replies::reply_at;
use cam_bytes::{
    WireFault, byte_at, byte_in, deps_at, family_at, name_at, number_in, object_at, op_at, value_at,
};
use cam_event::Body;
use cam_names::Part;

pub(crate) const START: u8 = 1;

pub(crate) const CALL: u8 = 2;

pub(crate) const ANSWER: u8 = 3;

pub(crate) const FINISH: u8 = 4;

pub(crate) const QUIT: u8 = 5;

pub(crate) const PREPARE: u8 = 6;

pub(crate) const VOTE: u8 = 7;

pub(crate) const QUERY: u8 = 8;

pub(crate) const NEWS: u8 = 9;

/// The fields of a Start, and the place after them.
#[tactic(auto, unfolding(crate::specs::ReadingBodies::start_at))]
fn start_at(bytes: &[u8], at: usize) -> Result<(Body, usize), WireFault>
    requires { at ≤ length bytes.now }
    ensures value { result ≡ start_at at bytes.now }
    ensures end { IfOk result (λ read. (at ≤ read.1) × (read.1 ≤ length bytes.now)) }
{
    let (child, at) = name_at(bytes, at)?;
    let (deps, at) = deps_at(bytes, at)?;
    let body = Body::Start { child, deps };
    Ok((body, at))
}

/// The fields of a Call, and the place after them.
#[tactic(auto, unfolding(crate::specs::ReadingBodies::call_at))]
fn call_at(bytes: &[u8], at: usize) -> Result<(Body, usize), WireFault>
    requires { at ≤ length bytes.now }
    ensures value { result ≡ call_at at bytes.now }
    ensures end { IfOk result (λ read. (at ≤ read.1) × (read.1 ≤ length bytes.now)) }
{
    let (action, at) = name_at(bytes, at)?;
    let (number, at) = number_in(bytes, at, 1, Part::LAST)?;
    let (object, at) = object_at(bytes, at)?;
    let (op, at) = op_at(bytes, at)?;
    let (count, at) = number_in(bytes, at, 1, Part::LAST)?;
    let (deps, at) = deps_at(bytes, at)?;
    let body = Body::Call {
        action,
        number,
        object,
        op,
        count,
        deps,
    };
    Ok((body, at))
}

/// The fields of an Answer, and the place after them.
#[tactic(auto, unfolding(crate::specs::ReadingBodies::answer_at))]
fn answer_at(bytes: &[u8], at: usize) -> Result<(Body, usize), WireFault>
    requires { at ≤ length bytes.now }
    ensures value { result ≡ answer_at at bytes.now }
    ensures end { IfOk result (λ read. (at ≤ read.1) × (read.1 ≤ length bytes.now)) }
{
    let (action, at) = name_at(bytes, at)?;
    let (number, at) = number_in(bytes, at, 1, Part::LAST)?;
    let (reply, at) = reply_at(bytes, at)?;
    let body = Body::Answer {
        action,
        number,
        reply,
    };
    Ok((body, at))
}

/// The fields of a Finish, and the place after them.
#[tactic(auto, unfolding(crate::specs::ReadingBodies::finish_at))]
fn finish_at(bytes: &[u8], at: usize) -> Result<(Body, usize), WireFault>
    requires { at ≤ length bytes.now }
    ensures value { result ≡ finish_at at bytes.now }
    ensures end { IfOk result (λ read. (at ≤ read.1) × (read.1 ≤ length bytes.now)) }
{
    let (action, at) = name_at(bytes, at)?;
    let (value, at) = value_at(bytes, at)?;
    let (deps, at) = deps_at(bytes, at)?;
    let body = Body::Finish {
        action,
        value,
        deps,
    };
    Ok((body, at))
}

/// The fields of a Quit, and the place after them.
#[tactic(auto, unfolding(crate::specs::ReadingBodies::quit_at))]
fn quit_at(bytes: &[u8], at: usize) -> Result<(Body, usize), WireFault>
    requires { at ≤ length bytes.now }
    ensures value { result ≡ quit_at at bytes.now }
    ensures end { IfOk result (λ read. (at ≤ read.1) × (read.1 ≤ length bytes.now)) }
{
    let (action, at) = name_at(bytes, at)?;
    let body = Body::Quit { action };
    Ok((body, at))
}

/// The fields of a Prepare, and the place after them.
#[tactic(auto, unfolding(crate::specs::ReadingBodies::prepare_at))]
fn prepare_at(bytes: &[u8], at: usize) -> Result<(Body, usize), WireFault>
    requires { at ≤ length bytes.now }
    ensures value { result ≡ prepare_at at bytes.now }
    ensures end { IfOk result (λ read. (at ≤ read.1) × (read.1 ≤ length bytes.now)) }
{
    let (family, at) = family_at(bytes, at)?;
    let (count, at) = number_in(bytes, at, 1, Part::LAST)?;
    let body = Body::Prepare { family, count };
    Ok((body, at))
}

/// The fields of a Vote, and the place after them.
#[tactic(auto, unfolding(crate::specs::ReadingBodies::vote_at))]
fn vote_at(bytes: &[u8], at: usize) -> Result<(Body, usize), WireFault>
    requires { at ≤ length bytes.now }
    ensures value { result ≡ vote_at at bytes.now }
    ensures end { IfOk result (λ read. (at ≤ read.1) × (read.1 ≤ length bytes.now)) }
{
    let (family, at) = family_at(bytes, at)?;
    let (count, at) = number_in(bytes, at, 1, Part::LAST)?;
    let (yes, at) = byte_in(bytes, at, 0, 1)?;
    let body = Body::Vote {
        family,
        count,
        yes: yes == 1,
    };
    Ok((body, at))
}

/// The fields of a Query, and the place after them.
#[tactic(auto, unfolding(crate::specs::ReadingBodies::query_at))]
fn query_at(bytes: &[u8], at: usize) -> Result<(Body, usize), WireFault>
    requires { at ≤ length bytes.now }
    ensures value { result ≡ query_at at bytes.now }
    ensures end { IfOk result (λ read. (at ≤ read.1) × (read.1 ≤ length bytes.now)) }
{
    let (family, at) = family_at(bytes, at)?;
    let body = Body::Query { family };
    Ok((body, at))
}

/// A body whose tag, which stands at `at`, was read, and the place after it.
#[tactic(auto, unfolding(crate::specs::ReadingBodies::body_of))]
fn body_of(bytes: &[u8], at: usize, tag: u8, behind: usize) -> Result<(Body, usize), WireFault>
    requires { behind ≤ length bytes.now }
    ensures value { result ≡ body_of tag at behind bytes.now }
    ensures end { IfOk result (λ read. (behind ≤ read.1) × (read.1 ≤ length bytes.now)) }
{
    match tag {
        START => start_at(bytes, behind),
        CALL => call_at(bytes, behind),
        ANSWER => answer_at(bytes, behind),
        FINISH => finish_at(bytes, behind),
        QUIT => quit_at(bytes, behind),
        PREPARE => prepare_at(bytes, behind),
        VOTE => vote_at(bytes, behind),
        QUERY => query_at(bytes, behind),
        NEWS => Ok((Body::News, behind)),
        _ => Err(WireFault::BadTag(at as u64)),
    }
}

/// A body at a place, and the place after it.
#[tactic(auto, unfolding(crate::specs::ReadingBodies::body_at))]
pub fn body_at(bytes: &[u8], at: usize) -> Result<(Body, usize), WireFault>
    requires { at ≤ length bytes.now }
    ensures value { result ≡ body_at at bytes.now }
    ensures end { IfOk result (λ read. (at < read.1) × (read.1 ≤ length bytes.now)) }
{
    let (tag, behind) = byte_at(bytes, at)?;
    body_of(bytes, at, tag, behind)
}
