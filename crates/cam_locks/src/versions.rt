//! The versions of one object: of each holder of a write lock the state after its last write, in order.
ghost use Rattle.std.specs.Prelude.{◌≡◌, true, [], ◌∷◌, ◌++◌, slice_get, option_and_then, IfOk, OnOk, OnErr, ◌≤◌, ◌<◌, vec_len};
ghost use Rattle.std.specs.Vec.{vec_capacity};
ghost use Rattle.cam_type.specs.declared.State.{State as StateValue};
ghost use Rattle.cam_type.specs.declared.Mode.TheVariants.{Write as WriteMode};
ghost use Rattle.cam_type.specs.Table.{kind_of, fits, mode_of, state_after, answer_of};
ghost use Rattle.cam_locks.specs.Holding.{has_op};
ghost use Rattle.cam_locks.specs.Changes.{is_current, is_outdated, last_settled, state_of, last_state, met, LastIsLive, with_write, VersionsStay};
ghost use Rattle.cam_locks.specs.Kinds.{AreOfKind, KindsStay};
ghost use Rattle.cam_locks.specs.Sums.{IsStart};

use crate::LiveOp;
use crate::leaders::is_same_lift;
use crate::live::Live;
use crate::names::Names;
use cam_base::NoMemory;
use cam_type::{Answer, DataType, Op, State};

/// The state of an object after a write.
#[derive(Drop)]
pub(crate) struct Version {
    pub(crate) last: LiveOp,
    pub(crate) state: State,
}

impl Version {
    /// An equal version.
    fn copy(&self) -> Result<Version, NoMemory>
        ensures { IfOk result (λ copy. copy ≡ self.now) }
    {
        Ok(Version {
            last: self.last,
            state: self.state.copy()?,
        })
    }
}

/// An equal list.
pub(crate) fn copy(versions: &Vec<Version>) -> Result<Vec<Version>, NoMemory>
    ensures { IfOk result (λ copy. copy.items ≡ versions.now.items) }
{
    let mut copies = Vec::new(*versions.allocator());
    for version in versions.as_slice() {
        copies.push(version.copy()?)?;
    }
    Ok(copies)
}

/// Whether the version is of a live write that is past the top.
fn is_settled(live: &Live, committed: &Names, version: &Version) -> bool
    ensures { result ≡ is_current committed.now.names live.now.ops true version.now }
{
    live.has(version.last.index) && committed.lift(&version.last.action).is_none()
}

/// The place of the last version of a live write that is past the top.
fn last_settled(versions: &[Version], live: &Live, committed: &Names) -> Option<usize>
    ensures { last_settled committed.now.names live.now.ops versions.now
        ≡ option_and_then (slice_get versions.now) result }
{
    let mut place = versions.len();
    while place > 0 {
        place -= 1;
        if is_settled(live, committed, &versions[place]) {
            return Some(place);
        }
    }
    None
}

/// The state after the last live write that is past the top, or else the start state.
pub(crate) fn settled(
    versions: &[Version],
    live: &Live,
    committed: &Names,
    start: &State,
) -> Result<State, NoMemory>
    ensures { IfOk result (λ state. state
        ≡ state_of start.now (last_settled committed.now.names live.now.ops versions.now)) }
{
    let Some(place) = last_settled(versions, live, committed) else {
        return Ok(start.copy()?);
    };
    match versions.get(place) {
        Some(version) => Ok(version.state.copy()?),
        None => Ok(start.copy()?),
    }
}

/// Lets a server hold the state that was written last.
fn load_last<T: DataType>(
    versions: &[Version],
    start: &State,
    server: &mut T,
) -> Result<(), NoMemory>
    requires kind { T.kind server.old ≡ kind_of start.now }
    requires kinds { AreOfKind (kind_of start.now) versions.now }
    ensures kind_stays { T.kind server.new ≡ T.kind server.old }
    ensures ok { OnOk result (T.held server.new ≡ last_state start.now versions.now) }
{
    match versions.len().checked_sub(1) {
        Some(last) => server.load(&versions[last].state),
        None => server.load(start),
    }
}

/// Lets a server hold the state that an operation meets: of a counter the start state with the sum of all adds, else the last one.
fn load_met<T: DataType>(
    versions: &[Version],
    start: &State,
    sum: i64,
    server: &mut T,
) -> Result<(), NoMemory>
    requires kind { T.kind server.old ≡ kind_of start.now }
    requires kinds { AreOfKind (kind_of start.now) versions.now }
    ensures kind_stays { T.kind server.new ≡ T.kind server.old }
    ensures ok { OnOk result (T.held server.new ≡ met start.now versions.now sum) }
    ensures range { IsStart start.now }
{
    match start {
        State::Register(_) | State::Queue(_) => load_last(versions, start, server),
        State::Counter(value) => server.load(&State::Counter(value.wrapping_add(sum))),
    }
}

/// Has a server do an operation in the state that it meets.
pub(crate) fn serve<T: DataType>(
    versions: &[Version],
    start: &State,
    sum: i64,
    op: &Op,
    server: &mut T,
) -> Result<Answer, NoMemory>
    requires kind { T.kind server.old ≡ kind_of start.now }
    requires kinds { AreOfKind (kind_of start.now) versions.now }
    requires fits { fits (kind_of start.now) op.now ≡ true }
    ensures kind_stays { T.kind server.new ≡ T.kind server.old }
    ensures after { OnOk result (T.held server.new
        ≡ state_after (met start.now versions.now sum) op.now) }
    ensures answer { IfOk result (λ answer. answer
        ≡ answer_of (met start.now versions.now sum) op.now) }
    ensures range { OnOk result (IsStart start.now) }
{
    load_met(versions, start, sum, server)?;
    server.apply(op)
}

/// Has a server do a write, and keeps the state after it. Where memory is wanting the versions are as before.
pub(crate) fn write<T: DataType>(
    versions: &mut Vec<Version>,
    start: &State,
    sum: i64,
    operation: &LiveOp,
    committed: &Names,
    server: &mut T,
) -> Result<Answer, NoMemory>
    requires kind { T.kind server.old ≡ kind_of start.now }
    requires kinds { AreOfKind (kind_of start.now) versions.old.items }
    requires fits { fits (kind_of start.now) operation.now.op ≡ true }
    requires mode { mode_of operation.now.op ≡ WriteMode }
    ensures kind_stays { T.kind server.new ≡ T.kind server.old }
    ensures after { OnOk result (T.held server.new
        ≡ state_after (met start.now versions.old.items sum) operation.now.op) }
    ensures ok { OnOk result (versions.new.items
        ≡ with_write committed.now.names start.now versions.old.items operation.now) }
    ensures err { OnErr result (versions.new.items ≡ versions.old.items) }
    ensures answer { IfOk result (λ answer. answer
        ≡ answer_of (met start.now versions.old.items sum) operation.now.op) }
    ensures range { OnOk result (IsStart start.now) }
{
    versions.reserve(1)?;
    let answer = serve(versions.as_slice(), start, sum, &operation.op, server)?;
    let state = server.save()?;
    put(versions, operation, state, committed);
    Ok(answer)
}

/// Keeps the state after a write: in the place of the last version where that is its holder's, and else after it.
fn put(versions: &mut Vec<Version>, operation: &LiveOp, state: State, committed: &Names)
    requires { vec_len versions.old < vec_capacity versions.old }
    ensures { (start : StateValue)
        → state ≡ state_after (last_state start versions.old.items) operation.now.op
        → versions.new.items
        ≡ with_write committed.now.names start versions.old.items operation.now }
{
    let version = Version {
        last: *operation,
        state,
    };
    let Some(last) = versions.len().checked_sub(1) else {
        versions.push_reserved(version);
        return;
    };
    let lift = committed.lift(&operation.action);
    if is_same_lift(&committed.lift(&versions[last].last.action), &lift) {
        versions[last] = version;
    } else {
        versions.push_reserved(version);
    }
}

/// Whether a version need not be kept beside a later one: it is dead, or both have one holder.
fn is_outdated(live: &Live, committed: &Names, version: &Version, later: &Version) -> bool
    ensures { result ≡ is_outdated committed.now.names live.now.ops version.now later.now }
{
    !live.has(version.last.index)
        || is_same_lift(
            &committed.lift(&version.last.action),
            &committed.lift(&later.last.action),
        )
}

/// Leaves out the last versions as long as they are dead, and then those before the last as long as they need not be kept.
pub(crate) fn tidy(versions: &mut Vec<Version>, live: &Live, committed: &Names)
    ensures kept { VersionsStay committed.now.names live.now.ops
        versions.old.items versions.new.items }
    ensures last { LastIsLive live.now.ops versions.new.items }
    ensures kinds { KindsStay versions.old.items versions.new.items }
{
    while let Some(last) = versions.pop() {
        if live.has(last.last.index) {
            drop_older(versions, live, committed, &last);
            versions.push_reserved(last);
            return;
        }
    }
}

/// Leaves out versions as long as they need not be kept beside a later one.
fn drop_older(versions: &mut Vec<Version>, live: &Live, committed: &Names, later: &Version)
    requires { has_op live.now.ops later.now.last.index ≡ true }
    ensures kept { VersionsStay committed.now.names live.now.ops
        (versions.old.items ++ later.now ∷ []) (versions.new.items ++ later.now ∷ []) }
    ensures len { vec_len versions.new ≤ vec_len versions.old }
    ensures capacity { vec_capacity versions.new ≡ vec_capacity versions.old }
    ensures kinds { KindsStay versions.old.items versions.new.items }
{
    while let Some(version) = versions.pop() {
        if !is_outdated(live, committed, &version, later) {
            versions.push_reserved(version);
            return;
        }
    }
}
