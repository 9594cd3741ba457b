//! The locks of one mode on one object: of each holder its first operation, in order.
ghost use Rattle.std.specs.Prelude.{◌≡◌, ◌≤◌, ◌<◌, filter, not, OnOk};
ghost use Rattle.std.specs.VecDeque.{deque_len, deque_capacity};
ghost use Rattle.cam_type.specs.Moss.{is_in_the_way};
ghost use Rattle.cam_locks.specs.Changes.{lift_eq, leads, holder_in, has_ended, depth_of, first_standing, with_leader, LeadersStay};

use crate::LiveOp;
use crate::live::Live;
use crate::names::Names;
use cam_base::NoMemory;
use cam_names::Name;
use std::collections::VecDeque;

/// A lift stands in the way where it is neither past the top nor an ancestor.
pub(crate) fn is_in_the_way(name: &Name, lift: &Option<Name>) -> bool
    ensures { result ≡ is_in_the_way name.now lift.now }
{
    match lift {
        Some(holder) => !holder.is_ancestor(name),
        None => false,
    }
}

/// Whether two lifts are the same.
pub(crate) fn is_same_lift(one: &Option<Name>, other: &Option<Name>) -> bool
    ensures { result ≡ lift_eq one.now other.now }
{
    match (one, other) {
        (None, None) => true,
        (Some(one), Some(other)) => one == other,
        _ => false,
    }
}

/// Whether an operation is live and has this lift.
fn leads(live: &Live, committed: &Names, leader: &LiveOp, lift: &Option<Name>) -> bool
    ensures { result ≡ leads committed.now.names live.now.ops lift.now leader.now }
{
    is_same_lift(&committed.lift(&leader.action), lift) && live.has(leader.index)
}

/// The holder of a lock. There is none if the lock has ended: it is dead or past the top.
fn holder(live: &Live, committed: &Names, leader: &LiveOp) -> Option<Name>
    ensures { result ≡ holder_in committed.now.names live.now.ops leader.now }
{
    if live.has(leader.index) {
        committed.lift(&leader.action)
    } else {
        None
    }
}

/// The depth of a holder, and 0 if there is none.
fn depth_of(holder: &Option<Name>) -> usize
    ensures value { result ≡ depth_of holder.now }
    ensures range { result ≤ 8 }
{
    match holder {
        Some(holder) => holder.depth(),
        None => 0,
    }
}

/// The first that is live and stands in the way of the action. Of those before it, whose holders are ancestors of the action, the first
/// of each holder is kept.
pub(crate) fn first_in_the_way(
    leaders: &mut VecDeque<LiveOp>,
    live: &Live,
    committed: &Names,
    name: &Name,
) -> Option<LiveOp>
    ensures kept { LeadersStay committed.now.names live.now.ops
        leaders.old.items leaders.new.items }
    ensures value { result
        ≡ first_standing committed.now.names live.now.ops name.now leaders.new.items }
{
    // By depth, whether a lock of the holder there was gone past. A lock that has ended has depth 0, and is left out.
    let mut is_past = [false; 9];
    is_past[0] = true;
    let mut place = 0;
    while place < leaders.len() {
        let leader = leaders[place];
        let holder = holder(live, committed, &leader);
        if is_in_the_way(name, &holder) {
            return Some(leader);
        }
        let depth = depth_of(&holder);
        if is_past[depth] {
            leaders.remove(place);
        } else {
            is_past[depth] = true;
            place += 1;
        }
    }
    None
}

/// Whether a lock has ended.
fn has_ended(live: &Live, committed: &Names, leader: &LiveOp) -> bool
    ensures { result ≡ has_ended committed.now.names live.now.ops leader.now }
{
    holder(live, committed, leader).is_none()
}

/// Leaves out the locks that have ended.
fn drop_ended(leaders: &mut VecDeque<LiveOp>, live: &Live, committed: &Names)
    ensures { leaders.new.items
        ≡ filter (λ t. not (has_ended committed.now.names live.now.ops t)) leaders.old.items }
{
    leaders.retain(|leader| !has_ended(live, committed, leader));
}

/// Makes room for one more lock. If there is none, the locks that have ended are left out, and then room is made for as many as are
/// left: the next time comes only after as many more.
pub(crate) fn make_room(
    leaders: &mut VecDeque<LiveOp>,
    live: &Live,
    committed: &Names,
) -> Result<(), NoMemory>
    ensures kept { LeadersStay committed.now.names live.now.ops
        leaders.old.items leaders.new.items }
    ensures ok { OnOk result (deque_len leaders.new < deque_capacity leaders.new) }
{
    if leaders.len() < leaders.capacity() {
        return Ok(());
    }
    drop_ended(leaders, live, committed);
    leaders.reserve(leaders.len().max(1))?;
    Ok(())
}

/// Adds a lock, for which there is room, unless the last one leads it.
pub(crate) fn add(
    leaders: &mut VecDeque<LiveOp>,
    operation: &LiveOp,
    live: &Live,
    committed: &Names,
)
    requires { deque_len leaders.old < deque_capacity leaders.old }
    ensures { leaders.new.items
        ≡ with_leader committed.now.names live.now.ops leaders.old.items operation.now }
{
    let lift = committed.lift(&operation.action);
    let is_led = match leaders.back() {
        Some(last) => leads(live, committed, last, &lift),
        None => false,
    };
    if !is_led {
        leaders.push_back_reserved(*operation);
    }
}
