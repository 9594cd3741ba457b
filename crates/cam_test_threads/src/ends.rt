//! Turns of what a hall leaves.
ghost use Rattle.std.specs.Prelude.{◌≡◌, IfSome, IfOk};
ghost use Rattle.cam_journal.specs.Rule.{IsNode};
ghost use Rattle.cam_journal.specs.Seats.{AreNew};
ghost use Rattle.cam_hall.specs.Ending.{HasLetter};
ghost use Rattle.cam_test_threads.specs.Speaking.{sends, HasRemark};

use crate::check::same;
use crate::ring::{Plan, Troubles, gather, ring};
use crate::speaker::{Remark, Speaker, Speech};
use cam_hall::{Ended, HallFault, Names, Turned, TurnedOf};
use cam_journal::{CoreFault, Journal, NodeSeat, Seats};
use std::alloc::Global;
use std::marker::Brand;
use std::process::Abort;
use std::test::Fail;

// Node `n` says 6 + n first.
type Row = Speaker<6, 2>;

/// What a turn came to, as a test compares it.
#[derive(Clone, Copy, Debug, PartialEq, Eq)]
enum Seen {
    Did {
        number: u64,
        notes: usize,
        short: bool,
    },
    Nothing,
    Full,
    Failed(HallFault),
}

fn told(answer: Result<Turned<Row>, HallFault>) -> Seen {
    match answer {
        Ok(
            TurnedOf::Did {
                number,
                notes,
                short,
            },
        ) => Seen::Did {
            number,
            notes: notes.len(),
            short,
        },
        Ok(TurnedOf::Nothing) => Seen::Nothing,
        Ok(TurnedOf::Full) => Seen::Full,
        Err(fault) => Seen::Failed(fault),
    }
}

/// What a hall of a new journal leaves in which no worker worked: nodes 1 and 2 are sound, node 3 has a disk that fails once, and node 4
/// is out of memory once. Each has one remark to speak.
fn leave_in<J: Names>(
    alloc: Global,
    journal: Journal<Row>,
    seats: Seats<Row>,
) -> Result<Ended<Row>, Fail>
    requires own { journal.id ≡ J.journal }
    requires nodes { journal.nodes ≡ 4 }
    requires seats { AreNew journal.id 4 seats.items }
    ensures { IfOk result (λ ended. ended.journal.nodes ≡ 4) }
{
    let plan = Plan {
        shares: [1; 4],
        twice: true,
        troubles: Troubles {
            third: Some(CoreFault::DiskFault),
            fourth: Some(CoreFault::NoMemory),
        },
    };
    Ok(ring::<6, 2, J>(alloc, journal, seats, plan)?.end())
}

/// What such a hall leaves.
fn leave(alloc: Global) -> Result<Ended<Row>, Fail>
    ensures { IfOk result (λ ended. ended.journal.nodes ≡ 4) }
{
    let (journal, seats) = Journal::<Row>::open(alloc, 4)?;
    leave_in::<Brand>(alloc, journal, seats)
}

/// A turn of a node, as a test compares it.
fn turn(ended: &mut Ended<Row>, node: u8, letter: Option<(u64, u32)>) -> Seen
    requires node { IsNode 4 node }
    requires nodes { ended.old.journal.nodes ≡ 4 }
    requires letter { IfSome letter
        (λ name. HasLetter sends (λ remark. remark.to) ended.old.seats node name.0 name.1) }
    ensures { ended.new.journal ≡ ended.old.journal }
{
    told(ended.turn(node, letter))
}

/// Two turns of a node by itself.
fn two_turns(ended: &mut Ended<Row>, node: u8) -> (Seen, Seen)
    requires node { IsNode 4 node }
    requires nodes { ended.old.journal.nodes ≡ 4 }
    ensures { ended.new.journal ≡ ended.old.journal }
{
    let first = turn(ended, node, None);
    (first, turn(ended, node, None))
}

/// The number of an event that spoke to node 2, and the turn of that node with its letter.
fn hear(ended: &mut Ended<Row>) -> Option<(u64, Seen)>
    requires { ended.old.journal.nodes ≡ 4 }
    ensures { ended.new.journal ≡ ended.old.journal }
{
    let number = remark_to(ended, 2)?;
    Some((number, turn(ended, 2, Some((number, 0)))))
}

/// The number of an event that spoke to a node.
#[tactic(auto, using(crate::proofs::Remarks::letter_found))]
fn remark_to(ended: &Ended<Row>, node: u8) -> Option<u64>
    ensures { IfSome result
        (λ number. HasLetter sends (λ remark. remark.to) ended.now.seats node number 0) }
{
    let seats = ended.seats();
    for at in 0..seats.len() {
        if let Some(number) = remark_in(&seats[at], node) {
            return Some(number);
        }
    }
    None
}

/// The number of an event of a seat that spoke to a node.
#[tactic(auto, using(crate::proofs::Remarks::remark_found))]
fn remark_in(seat: &NodeSeat<Row>, node: u8) -> Option<u64>
    ensures { IfSome result (λ number. HasRemark seat.now.history node number) }
{
    for at in 0..seat.len() {
        if let Some((number, Speech::Spoken(remark))) = seat.get(at) {
            if remark.to == node {
                return Some(number);
            }
        }
    }
    None
}

/// A turn that makes an event of this number, and no note.
fn did(number: u64) -> Seen {
    Seen::Did {
        number,
        notes: 0,
        short: false,
    }
}

/// A remark to a node, which comes twice.
fn spoken(number: u64, to: u8) -> Speech {
    Speech::Spoken(Remark {
        number,
        to,
        twice: true,
    })
}

/// Fails where what is gathered is not the remarks of nodes 1, 3 and 4 and the answer of node 2.
fn check_events(rt: &impl Abort, ended: Ended<Row>) {
    let answer = Speech::Answer {
        number: 8,
        event: 0,
        place: 0,
    };
    let mut gathered = gather(ended);
    for want in [
        (0, spoken(7, 2)),
        (1, answer),
        (2, spoken(9, 4)),
        (3, spoken(10, 1)),
    ] {
        same(rt, gathered.take(), Some(want));
    }
    same(rt, gathered.take(), None);
}

#[test]
fn nodes_of_what_is_left_go_on_by_themselves_and_with_letters(rt: HostRuntime) -> Result<(), Fail> {
    let mut ended = leave(rt.alloc())?;
    same(&rt, remark_to(&ended, 2), None);
    same(&rt, two_turns(&mut ended, 1), (did(0), Seen::Nothing));
    same(&rt, hear(&mut ended), Some((0, did(1))));
    same(&rt, hear(&mut ended), Some((0, Seen::Nothing)));
    let broken = Seen::Failed(HallFault::DiskFault);
    same(&rt, two_turns(&mut ended, 3), (broken, did(2)));
    let short = Seen::Failed(HallFault::NoMemory);
    same(&rt, two_turns(&mut ended, 4), (short, did(3)));
    check_events(&rt, ended);
    Ok(())
}
