//! `cam_journal`: events and letters of two nodes in one order, from one thread and from two.

ghost use Rattle.std.specs.Prelude.{◌≡◌, [], ◌∷◌, IfSome, IfOk};
ghost use Rattle.cam_journal.specs.Seats.{AreNew};

mod numbers;

use crate::check::same;
use cam_journal::{Gathered, Journal, NodeSeat, Note, ReserveFault, Seats};
use numbers::Numbers;
use std::alloc::Global;
use std::process::Abort;
use std::test::Fail;
use std::thread::{Threads, join};

/// The seats of nodes 1 and 2.
fn two_seats(
    journal: &Journal<Numbers>,
    mut seats: Seats<Numbers>,
) -> Option<(NodeSeat<Numbers>, NodeSeat<Numbers>)>
    requires { AreNew journal.now.id 2 seats.items }
    ensures { IfSome result (λ two. (two.0.journal ≡ journal.now.id) × (two.0.node ≡ 1)
        × (two.0.history ≡ []) × (two.1.journal ≡ journal.now.id) × (two.1.node ≡ 2)) }
{
    let two = seats.pop()?;
    let one = seats.pop()?;
    Some((one, two))
}

/// A new journal of two nodes, with the seats of nodes 1 and 2.
fn open_two(alloc: Global) -> Result<(Journal<Numbers>, NodeSeat<Numbers>, NodeSeat<Numbers>), Fail>
    ensures nodes { IfOk result (λ r. r.0.nodes ≡ 2) }
    ensures one { IfOk result
        (λ r. (r.1.journal ≡ r.0.id) × (r.1.node ≡ 1) × (r.1.history ≡ [])) }
    ensures two { IfOk result (λ r. (r.2.journal ≡ r.0.id) × (r.2.node ≡ 2)) }
{
    let (journal, seats) = Journal::<Numbers>::open(alloc, 2)?;
    let (one, two) = two_seats(&journal, seats).ok_or("two seats")?;
    Ok((journal, one, two))
}

/// Gathers the events of two nodes.
fn gather_two(
    alloc: Global,
    journal: Journal<Numbers>,
    one: NodeSeat<Numbers>,
    two: NodeSeat<Numbers>,
) -> Result<Gathered<Numbers>, Fail>
    requires nodes { journal.nodes ≡ 2 }
    requires one { (one.journal ≡ journal.id) × (one.node ≡ 1) }
    requires two { (two.journal ≡ journal.id) × (two.node ≡ 2) }
{
    let mut seats = Vec::new(alloc);
    seats.push(two)?;
    seats.push(one)?;
    Ok(journal.gather(seats))
}

/// Makes room and records a number.
fn say(
    journal: &Journal<Numbers>,
    seat: &mut NodeSeat<Numbers>,
    number: u64,
) -> Result<u64, ReserveFault>
    requires { seat.old.journal ≡ journal.now.id }
    ensures { (seat.new.journal ≡ seat.old.journal) × (seat.new.node ≡ seat.old.node) }
{
    journal.reserve(seat)?;
    Ok(journal.record(seat, number))
}

/// Records a first number, and notes the letter of that event.
#[tactic(auto, using(crate::proofs::Pairs::first_letter))]
fn say_and_note(
    journal: &Journal<Numbers>,
    seat: &mut NodeSeat<Numbers>,
    number: u64,
) -> Result<(u64, Note<Numbers>), Fail>
    requires own { seat.old.journal ≡ journal.now.id }
    requires first { seat.old.history ≡ [] }
    ensures seat { (seat.new.journal ≡ seat.old.journal) × (seat.new.node ≡ seat.old.node) }
    ensures note { IfOk result (λ r. r.1.journal ≡ journal.now.id) }
{
    journal.reserve(seat)?;
    let at = journal.record(seat, number);
    Ok((at, journal.note(seat, at, 0)?))
}

/// What came of a letter and of a copy of it.
#[derive(Clone, Copy, Debug, PartialEq, Eq)]
struct Taken {
    /// The event that sent it.
    event: u64,
    /// The event and the place that the copy names.
    copied: (u64, u32),
    /// What was taken of the letter, and then of its copy.
    letters: (u64, u64),
}

/// Node 1 says 7 first, and node 2 takes the letter of that, and a copy of it.
fn say_and_take_twice(
    journal: &Journal<Numbers>,
    one: &mut NodeSeat<Numbers>,
    two: &mut NodeSeat<Numbers>,
) -> Result<Taken, Fail>
    requires one { one.old.journal ≡ journal.now.id }
    requires first { one.old.history ≡ [] }
    requires two { two.old.journal ≡ journal.now.id }
    ensures one { (one.new.journal ≡ one.old.journal) × (one.new.node ≡ one.old.node) }
    ensures two { (two.new.journal ≡ two.old.journal) × (two.new.node ≡ two.old.node) }
{
    let (event, mut note) = say_and_note(journal, one, 7)?;
    let copy = journal.copy_note(&mut note)?;
    let copied = (copy.number(), copy.place());
    let letter = journal.take_note(two, note);
    let again = journal.take_note(two, copy);
    Ok(Taken {
        event,
        copied,
        letters: (letter, again),
    })
}

/// What came of the letter of the first event, and the numbers of the two events after it.
#[derive(Clone, Copy, Debug, PartialEq, Eq)]
struct Told {
    taken: Taken,
    next: (u64, u64),
}

/// Node 1 says 7, of which node 2 takes the letter twice, then node 2 says 8, and node 1 says 9.
fn talk_in_turn(
    journal: &Journal<Numbers>,
    one: &mut NodeSeat<Numbers>,
    two: &mut NodeSeat<Numbers>,
) -> Result<Told, Fail>
    requires one { one.old.journal ≡ journal.now.id }
    requires first { one.old.history ≡ [] }
    requires two { two.old.journal ≡ journal.now.id }
    ensures one { (one.new.journal ≡ one.old.journal) × (one.new.node ≡ one.old.node) }
    ensures two { (two.new.journal ≡ two.old.journal) × (two.new.node ≡ two.old.node) }
{
    let taken = say_and_take_twice(journal, one, two)?;
    let second = say(journal, two, 8)?;
    let third = say(journal, one, 9)?;
    Ok(Told {
        taken,
        next: (second, third),
    })
}

/// What has to be told of the two nodes.
const TOLD: Told = Told {
    taken: Taken {
        event: 0,
        copied: (0, 0),
        letters: (7, 7),
    },
    next: (1, 2),
};

/// Fails where node 1 has not two events, of which the second is 9 and the third of all.
fn check_history(rt: &impl Abort, one: &NodeSeat<Numbers>) {
    same(
        rt,
        (one.len(), one.get(1), one.get(2)),
        (2, Some((2, &9)), None),
    );
}

/// Fails where the next event is another.
fn check_next(rt: &impl Abort, gathered: &mut Gathered<Numbers>, want: Option<(u64, u64)>) {
    same(rt, gathered.take(), want);
}

/// Fails where the events of both nodes are not 7, 8 and 9, numbered from 0.
fn check_events(rt: &impl Abort, mut gathered: Gathered<Numbers>) {
    check_next(rt, &mut gathered, Some((0, 7)));
    check_next(rt, &mut gathered, Some((1, 8)));
    check_next(rt, &mut gathered, Some((2, 9)));
    check_next(rt, &mut gathered, None);
}

#[test]
fn events_and_letters_of_two_nodes_come_in_one_order(rt: HostRuntime) -> Result<(), Fail> {
    let (journal, mut one, mut two) = open_two(rt.alloc())?;
    same(&rt, talk_in_turn(&journal, &mut one, &mut two)?, TOLD);
    check_history(&rt, &one);
    check_events(&rt, gather_two(rt.alloc(), journal, one, two)?);
    Ok(())
}

const EACH: u64 = 10_000;

/// Records as many numbers as one thread is to record, from this one on.
fn say_all(journal: &Journal<Numbers>, mut seat: NodeSeat<Numbers>, first: u64) -> NodeSeat<Numbers>
    requires { seat.journal ≡ journal.now.id }
    ensures { (result.journal ≡ seat.journal) × (result.node ≡ seat.node) }
{
    for number in 0..EACH {
        let Ok(_) = say(journal, &mut seat, first.wrapping_add(number)) else {
            return seat;
        };
    }
    seat
}

fn say_in_threads<R: Threads + Sync>(
    rt: &R,
    journal: &Journal<Numbers>,
    one: NodeSeat<Numbers>,
    two: NodeSeat<Numbers>,
) -> (NodeSeat<Numbers>, NodeSeat<Numbers>)
    requires one { one.journal ≡ journal.now.id }
    requires two { two.journal ≡ journal.now.id }
    ensures one { (result.0.journal ≡ one.journal) × (result.0.node ≡ one.node) }
    ensures two { (result.1.journal ≡ two.journal) × (result.1.node ≡ two.node) }
{
    join(
        rt,
        move || -> NodeSeat<Numbers>
            requires { one.journal ≡ journal.now.id }
            ensures { (result.journal ≡ one.journal) × (result.node ≡ one.node) }
        { say_all(journal, one, 0) },
        move || -> NodeSeat<Numbers>
            requires { two.journal ≡ journal.now.id }
            ensures { (result.journal ≡ two.journal) × (result.node ≡ two.node) }
        { say_all(journal, two, EACH) },
    )
}

/// How many numbers each of two nodes has said, and the events of both.
#[derive(Drop)]
struct Talked {
    said: (u64, u64),
    gathered: Gathered<Numbers>,
}

/// Two new nodes say their numbers, each in a thread of its own.
fn talk<R: Threads + Sync>(rt: &R, alloc: Global) -> Result<Talked, Fail> {
    let (journal, one, two) = open_two(alloc)?;
    let (one, two) = say_in_threads(rt, &journal, one, two);
    Ok(Talked {
        said: (one.len(), two.len()),
        gathered: gather_two(alloc, journal, one, two)?,
    })
}

/// What each of two threads is to have said next.
#[derive(Clone, Copy)]
struct Next {
    one: u64,
    two: u64,
}

impl Next {
    /// What the thread that said this number was to say now. It is to say the next one then.
    fn due(&mut self, said: u64) -> u64 {
        if said < EACH {
            let due = self.one;
            self.one = due.wrapping_add(1);
            due
        } else {
            let due = self.two;
            self.two = due.wrapping_add(1);
            due
        }
    }
}

/// Fails where the next event has not this number, or is not what its thread was to say then.
fn check_said(
    rt: &impl Abort,
    gathered: &mut Gathered<Numbers>,
    number: u64,
    next: &mut Next,
) -> Result<(), Fail> {
    let (at, said) = gathered.take().ok_or("an event is missing")?;
    same(rt, (at, said), (number, next.due(said)));
    Ok(())
}

/// Fails where the events are not those of both threads, each in its order.
fn check_order(rt: &impl Abort, gathered: &mut Gathered<Numbers>) -> Result<(), Fail> {
    let mut next = Next { one: 0, two: EACH };
    for number in 0..2 * EACH {
        check_said(rt, gathered, number, &mut next)?;
    }
    check_next(rt, gathered, None);
    Ok(())
}

#[test]
fn events_of_two_threads_are_gathered_in_order(rt: HostRuntime) -> Result<(), Fail> {
    let mut talked = talk(&rt, rt.alloc())?;
    same(&rt, talked.said, (EACH, EACH));
    check_order(&rt, &mut talked.gathered)
}
