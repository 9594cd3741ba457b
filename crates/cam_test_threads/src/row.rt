//! Numbers, letters and copies of letters, through cells.
ghost use Rattle.std.specs.Prelude.{◌≡◌};
ghost use Rattle.cam_journal.specs.Seats.{AreNew};

use crate::check::same;
use crate::ring::{NO_TROUBLES, Plan, gather, ring};
use crate::speaker::{Remark, Speaker, Speech};
use cam_hall::{End, Hall, HallFault, Handled, ItemOf, Names, OpenGate, Served, serve};
use cam_journal::{Gathered, Journal, Seats};
use std::alloc::Global;
use std::marker::Brand;
use std::sync::Wait;
use std::test::Fail;

// Node 1 says 7 and 9, node 2 says 8.
type Row = Speaker<6, 2>;

// What the worker of node 2 may take: one turn more than so many empty ones as end its work.
const TURNS: u32 = 4_097;

/// What node 1 did, and what the worker of node 2 did between.
#[derive(Clone, Copy, Debug, PartialEq, Eq)]
struct Done {
    first: Handled,
    between: Served,
    last: Handled,
}

/// What was done, and the events of all.
#[derive(Drop)]
struct Seen {
    done: Done,
    gathered: Gathered<Row>,
}

/// Node 1 speaks, node 2 is handed both copies of the letter, and node 1 speaks again.
fn work<R: Wait, J: Names>(rt: &R, hall: &Hall<Row, J>) -> Result<Done, HallFault> {
    Ok(Done {
        first: hall.first().handle(rt, hall, ItemOf::Drive)?,
        between: serve(rt, hall, 2, 0, &OpenGate, TURNS)?,
        last: hall.first().handle(rt, hall, ItemOf::Drive)?,
    })
}

/// What nodes 1 and 2 of this new journal did, where node 1 may speak twice, each time in two copies, and the events of all.
fn speak_in<R: Wait, J: Names>(
    rt: &R,
    alloc: Global,
    journal: Journal<Row>,
    seats: Seats<Row>,
) -> Result<Seen, Fail>
    requires own { journal.id ≡ J.journal }
    requires nodes { journal.nodes ≡ 4 }
    requires seats { AreNew journal.id 4 seats.items }
{
    let plan = Plan {
        shares: [2, 0, 0, 0],
        twice: true,
        troubles: NO_TROUBLES,
    };
    let hall = ring::<6, 2, J>(alloc, journal, seats, plan)?;
    let done = work(rt, &hall);
    let gathered = gather(hall.end());
    Ok(Seen {
        // Opened once the hall has ended, so that no exit drops a hall.
        done: done?,
        gathered,
    })
}

/// What nodes 1 and 2 of a journal of its own did, where node 1 may speak twice, each time in two copies, and the events of all.
fn speak<R: Wait>(rt: &R, alloc: Global) -> Result<Seen, Fail> {
    let (journal, seats) = Journal::<Row>::open(alloc, 4)?;
    speak_in::<R, Brand>(rt, alloc, journal, seats)
}

/// A remark to node 2, which comes twice.
fn said(number: u64) -> Speech {
    Speech::Spoken(Remark {
        number,
        to: 2,
        twice: true,
    })
}

/// What is done where the second copy comes to a node that has answered the first.
const ANSWERED_ONCE: Done = Done {
    first: Handled::Did { number: 0, sent: 2 },
    // Were the second copy not there, all turns but the first would be empty, and the worker quiet.
    between: Served {
        steps: 1,
        turns: TURNS,
        end: End::Turns,
    },
    last: Handled::Did { number: 2, sent: 2 },
};

#[test]
fn events_and_letters_of_two_cells_come_in_one_order(rt: HostRuntime) -> Result<(), Fail> {
    let mut seen = speak(&rt, rt.alloc())?;
    same(&rt, seen.done, ANSWERED_ONCE);
    let answer = Speech::Answer {
        number: 8,
        event: 0,
        place: 0,
    };
    for want in [(0, said(7)), (1, answer), (2, said(9))] {
        same(&rt, seen.gathered.take(), Some(want));
    }
    same(&rt, seen.gathered.take(), None);
    Ok(())
}
