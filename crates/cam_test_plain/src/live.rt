//! `cam_live`: what stays live through a crash.
use crate::check::same;
use cam_base::NoMemory;
use cam_event::{Deed, Deeds};
use cam_live::{live, settled};
use cam_names::Name;
use cam_samples::{call, crash, deeds_of, inform, perform, registers, secure};
use cam_type::{Answer, Objects, Op};
use std::alloc::Global;
use std::test::Fail;

/// Two writes, of which one is secured before the crash and the other after it. The site is informed of the commit of the late one, and
/// of the abort of the other.
fn two_writes(secured: Name, late: Name) -> [Deed; 9] {
    [
        call(secured, 1, 0, Op::Write(5)),
        perform(secured, 1, Answer::Ok),
        call(late, 1, 1, Op::Write(5)),
        perform(late, 1, Answer::Ok),
        inform(1, late, true),
        secure(secured, 1),
        crash(1),
        secure(late, 1),
        inform(1, secured, false),
    ]
}

/// What lives after some deeds.
#[derive(Clone, Copy, Debug, PartialEq, Eq)]
struct Lived {
    /// How many operations are live.
    lives: usize,
    /// The action of the first live operation.
    first: Option<Name>,
    /// How many of the live operations are settled.
    settles: usize,
}

impl Lived {
    /// What lives after these deeds over two registers at node 1.
    fn after(alloc: Global, deeds: &[Deed]) -> Result<Lived, NoMemory> {
        let objects = registers(alloc, &[1, 1])?;
        let deeds = deeds_of(alloc, deeds)?;
        Lived::of(alloc, &deeds, &objects)
    }

    /// What lives after these deeds over these objects.
    fn of(alloc: Global, deeds: &Deeds, objects: &Objects) -> Result<Lived, NoMemory> {
        let settles = settled(alloc, deeds, objects)?.len();
        let live = live(alloc, deeds, objects)?;
        Ok(Lived {
            lives: live.len(),
            first: live.get(0).map(|first| first.action),
            settles,
        })
    }
}

/// How many operations are live after so many deeds of `two_writes`, and how many of them are settled.
const COUNTS: [(usize, usize, usize); 9] = [
    (1, 0, 0),
    (2, 1, 0),
    (3, 1, 0),
    (4, 2, 0),
    (5, 2, 1),
    (6, 2, 1),
    (7, 1, 0),
    (8, 1, 0),
    (9, 0, 0),
];

/// Where any operation is live, the first is of the action whose write is secured.
#[test]
fn a_crash_keeps_what_was_secured_before(rt: HostRuntime) -> Result<(), Fail> {
    let secured = Name::parse("1.1.1")?;
    let deeds = two_writes(secured, Name::parse("1.1.2")?);
    for (count, lives, settles) in COUNTS {
        let first = if lives == 0 { None } else { Some(secured) };
        let wanted = Lived {
            lives,
            first,
            settles,
        };
        let found = Lived::after(rt.alloc(), deeds.get(..count).unwrap_or(&deeds))?;
        same(&rt, (count, found), (count, wanted));
    }
    Ok(())
}
