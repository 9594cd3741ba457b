// What is recovered from records.
use crate::check::same;
use crate::log::{formatted, opened};
use crate::recman::{ADDS, ALL, LATER};
use cam_disk::MemoryDisk;
use cam_log::{Entries, Entry, EntryLog, LogFault, StopLog};
use cam_names::Name;
use cam_recman::{RecFault, Recovered, recover, restart};
use cam_type::{HeldOp, Op};
use std::alloc::Global;
use std::test::Fail;

/// The entries of these bytes.
pub(super) fn entries_of(alloc: Global, all: &[&[u8]]) -> Result<Entries, Fail> {
    let mut entries = Entries::new(alloc);
    for bytes in all {
        entries.push(Entry::from_vec(bytes.to_vec(alloc)?))?;
    }
    Ok(entries)
}

/// What the entries of these bytes recover.
fn recovered_from(alloc: Global, all: &[&[u8]]) -> Result<Recovered, Fail> {
    Ok(recover(alloc, &entries_of(alloc, all)?)?)
}

/// What was recovered, in short: the count, how many outcomes, and how many families.
#[derive(Clone, Copy, Debug, PartialEq, Eq)]
pub(super) struct Summary {
    pub(super) count: u32,
    pub(super) outcomes: u64,
    pub(super) families: usize,
}

/// What was recovered, in short.
fn in_short(recovered: &Recovered) -> Summary {
    Summary {
        count: recovered.count,
        outcomes: recovered.know.len(),
        families: recovered.held.len(),
    }
}

/// What a log recovers, in short.
pub(super) fn recovered_by<L: EntryLog>(alloc: Global, log: &L) -> Result<Summary, Fail> {
    Ok(in_short(&restart(alloc, log)?))
}

/// What a secured family holds, in short: how many operations, and the last of them.
#[derive(Clone, Copy, Debug, PartialEq, Eq)]
struct Holding {
    family: Name,
    count: u32,
    operations: usize,
    last: HeldOp,
}

/// What the family at this place holds.
fn holding_at(recovered: &Recovered, place: usize) -> Option<Holding> {
    let held = recovered.held.get(place)?;
    Some(Holding {
        family: held.family,
        count: held.count,
        operations: held.ops.len(),
        last: *held.ops.as_slice().last()?,
    })
}

#[test]
fn nothing_is_recovered_from_no_entries(rt: HostRuntime) -> Result<(), Fail> {
    let recovered = recovered_from(rt.alloc(), &[])?;
    let wanted = Summary {
        count: 1,
        outcomes: 0,
        families: 0,
    };
    same(&rt, in_short(&recovered), wanted);
    Ok(())
}

#[test]
fn counts_and_outcomes_are_recovered(rt: HostRuntime) -> Result<(), Fail> {
    let first = Name::parse("1.1.1")?;
    let second = Name::parse("2.3.4/1.2.1")?;
    let wanted = Summary {
        count: 5,
        outcomes: 3,
        families: 2,
    };
    let all = recovered_from(rt.alloc(), &[&ALL, &[], &LATER])?;
    same(&rt, in_short(&all), wanted);
    same(&rt, (all.know.count(1), all.know.count(3)), (1, 4));
    let outcomes = (
        all.know.is_aborted(&first),
        all.know.is_aborted(&second),
        all.know.is_committed(&first),
    );
    same(&rt, outcomes, (true, true, true));
    Ok(())
}

#[test]
fn two_families_are_recovered(rt: HostRuntime) -> Result<(), Fail> {
    let writer = Holding {
        family: Name::parse("1.1.1")?,
        count: 2,
        operations: 1,
        last: HeldOp {
            index: 7,
            object: 3,
            op: Op::Write(5),
        },
    };
    let taker = Holding {
        family: Name::parse("1.1.2")?,
        count: 1,
        operations: 2,
        last: HeldOp {
            index: 9,
            object: 4,
            op: Op::Take,
        },
    };
    let recovered = recovered_from(rt.alloc(), &[&ALL, &[], &LATER])?;
    same(&rt, holding_at(&recovered, 0), Some(writer));
    same(&rt, holding_at(&recovered, 1), Some(taker));
    Ok(())
}

/// Why the entries of these bytes recover nothing. None where they recover something.
fn fault_of(alloc: Global, all: &[&[u8]]) -> Result<Option<RecFault>, Fail> {
    match recover(alloc, &entries_of(alloc, all)?) {
        Ok(_) => Ok(None),
        Err(RecFault::NoMemory) => Err(RecFault::NoMemory.into()),
        Err(fault) => Ok(Some(fault)),
    }
}

#[test]
fn the_first_bad_entry_is_told(rt: HostRuntime) -> Result<(), Fail> {
    let fault = RecFault::BadRecord { entry: 1, at: 72 };
    let told = fault_of(rt.alloc(), &[&ALL, &LATER[..72], &[7], &ALL])?;
    same(&rt, told, Some(fault));
    Ok(())
}

/// What an append of `LATER` behind `ALL` answers where these device calls are passed on, and what its disk holds then.
fn stopped_append(alloc: Global, calls: u32) -> Result<(Result<(), LogFault>, MemoryDisk), Fail> {
    let mut log = formatted(alloc)?;
    log.append(&ALL)?;
    log.stop_after(calls);
    let answer = log.append(&LATER);
    Ok((answer, log.into_disk().into_inner()))
}

/// What the log on a disk recovers, in short.
fn recovered_on(alloc: Global, disk: MemoryDisk) -> Result<Summary, Fail> {
    let log = opened(alloc, disk)?;
    recovered_by(alloc, &log)
}

/// What that append answers, and what its disk recovers then, in short.
fn seen_of_append(alloc: Global, calls: u32) -> Result<(Result<(), LogFault>, Summary), Fail> {
    let (answer, disk) = stopped_append(alloc, calls)?;
    Ok((answer, recovered_on(alloc, disk)?))
}

#[test]
fn a_stopped_append_recovers_as_before_or_after(rt: HostRuntime) -> Result<(), Fail> {
    let stopped = Err(LogFault::DiskFault);
    let before = Summary {
        count: 2,
        outcomes: 2,
        families: 1,
    };
    let after = Summary {
        count: 5,
        outcomes: 3,
        families: 2,
    };
    // The device calls that are passed on, the answer, and what is recovered then, in short.
    let rows = [
        (0, stopped, before),
        (1, stopped, before),
        (2, stopped, before),
        (3, stopped, after),
        (4, Ok(()), after),
    ];
    for (calls, answer, recovered) in rows {
        let seen = seen_of_append(rt.alloc(), calls)?;
        same(&rt, (calls, seen), (calls, (answer, recovered)));
    }
    Ok(())
}

#[test]
fn an_add_is_recovered_behind_a_version(rt: HostRuntime) -> Result<(), Fail> {
    let alloc = rt.alloc();
    let adder = Holding {
        family: Name::parse("1.1.1")?,
        count: 2,
        operations: 1,
        last: HeldOp {
            index: 7,
            object: 3,
            op: Op::Add(5),
        },
    };
    let behind = recovered_from(alloc, &[&ALL, &[6, 2], &ADDS])?;
    same(&rt, (behind.count, behind.held.len()), (2, 2));
    same(&rt, holding_at(&behind, 1), Some(adder));
    Ok(())
}

#[test]
fn an_add_before_a_version_and_a_version_within_are_refused(rt: HostRuntime) -> Result<(), Fail> {
    for (all, entry, at) in [
        ([ADDS.as_slice(), &[6, 2]], 0, 24),
        ([&[6, 2], &[1, 0, 0, 0, 2, 6, 2]], 1, 5),
    ] {
        let told = fault_of(rt.alloc(), &all)?;
        same(&rt, told, Some(RecFault::BadRecord { entry, at }));
    }
    Ok(())
}
