// Migration of a log to the present version, and the one entry that keeps what all entries say.
use crate::check::same;
use crate::log::{formatted, opened};
use crate::recman::{ADDS, ALL, LATER};
use crate::recovery::{Summary, entries_of, recovered_by};
use cam_disk::MemoryDisk;
use cam_log::{Entries, EntryLog, StopLog};
use cam_recman::{MigrateFault, Migrated, encode_entry, migrate, recover, snapshot};
use std::alloc::Global;
use std::process::Abort;
use std::test::Fail;

/// The answer of a migration.
type Answer = Result<Migrated, MigrateFault>;

/// Migrates a log, and returns what that answers; fails where the log is broken.
fn migrate_whole<L: EntryLog>(alloc: Global, log: &mut L) -> Result<Answer, Fail> {
    if log.is_broken() {
        return Err(Fail::new("the log is broken"));
    }
    Ok(migrate(alloc, log))
}

/// What a migration answers where these device calls are passed on, and what its disk holds then.
fn stopped_migration(alloc: Global, calls: u32) -> Result<(Answer, MemoryDisk), Fail> {
    let mut log = formatted(alloc)?;
    log.append(&ALL)?;
    log.stop_after(calls);
    let answer = migrate_whole(alloc, &mut log)?;
    Ok((answer, log.into_disk().into_inner()))
}

/// What is seen of a log on a disk: how many entries it has, what they recover in short, what a migration answers, and
/// how many entries it has then.
#[derive(Clone, Copy, Debug, PartialEq, Eq)]
struct Again {
    entries: usize,
    recovered: Summary,
    migrated: Answer,
    entries_then: usize,
}

/// What is seen of the log on this disk.
fn seen_again(alloc: Global, disk: MemoryDisk) -> Result<Again, Fail> {
    let mut log = opened(alloc, disk)?;
    let entries = log.entries().len();
    let recovered = recovered_by(alloc, &log)?;
    let migrated = migrate_whole(alloc, &mut log)?;
    Ok(Again {
        entries,
        recovered,
        migrated,
        entries_then: log.entries().len(),
    })
}

#[test]
fn a_migrated_log_recovers_the_same(rt: HostRuntime) -> Result<(), Fail> {
    // The device calls that are passed on, the answer, how many entries the log opens with then, and what a second
    // migration does.
    let rows = [
        (0, Err(MigrateFault::DiskFault), 1, Migrated::Done),
        (2, Err(MigrateFault::DiskFault), 1, Migrated::Done),
        (3, Err(MigrateFault::DiskFault), 2, Migrated::Already),
        (4, Ok(Migrated::Done), 2, Migrated::Already),
    ];
    for (calls, answer, entries, which) in rows {
        let (answered, disk) = stopped_migration(rt.alloc(), calls)?;
        same(&rt, (calls, answered), (calls, answer));
        let wanted = Again {
            entries,
            recovered: Summary {
                count: 2,
                outcomes: 2,
                families: 1,
            },
            migrated: Ok(which),
            entries_then: 2,
        };
        let again = seen_again(rt.alloc(), disk)?;
        same(&rt, (calls, again), (calls, wanted));
    }
    Ok(())
}

/// The bytes of the one entry that keeps what these entries say.
fn kept_bytes(alloc: Global, entries: &Entries) -> Result<Vec<u8>, Fail> {
    let kept = recover(alloc, entries)?;
    let records = snapshot(alloc, &kept)?;
    Ok(encode_entry(alloc, &records)?)
}

/// The bytes of the one entry that keeps what the entries of these bytes say.
fn kept_of(alloc: Global, all: &[&[u8]]) -> Result<Vec<u8>, Fail> {
    let entries = entries_of(alloc, all)?;
    kept_bytes(alloc, &entries)
}

/// Fails the test where the one entry that keeps what the entries of these bytes say has other bytes.
fn same_kept(rt: &impl Abort, alloc: Global, all: &[&[u8]], wanted: &[u8]) -> Result<(), Fail> {
    let kept = kept_of(alloc, all)?;
    same(rt, kept.as_slice(), wanted);
    Ok(())
}

/// These pieces, one behind the other.
fn joined(alloc: Global, pieces: &[&[u8]]) -> Result<Vec<u8>, Fail> {
    let mut bytes = Vec::new(alloc);
    for piece in pieces {
        bytes.extend_from_slice(piece)?;
    }
    Ok(bytes)
}

#[test]
fn one_entry_keeps_what_all_entries_say(rt: HostRuntime) -> Result<(), Fail> {
    let alloc = rt.alloc();
    // What the entries are, and the pieces of the one that keeps what they say: the version, the count, the outcomes in
    // the order in which they were learnt, the counts that were seen, the families.
    let rows: [(&[&[u8]], &[&[u8]]); 4] = [
        (&[], &[&[6, 2]]),
        (&[&ALL], &[&[6, 2], &ALL]),
        (&[&[6, 2], &ADDS], &[&[6, 2], &ADDS]),
        (
            &[&ALL, &[], &LATER],
            &[
                &[6, 2, 1, 0, 0, 0, 5],
                &ALL[5..47],
                &LATER[6..17],
                &ALL[47..],
                &LATER[42..],
            ],
        ),
    ];
    for (all, pieces) in rows {
        let wanted = joined(alloc, pieces)?;
        same_kept(&rt, alloc, all, &wanted)?;
        same_kept(&rt, alloc, &[wanted.as_slice()], &wanted)?;
    }
    Ok(())
}
