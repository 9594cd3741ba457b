//! Disks that fail by themselves.

ghost use Rattle.std.specs.Prelude.{◌≡◌, IfErr, IfOk, length};
ghost use Rattle.cam_disk.specs.declared.error.DiskError.TheVariants.{Failed};
ghost use Rattle.cam_disk.specs.Disk.{FailsWithCause};

use super::{Answer, answer_over, check_numbered_answer, source, words};
use cam_disk::{Disk, DiskError, MemoryDisk, TellingDisk};
use std::alloc::Global;
use std::process::Abort;
use std::sync::Wait;
use std::test::Fail;
use std::thread::Threads;

/// A disk that fails by itself once it has done so many calls: it fails in as many calls as are left of `failing`.
#[derive(Drop)]
pub(super) struct FailingDisk<D> {
    within: D,
    calls: u32,
    failing: u32,
    faults: u64,
}

impl<D: Disk> FailingDisk<D> {
    /// Counts a call, and fails if none is left and it still fails.
    fn pass(&mut self) -> Result<(), DiskError>
        ensures same { self.new.within ≡ self.old.within }
        ensures failed { IfErr result (λ error. error ≡ Failed) }
        ensures cause { FailsWithCause self.old.faults self.new.faults result }
    {
        if self.calls > 0 {
            self.calls -= 1;
            return Ok(());
        }
        if self.failing > 0 {
            self.failing -= 1;
            self.faults = self.faults.saturating_add(1);
            return Err(DiskError::Failed);
        }
        Ok(())
    }

    /// What a call of the disk within gave, with its fault counted.
    fn counted<T: Drop>(&mut self, given: Result<T, DiskError>) -> Result<T, DiskError>
        ensures same { self.new.within ≡ self.old.within }
        ensures given { result ≡ given }
        ensures cause { FailsWithCause self.old.faults self.new.faults result }
    {
        if given.is_err() {
            self.faults = self.faults.saturating_add(1);
        }
        given
    }
}

impl<D: Disk> Disk for FailingDisk<D> {
    ghost tells = { λ d. D.tells d.within };

    ghost seen = { λ d. D.seen d.within };

    ghost may_leave = { λ d. D.may_leave d.within };

    ghost moment = { λ d. D.moment d.within };

    ghost left_since = { λ d. D.left_since d.within };

    ghost faults = { λ d. d.faults };

    ghost faults_within = { λ d. d.faults };

    ghost kept = { λ d. D.kept d.within };

    ghost counts_now = { λ d. D.counts_now d.within };

    ghost only_now = { λ d. D.only_now d.within };

    fn read(&mut self, at: u64, into: &mut [u8]) -> Result<usize, DiskError> {
        self.pass()?;
        let given = self.within.read(at, into);
        self.counted(given)
    }

    fn write_at(&mut self, at: u64, bytes: &[u8]) -> Result<(), DiskError> {
        self.pass()?;
        let given = self.within.write_at(at, bytes);
        self.counted(given)
    }

    fn cut(&mut self, size: u64) -> Result<(), DiskError> {
        self.pass()?;
        let given = self.within.cut(size);
        self.counted(given)
    }

    fn sync(&mut self) -> Result<(), DiskError> {
        self.pass()?;
        let given = self.within.sync();
        self.counted(given)
    }

    fn spoil(&mut self) {
        self.within.spoil();
        self.faults = self.faults.saturating_add(1);
    }
}

impl<D: TellingDisk> TellingDisk for FailingDisk<D> {
    ghost always = { λ d. D.always d.within };

    fn failures(&self) -> u64 {
        self.faults
    }
}

/// How many calls of a disk formatting takes.
const FORMATTING: u32 = 7;

/// More calls than a run makes.
const FOR_GOOD: u32 = u32::MAX;

/// A script in two parts. Between them stands a line that may stop the disk of node 2, or says nothing.
#[derive(Clone, Copy)]
struct Case {
    before: &'static str,
    behind: &'static str,
}

/// A commit of two nodes: the disk of node 2 is called for its vote, and for the news of the commit.
const COMMIT: Case = Case {
    before: "nodes 2
object x 2 register 0
",
    behind: "begin A 1
call A x write 5
drain
commit A 0
drain
",
};

/// The same, where node 2 restarts in the middle, and at the end.
const RESTARTED: Case = Case {
    before: "nodes 2
object x 2 register 0
",
    behind: "begin A 1
call A x write 5
drain
commit A 0
deliver 3
deliver 4
deliver 5
restart 2
deliver 6
deliver 7
query 2 A
drain
restart 2
query 2 A
drain
",
};

/// A write, a read of it, and a commit.
const READ_BACK: &str = "nodes 2
object x 2 register 0
begin A 1
call A x write 5
drain
call A x read
drain
commit A 0
drain
";

const COMMIT_REPORT: &str = "action 1.1.1 committed
  created
  called 1 x write 5
  got 1 ok
  commit 0
value x 5
";

/// Eight empty disks in memory, each of which has failed so often. The second fails by itself once it has done so many calls, in so many calls.
pub(super) fn disks(
    alloc: Global,
    calls: u32,
    failing: u32,
    faults: u64,
) -> Result<Vec<FailingDisk<MemoryDisk>>, Fail>
    ensures { IfOk result (λ disks. length disks.items ≡ 8) }
{
    let mut disks = Vec::with_capacity(alloc, 8)?;
    for place in 0..8u8 {
        disks.push(FailingDisk {
            within: MemoryDisk::new(alloc),
            calls: if place == 1 { calls } else { u32::MAX },
            failing,
            faults,
        })?;
    }
    Ok(disks)
}

/// The answer to `run` of a script over such disks.
fn answer_of(
    rt: &(impl Threads + Wait + Sync),
    alloc: Global,
    script: &str,
    calls: u32,
    failing: u32,
    faults: u64,
) -> Result<Answer, Fail> {
    let run = words(alloc, "run")?;
    let mut script = source(alloc, script, &[])?;
    let mut disks = disks(alloc, calls, failing, faults)?;
    answer_over(rt, alloc, &run, &mut script, &mut disks)
}

/// The answer to the run of a case in which no disk fails by itself, and a line stops that of node 2 after so many calls.
fn answer_stopped(
    rt: &(impl Threads + Wait + Sync),
    alloc: Global,
    case: Case,
    calls: u32,
) -> Result<Answer, Fail> {
    let script = format!(in alloc; "{}stop 2 {}\n{}", case.before, calls, case.behind)?;
    answer_of(rt, alloc, &script, u32::MAX, 0, 0)
}

/// The answer to the run of a case in which no line stops a disk, and that of node 2 fails by itself.
fn answer_failing(
    rt: &(impl Threads + Wait + Sync),
    alloc: Global,
    case: Case,
    calls: u32,
    failing: u32,
) -> Result<Answer, Fail> {
    let script = format!(in alloc; "{}# no stop\n{}", case.before, case.behind)?;
    answer_of(rt, alloc, &script, calls, failing, 0)
}

/// Fails if a disk that fails by itself in the run of a case does not halt its node just as a line does that stops the disk there.
fn check_as_stopped(
    rt: &(impl Threads + Wait + Sync + Abort),
    alloc: Global,
    case: Case,
    calls: u32,
    failing: u32,
) -> Result<(), Fail> {
    let answer = answer_failing(rt, alloc, case, FORMATTING.saturating_add(calls), failing)?;
    let stopped = answer_stopped(rt, alloc, case, calls)?;
    check_numbered_answer(rt, calls as u64, &answer, 0, &stopped.text);
    Ok(())
}

/// The disk of node 2 fails at each call of the two appends of its node in turn, once or from then on: the node halts, the run goes on, and
/// the report is that of the run in which a line stops the disk there. If it does them all, no node halts.
#[test]
fn a_disk_that_fails_halts_its_node(rt: HostRuntime) -> Result<(), Fail> {
    for calls in 0..9u32 {
        check_as_stopped(&rt, rt.alloc(), COMMIT, calls, 1)?;
        check_as_stopped(&rt, rt.alloc(), COMMIT, calls, FOR_GOOD)?;
    }
    Ok(())
}

/// A node whose disk failed once restarts, and what its log has of the event is found.
#[test]
fn a_disk_that_failed_once(rt: HostRuntime) -> Result<(), Fail> {
    for calls in 0..4u32 {
        check_as_stopped(&rt, rt.alloc(), RESTARTED, calls, 1)?;
    }
    Ok(())
}

/// From its first append on the disk of node 2 does no call: no vote of the node arrives, and its write is lost.
#[test]
fn a_vote_that_is_lost(rt: HostRuntime) -> Result<(), Fail> {
    let answer = answer_of(&rt, rt.alloc(), READ_BACK, FORMATTING, FOR_GOOD, 0)?;
    let report = b"action 1.1.1 open
  created
  called 1 x write 5
  got 1 ok
  called 2 x read
  got 2 value 5
  commit 0
halted 9 2 lost
value x 0
";
    check_numbered_answer(&rt, 0, &answer, 0, report);
    Ok(())
}

/// Fails if the run of a case does not end with the line that names the disk of node 2.
fn check_fault(
    rt: &(impl Threads + Wait + Sync + Abort),
    alloc: Global,
    case: Case,
    calls: u32,
) -> Result<(), Fail> {
    let answer = answer_failing(rt, alloc, case, calls, FOR_GOOD)?;
    check_numbered_answer(rt, calls as u64, &answer, 6, b"disk fault 2\n");
    Ok(())
}

/// No run is told of if the disk fails while it is formatted, or while its node restarts.
#[test]
fn a_disk_that_keeps_the_run_from_being_told(rt: HostRuntime) -> Result<(), Fail> {
    for calls in 0..FORMATTING {
        check_fault(&rt, rt.alloc(), COMMIT, calls)?;
    }
    check_fault(&rt, rt.alloc(), RESTARTED, FORMATTING)
}

/// Fails where the run of `COMMIT` over disks that had failed so often does not have its report.
fn check_disks_that_had_failed(
    rt: &(impl Threads + Wait + Sync + Abort),
    alloc: Global,
    faults: u64,
) -> Result<(), Fail> {
    let script = format!(in alloc; "{}{}", COMMIT.before, COMMIT.behind)?;
    let answer = answer_of(rt, alloc, &script, u32::MAX, 0, faults)?;
    check_numbered_answer(rt, faults, &answer, 0, COMMIT_REPORT.as_bytes());
    Ok(())
}

/// How often a disk had failed before does not matter.
#[test]
fn disks_that_had_failed(rt: HostRuntime) -> Result<(), Fail> {
    check_disks_that_had_failed(&rt, rt.alloc(), 1)?;
    check_disks_that_had_failed(&rt, rt.alloc(), 7)
}
