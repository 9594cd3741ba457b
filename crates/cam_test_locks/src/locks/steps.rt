//! Steps with a lock table: what it has to answer at each, and what it is seen to answer.

use super::both::{ask, take_copy, value_of};
use super::plain_table::Told;
use super::servers::Servers;
use super::{COUNTER, REGISTER, new_table};
use cam_base::NoMemory;
use cam_locks::LockTable;
use cam_names::{Name, NameFault};
use cam_type::{Answer, Op, State};
use std::alloc::Global;
use std::test::Fail;

/// One step with a table, and what it has to answer.
pub(super) enum Step<'a> {
    /// An operation of an action is done, with this answer.
    Done(&'a str, u8, Op, Answer),
    /// An operation of an action is refused, since this one stands in the way.
    Busy(&'a str, u8, Op, &'a str),
    Commit(&'a str),
    Abort(&'a str),
    /// From here on a copy goes on.
    Copy,
    /// What the register holds past the top.
    Register(i64),
    /// What the counter holds past the top.
    Counter(i64),
    /// How many operations of a family are secured.
    Secured(&'a str, usize),
    /// How often the servers were asked for an operation since the scene began.
    Asked(u32),
}

/// What is seen of a table at a step.
#[derive(Debug, PartialEq, Drop)]
enum Seen {
    Told(Told),
    /// What an object holds past the top: none where it is not of the table's node.
    Holds(Option<State>),
    /// How many operations of a family are secured, and whether one of it is live.
    Secured { ops: usize, is_here: bool },
    Asked(u32),
    /// A call that answers nothing was made.
    Made,
    /// The text in the step is no name.
    NoName(NameFault),
}

/// A new table after a scene.
pub(super) fn table_after(
    alloc: Global,
    name: &str,
    scene: &[Step<'_>],
) -> Result<LockTable, Fail> {
    let mut table = new_table(alloc)?;
    play(alloc, &mut table, name, scene)?;
    Ok(table)
}

/// Plays the scene of this name, which is a row of steps with a table. It fails at the first that is not answered as it
/// has to be, with its name, the place of the step and what is seen there.
pub(super) fn play(
    alloc: Global,
    table: &mut LockTable,
    name: &str,
    scene: &[Step<'_>],
) -> Result<(), Fail> {
    let mut servers = Servers::new(alloc);
    for (place, step) in scene.iter().enumerate() {
        take_step(table, &mut servers, name, place, step)?;
    }
    Ok(())
}

/// Takes the step at a place of the scene of this name. It fails where what is seen is not what has to be seen.
fn take_step(
    table: &mut LockTable,
    servers: &mut Servers,
    name: &str,
    place: usize,
    step: &Step<'_>,
) -> Result<(), Fail> {
    let seen = seen_at_last(table, servers, step)?;
    if is_expected(step, &seen)? {
        return Ok(());
    }
    Err(Fail::new(format_args!("{name}, step {place}: {seen:?}")))
}

/// What the table answers, at a second try where memory runs out: the table is as it was then.
fn seen_at_last(
    table: &mut LockTable,
    servers: &mut Servers,
    step: &Step<'_>,
) -> Result<Seen, NoMemory> {
    match seen_at(table, servers, step) {
        Ok(seen) => Ok(seen),
        Err(NoMemory) => seen_at(table, servers, step),
    }
}

/// Whether this has to be seen.
fn is_expected(step: &Step<'_>, seen: &Seen) -> Result<bool, Fail> {
    let expected = expected_at(step)?;
    Ok(*seen == expected)
}

/// What the table has to answer.
fn expected_at(step: &Step<'_>) -> Result<Seen, Fail> {
    Ok(match step {
        Step::Done(_, _, _, answer) => Seen::Told(Told::Done(*answer)),
        Step::Busy(_, _, _, holder) => Seen::Told(Told::Busy(Name::parse(holder)?)),
        Step::Commit(_) | Step::Abort(_) | Step::Copy => Seen::Made,
        Step::Register(value) => Seen::Holds(Some(State::Register(*value))),
        Step::Counter(value) => Seen::Holds(Some(State::Counter(*value))),
        Step::Secured(_, ops) => Seen::Secured {
            ops: *ops,
            is_here: *ops > 0,
        },
        Step::Asked(count) => Seen::Asked(*count),
    })
}

/// What it answers.
fn seen_at(
    table: &mut LockTable,
    servers: &mut Servers,
    step: &Step<'_>,
) -> Result<Seen, NoMemory> {
    match step {
        Step::Done(name, object, op, _) | Step::Busy(name, object, op, _) => {
            asks(table, servers, name, *object, op)
        }
        Step::Commit(name) => commits(table, name),
        Step::Abort(name) => aborts(table, name),
        Step::Copy => goes_on_with_a_copy(table),
        Step::Register(_) => holds(table, REGISTER),
        Step::Counter(_) => holds(table, COUNTER),
        Step::Secured(name, _) => secures(table, name),
        Step::Asked(_) => Ok(Seen::Asked(servers.asked())),
    }
}

fn asks(
    table: &mut LockTable,
    servers: &mut Servers,
    name: &str,
    object: u8,
    op: &Op,
) -> Result<Seen, NoMemory> {
    match Name::parse(name) {
        Ok(name) => Ok(Seen::Told(ask(table, servers, &name, object, op)?)),
        Err(fault) => Ok(Seen::NoName(fault)),
    }
}

fn goes_on_with_a_copy(table: &mut LockTable) -> Result<Seen, NoMemory> {
    take_copy(table)?;
    Ok(Seen::Made)
}

fn commits(table: &mut LockTable, name: &str) -> Result<Seen, NoMemory> {
    match Name::parse(name) {
        Ok(name) => {
            table.reserve(1)?;
            table.commit(&name);
            Ok(Seen::Made)
        }
        Err(fault) => Ok(Seen::NoName(fault)),
    }
}

fn aborts(table: &mut LockTable, name: &str) -> Result<Seen, NoMemory> {
    match Name::parse(name) {
        Ok(name) => {
            table.reserve(1)?;
            table.abort(&name);
            Ok(Seen::Made)
        }
        Err(fault) => Ok(Seen::NoName(fault)),
    }
}

fn holds(table: &LockTable, object: u8) -> Result<Seen, NoMemory> {
    let state = value_of(table, object)?;
    Ok(Seen::Holds(state))
}

fn secures(table: &LockTable, name: &str) -> Result<Seen, NoMemory> {
    match Name::parse(name) {
        Ok(family) => Ok(Seen::Secured {
            ops: table.secure(&family, 4)?.ops.len(),
            is_here: table.has_family(&family),
        }),
        Err(fault) => Ok(Seen::NoName(fault)),
    }
}
