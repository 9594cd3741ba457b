//! The servers that tables are tried with: they count what they are asked, and may want memory.

use super::both::{ask_with, value_of};
use super::plain_table::Told;
use super::{REGISTER, new_table};
use crate::check::same;
use cam_base::NoMemory;
use cam_locks::LockTable;
use cam_names::Name;
use cam_type::{Answer, CounterServer, DataType, Kind, Op, QueueServer, RegisterServer, State};
use std::alloc::Global;
use std::test::Fail;

/// A server that counts how often it is asked for an operation, and that may want memory.
#[derive(Drop)]
pub(super) struct Counting<T: DataType> {
    inner: T,
    asked: u32,
    wants_memory: bool,
}

impl<T: DataType> Counting<T> {
    fn new(inner: T) -> Counting<T> {
        Counting {
            inner,
            asked: 0,
            wants_memory: false,
        }
    }
}

impl<T: DataType> DataType for Counting<T> {
    ghost kind = { λ server. T.kind server.inner };

    ghost held = { λ server. T.held server.inner };

    ghost held_is_of_its_kind = { λ server. T.held_is_of_its_kind server.inner };

    fn kind(&self) -> Kind {
        self.inner.kind()
    }

    fn load(&mut self, state: &State) -> Result<(), NoMemory> {
        self.inner.load(state)
    }

    fn apply(&mut self, op: &Op) -> Result<Answer, NoMemory> {
        self.asked = self.asked.saturating_add(1);
        if self.wants_memory {
            return Err(NoMemory);
        }
        self.inner.apply(op)
    }

    fn save(&self) -> Result<State, NoMemory> {
        self.inner.save()
    }
}

/// A server of each kind. They hold what they were last asked of, whoever asked.
#[derive(Drop)]
pub(super) struct Servers {
    pub(super) register: Counting<RegisterServer>,
    pub(super) queue: Counting<QueueServer>,
    pub(super) counter: Counting<CounterServer>,
}

impl Servers {
    pub(super) fn new(alloc: Global) -> Servers {
        Servers {
            register: Counting::new(RegisterServer::new()),
            queue: Counting::new(QueueServer::new(alloc)),
            counter: Counting::new(CounterServer::new()),
        }
    }

    /// How often they were asked for an operation.
    pub(super) fn asked(&self) -> u32 {
        self.register
            .asked
            .saturating_add(self.queue.asked)
            .saturating_add(self.counter.asked)
    }
}

/// What is seen of a new table at a server that wants memory, and then, once the server has it, of the table and the
/// server.
#[derive(Clone, Copy, Debug, PartialEq)]
struct Tried {
    wanted_memory: bool,
    next_index: u32,
    told: Told,
    register: Option<i64>,
    asked: u32,
}

/// Whether the table wants memory when its server does.
fn wants_memory(
    table: &mut LockTable,
    server: &mut Counting<RegisterServer>,
) -> Result<bool, Fail> {
    let name = Name::parse("1.1.1")?;
    server.wants_memory = true;
    let wants_memory = ask_with(table, &name, REGISTER, &Op::Write(5), server).is_err();
    server.wants_memory = false;
    Ok(wants_memory)
}

/// What another action is told.
fn told_another(
    table: &mut LockTable,
    server: &mut Counting<RegisterServer>,
) -> Result<Told, Fail> {
    let name = Name::parse("1.1.2")?;
    let told = ask_with(table, &name, REGISTER, &Op::Swap(6), server)?;
    Ok(told)
}

/// What the register holds past the top.
fn register_of(table: &LockTable) -> Result<Option<i64>, NoMemory> {
    match value_of(table, REGISTER)? {
        Some(State::Register(value)) => Ok(Some(value)),
        _ => Ok(None),
    }
}

/// Asks twice, with a server that wants memory at the first time.
fn try_twice(table: &mut LockTable, server: &mut Counting<RegisterServer>) -> Result<Tried, Fail> {
    let wanted_memory = wants_memory(table, server)?;
    let next_index = table.next_index();
    let told = told_another(table, server)?;
    let register = register_of(table)?;
    Ok(Tried {
        wanted_memory,
        next_index,
        told,
        register,
        asked: server.asked,
    })
}

/// What is seen of a new table and a new server.
fn tried_anew(alloc: Global) -> Result<Tried, Fail> {
    let mut table = new_table(alloc)?;
    let mut server = Counting::new(RegisterServer::new());
    try_twice(&mut table, &mut server)
}

#[test]
fn a_server_that_wants_memory_leaves_the_table(rt: HostRuntime) -> Result<(), Fail> {
    let tried = tried_anew(rt.alloc())?;
    let expected = Tried {
        wanted_memory: true,
        next_index: 0,
        told: Told::Done(Answer::Value(0)),
        register: Some(0),
        asked: 2,
    };
    same(&rt, tried, expected);
    Ok(())
}
