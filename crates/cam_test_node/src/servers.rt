//! A register of the test's own type does the calls: it counts how often it is asked, and may want memory.

use crate::driven::{
    Reaction, check_told, fault_text, owned, put_with, refusal_text, stepped_text, two_objects,
};
use crate::inputs::Line;
use cam_base::NoMemory;
use cam_ckpt::CheckpointLog;
use cam_disk::{MemoryDisk, StopDisk};
use cam_node::{Node, NodeFault};
use cam_type::{Answer, DataType, Kind, Op, RegisterServer, State};
use std::alloc::Global;
use std::test::Fail;

/// A server that counts how often it is asked for an operation, and that may want memory.
#[derive(Drop)]
struct Counting<T: DataType> {
    inner: T,
    asked: u32,
    wants_memory: bool,
}

impl<T: DataType> DataType for Counting<T> {
    ghost kind = { λ server. T.kind server.inner };

    ghost held = { λ server. T.held server.inner };

    ghost held_is_of_its_kind = { λ server. T.held_is_of_its_kind server.inner };

    fn kind(&self) -> Kind {
        self.inner.kind()
    }

    fn load(&mut self, state: &State) -> Result<(), NoMemory> {
        self.inner.load(state)
    }

    fn apply(&mut self, op: &Op) -> Result<Answer, NoMemory> {
        self.asked = self.asked.saturating_add(1);
        if self.wants_memory {
            return Err(NoMemory);
        }
        self.inner.apply(op)
    }

    fn save(&self) -> Result<State, NoMemory> {
        self.inner.save()
    }
}

/// The register is asked for each call that the node performs, and for no other. A call for which it wants memory leaves the node as it was.
const ASKED: &str =
    "from 2 call 2.1.1 1 0 write 7 at 2 deps 2:1 | missed, to 2 answer 2.1.1 1 missed; asked 0
wants from 2 call 2.1.1 1 0 write 7 at 1 deps 2:1 | no memory; asked 1
from 2 call 2.1.1 1 0 write 7 at 1 deps 2:1 | plain, perform 2.1.1 1 ok, to 2 answer 2.1.1 1 ok; asked 2
from 2 call 2.1.1 1 0 write 7 at 1 deps 2:1 | again, to 2 answer 2.1.1 1 ok; asked 2
from 2 call 2.1.2 1 0 read at 1 deps 2:1 | plain, bounce 2.1.2 1 2.1.1, to 2 answer 2.1.2 1 busy 2.1.1; asked 2
from 2 aborted 2.1.1 call 2.1.2 2 0 swap 9 at 1 deps 2:1 | plain, inform 1 2.1.1 aborted, perform 2.1.2 2 value 5, to 2 answer 2.1.2 2 value 5; asked 3
begin | plain, create 1.1.1; asked 3";

#[test]
fn the_handed_in_register_is_asked(rt: HostRuntime) -> Result<(), Fail> {
    check_asked(rt.alloc(), ASKED)
}

/// Takes the rows of a table in order, at node 1, with one register.
fn check_asked(alloc: Global, table: &str) -> Result<(), Fail> {
    let mut register = Counting {
        inner: RegisterServer::new(),
        asked: 0,
        wants_memory: false,
    };
    match Node::format(
        alloc,
        1,
        two_objects(alloc)?,
        StopDisk::new(MemoryDisk::new(alloc)),
    ) {
        Ok(mut node) => check_rows(alloc, &mut node, &mut register, table),
        Err(refused) => Err(refused.fault.into()),
    }
}

/// Fails at the first row that does not come to what stands after its bar.
fn check_rows<L: CheckpointLog>(
    alloc: Global,
    node: &mut Node<L>,
    register: &mut Counting<RegisterServer>,
    table: &str,
) -> Result<(), Fail> {
    for row in table.lines() {
        let Some((line, want)) = row.split_once(" | ") else {
            return Err(Fail::new("a row has no bar"));
        };
        let told = take(alloc, node, register, line)?;
        check_told(table, line, &told, want)?;
    }
    Ok(())
}

/// What an input comes to, and how often the register was asked so far. After the word `wants` it wants memory.
fn take<L: CheckpointLog>(
    alloc: Global,
    node: &mut Node<L>,
    register: &mut Counting<RegisterServer>,
    line: &str,
) -> Result<String, Fail> {
    let (input, wants) = match line.strip_prefix("wants ") {
        Some(input) => (input, true),
        None => (line, false),
    };
    register.wants_memory = wants;
    let told = told(alloc, node, register, input)?;
    Ok(format!(in alloc; "{told}; asked {}", register.asked)?)
}

/// What an input comes to.
fn told<L: CheckpointLog>(
    alloc: Global,
    node: &mut Node<L>,
    register: &mut Counting<RegisterServer>,
    line: &str,
) -> Result<String, Fail> {
    let Line::Put(input) = Line::read(alloc, line)? else {
        return Err(Fail::new("a row has no input"));
    };
    match put_with(alloc, node, &input, register) {
        Reaction::Stepped(stepped) => stepped_text(alloc, &stepped),
        Reaction::Fault(NodeFault::NoMemory) if !node.is_halted() => owned(alloc, "no memory"),
        Reaction::Fault(fault) => fault_text(alloc, fault, node.is_halted()),
        Reaction::Refused(refusal) => refusal_text(alloc, refusal),
    }
}
