//! The lock table.

mod both;
mod histories;
mod plain_table;
mod restarts;
mod scenes;
mod servers;
mod steps;

use cam_base::NoMemory;
use cam_locks::LockTable;
use cam_type::{Items, ObjectDecl, Objects, State};
use std::alloc::Global;

/// The places of the objects.
const REGISTER: u8 = 0;

const QUEUE: u8 = 1;

const COUNTER: u8 = 2;

/// At node 1 a register that begins with 0, an empty queue and a counter that begins with 10.
fn objects(alloc: Global) -> Result<Objects, NoMemory> {
    let mut objects = Objects::new(alloc);
    objects.push(ObjectDecl {
        node: 1,
        start: State::Register(0),
    })?;
    objects.push(ObjectDecl {
        node: 1,
        start: State::Queue(Items::new(alloc)),
    })?;
    objects.push(ObjectDecl {
        node: 1,
        start: State::Counter(10),
    })?;
    Ok(objects)
}

/// A table of these objects, of which nothing was asked.
fn new_table(alloc: Global) -> Result<LockTable, NoMemory> {
    let objects = objects(alloc)?;
    LockTable::new(alloc, &objects, 1)
}
