//! The lock table under test, and the same calls of the table that replays its list.

use super::plain_table::{PlainTable, Told};
use super::servers::Servers;
use cam_base::NoMemory;
use cam_know::Know;
use cam_locks::{Grant, LockTable, may_restore};
use cam_names::Name;
use cam_type::{DataType, HeldList, HeldOps, Kind, Objects, Op, State};
use std::alloc::Global;

/// Asks for an operation, with a server of the object's kind.
pub(super) fn ask(
    table: &mut LockTable,
    servers: &mut Servers,
    name: &Name,
    object: u8,
    op: &Op,
) -> Result<Told, NoMemory> {
    match table.kind(object) {
        Kind::Register => ask_with(table, name, object, op, &mut servers.register),
        Kind::Queue => ask_with(table, name, object, op, &mut servers.queue),
        Kind::Counter => ask_with(table, name, object, op, &mut servers.counter),
    }
}

/// Asks for an operation, with this server.
pub(super) fn ask_with<T: DataType>(
    table: &mut LockTable,
    name: &Name,
    object: u8,
    op: &Op,
    server: &mut T,
) -> Result<Told, NoMemory> {
    if !table.takes(object, op) || table.next_index() > 999_999_999 {
        return Ok(Told::Unfit);
    }
    if table.kind(object) != server.kind() {
        return Ok(Told::Unfit);
    }
    Ok(match table.try_lock_and_apply(name, object, op, server)? {
        Grant::Done(answer) => Told::Done(answer),
        Grant::Conflict(holder) => Told::Busy(holder),
    })
}

/// What is handed up past the top, of an object of the table's node.
pub(super) fn value_of(table: &LockTable, object: u8) -> Result<Option<State>, NoMemory> {
    if !table.has_object(object) {
        return Ok(None);
    }
    Ok(Some(table.value(object)?))
}

/// Goes on with a copy of the table.
pub(super) fn take_copy(table: &mut LockTable) -> Result<(), NoMemory> {
    *table = table.copy()?;
    Ok(())
}

/// Goes on with what a restart makes of what was secured. False where it cannot be restored.
fn take_restored(
    alloc: Global,
    table: &mut LockTable,
    objects: &Objects,
    held: &HeldList,
    know: &Know,
) -> Result<bool, NoMemory> {
    if !may_restore(alloc, objects, 1, held)? {
        return Ok(false);
    }
    *table = LockTable::restore(alloc, objects, 1, held, know)?;
    Ok(true)
}

/// Both tables. Each call says whether both answer it alike.
#[derive(Drop)]
pub(super) struct Both {
    objects: Objects,
    plain: PlainTable,
    locks: LockTable,
    servers: Servers,
    pub(super) done: u32,
    pub(super) refused: u32,
}

impl Both {
    pub(super) fn new(alloc: Global, objects: Objects) -> Result<Both, NoMemory> {
        let locks = LockTable::new(alloc, &objects, 1)?;
        Ok(Both {
            objects,
            plain: PlainTable::new(alloc),
            locks,
            servers: Servers::new(alloc),
            done: 0,
            refused: 0,
        })
    }

    pub(super) fn ask(&mut self, name: &Name, object: u8, op: &Op) -> Result<bool, NoMemory> {
        let one = self.plain.ask(&self.objects, name, object, op)?;
        let other = ask(&mut self.locks, &mut self.servers, name, object, op)?;
        match one {
            Told::Done(_) => self.done = self.done.saturating_add(1),
            Told::Busy(_) => self.refused = self.refused.saturating_add(1),
            Told::Unfit => return Ok(false),
        }
        Ok(one == other)
    }

    pub(super) fn commit(&mut self, name: &Name) -> Result<bool, NoMemory> {
        self.plain.commit(name)?;
        self.locks.reserve(1)?;
        self.locks.commit(name);
        Ok(true)
    }

    pub(super) fn abort(&mut self, name: &Name) -> Result<bool, NoMemory> {
        self.plain.abort(name);
        self.locks.reserve(1)?;
        self.locks.abort(name);
        Ok(true)
    }

    /// The values that are handed up past the top.
    pub(super) fn value(&self, object: u8) -> Result<bool, NoMemory> {
        let one = self.plain.value(&self.objects, object, true)?;
        let other = value_of(&self.locks, object)?;
        Ok(one.is_some() && one == other)
    }

    /// Whether something of a family stands there, and what is secured of it.
    pub(super) fn family(&self, family: &Name) -> Result<bool, NoMemory> {
        let one = self.plain.secured(family)?;
        let is_secured = self.is_secured_as(family, &one)?;
        Ok(is_secured && self.locks.has_family(family) != one.is_empty())
    }

    /// Whether this is what is secured of a family.
    fn is_secured_as(&self, family: &Name, ops: &HeldOps) -> Result<bool, NoMemory> {
        let held = self.locks.secure(family, 7)?;
        Ok(held.family == *family && held.count == 7 && held.ops == *ops)
    }

    /// Goes on with a copy.
    pub(super) fn copy(&mut self) -> Result<bool, NoMemory> {
        take_copy(&mut self.locks)?;
        Ok(self.plain.next == self.locks.next_index())
    }

    /// Adds what is secured of a family.
    pub(super) fn secure(&self, held: &mut HeldList, family: &Name) -> Result<(), NoMemory> {
        let one = self.locks.secure(family, 1)?;
        held.push(one)
    }

    /// Goes on with what a restart makes of what was secured.
    pub(super) fn restart(
        &mut self,
        alloc: Global,
        held: &HeldList,
        know: &Know,
    ) -> Result<bool, NoMemory> {
        if !take_restored(alloc, &mut self.locks, &self.objects, held, know)? {
            return Ok(false);
        }
        self.plain.restart(held.as_slice(), know)?;
        Ok(self.plain.next == self.locks.next_index())
    }
}
