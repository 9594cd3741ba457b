//! The table that a restart makes.
ghost use Rattle.std.specs.Prelude.{◌≡◌, ◌≤◌, ◌++◌, IsTrue, IfOk, OnOk};
ghost use Rattle.cam_type.specs.Objects.{start_of};
ghost use Rattle.cam_type.specs.Table.{kind_of};
ghost use Rattle.cam_locks.specs.Site.{fits_here, AreFit, IndicesRise};
ghost use Rattle.cam_locks.specs.Restored.{informed, restored, taken_over, CanRestore};

use crate::kept::Kept;
use crate::live::Live;
use crate::operations::{copy_objects, kind_of};
use crate::restore::{aborted_names, committed_names, in_order, kept_operations, next_of};
use crate::{Grant, LiveOp, LockTable, by_object};
use cam_base::NoMemory;
use cam_know::{Know, Outcome};
use cam_type::{CounterServer, DataType, HeldList, Kind, Objects, QueueServer, RegisterServer};
use std::alloc::Global;

impl LockTable {
    /// The table that a restart makes of what was secured, by what is known. It requires what [`crate::may_restore`] accepts.
    pub fn restore(
        alloc: Global,
        objects: &Objects,
        node: u8,
        held: &HeldList,
        know: &Know,
    ) -> Result<LockTable, NoMemory>
        requires { CanRestore objects.now node held.now }
        ensures { IfOk result (λ table. table.site
            ≡ restored objects.now node held.now know.now) }
    {
        let kept = kept_operations(alloc, held.as_slice(), know)?;
        let ordered = in_order(alloc, kept.as_slice())?;
        let mut table = LockTable::informed(alloc, objects, node, know.outcomes())?;
        table.take_over_all(ordered.as_slice(), next_of(held.as_slice()))?;
        Ok(table)
    }

    /// The table of a node that was informed of these outcomes, with no operations.
    pub(crate) fn informed(
        alloc: Global,
        objects: &Objects,
        node: u8,
        outcomes: &[Outcome],
    ) -> Result<LockTable, NoMemory>
        ensures { IfOk result (λ table. table.site ≡ informed objects.now node outcomes.now) }
    {
        Ok(LockTable {
            node,
            kept: Kept {
                objects: copy_objects(alloc, objects)?,
                committed: committed_names(alloc, outcomes)?,
                live: Live::new(alloc),
                locks: by_object::for_objects(alloc, objects)?,
            },
            aborted: aborted_names(alloc, outcomes)?,
        })
    }

    /// Takes restored operations over, in order, and lets the next index be this one.
    fn take_over_all(&mut self, operations: &[LiveOp], next: u32) -> Result<(), NoMemory>
        requires order { IndicesRise self.old.site.next operations.now next }
        requires fits { AreFit self.old.site.objects self.old.site.node operations.now }
        requires range { next ≤ 1000000000 }
        ensures ok { OnOk result (self.new.site
            ≡ record self.old.site { live = self.old.site.live ++ operations.now; next = next }) }
    {
        for operation in operations {
            self.take_over(operation)?;
        }
        self.raise(next);
        Ok(())
    }

    /// Lets the next index be this one.
    fn raise(&mut self, next: u32)
        requires order { self.old.site.next ≤ next }
        requires range { next ≤ 1000000000 }
        ensures { self.new.site ≡ record self.old.site { next = next } }
    {
        self.kept.live.raise(next);
    }

    /// Takes a restored operation over, with a server of its object's kind.
    fn take_over(&mut self, operation: &LiveOp) -> Result<(), NoMemory>
        requires fits { IsTrue (fits_here self.old.site.objects self.old.site.node
            operation.now.object operation.now.op) }
        requires index { self.old.site.next ≤ operation.now.index }
        requires range { operation.now.index ≤ 999999999 }
        ensures ok { OnOk result (self.new.site ≡ taken_over self.old.site operation.now) }
    {
        match kind_of(&self.kept.objects, operation.object) {
            Kind::Register => self.take_over_by(operation, &mut RegisterServer::new()),
            Kind::Queue => {
                let mut server = QueueServer::new(self.kept.live.allocator());
                self.take_over_by(operation, &mut server)
            }
            Kind::Counter => self.take_over_by(operation, &mut CounterServer::new()),
        }
    }

    /// Takes a restored operation over. Where it conflicts with one before it nothing is kept of its object any more.
    fn take_over_by<T: DataType>(
        &mut self,
        operation: &LiveOp,
        server: &mut T,
    ) -> Result<(), NoMemory>
        requires fits { IsTrue (fits_here self.old.site.objects self.old.site.node
            operation.now.object operation.now.op) }
        requires index { self.old.site.next ≤ operation.now.index }
        requires range { operation.now.index ≤ 999999999 }
        requires kind { T.kind server.old
            ≡ kind_of (start_of self.old.site.objects operation.now.object) }
        ensures ok { OnOk result (self.new.site ≡ taken_over self.old.site operation.now) }
    {
        if !self.kept.is_fresh(operation) {
            return self.kept.append(operation);
        }
        match self.kept.grant(operation, server)? {
            Grant::Done(_) => Ok(()),
            Grant::Conflict(_) => self.kept.append(operation),
        }
    }
}
