//! What a lock table goes by: grants, aborts and values, by what is kept of an object where anything is, and else by the list.
ghost use Rattle.std.specs.Prelude.{◌≡◌, true, IfOk};
ghost use Rattle.cam_locks.specs.Granted.{IsKept, MayFollow, MayBeAsked, IsAdded, IsGranted, IsDroppedFrom};
ghost use Rattle.cam_locks.specs.Fresh.{IsFresh};
ghost use Rattle.cam_locks.specs.Moss.{settled_of};

use crate::live::Live;
use crate::locks::Locks;
use crate::names::Names;
use crate::{Grant, LiveOp, by_list, by_object};
use cam_base::NoMemory;
use cam_names::Name;
use cam_type::{DataType, Objects, State};

/// The objects, the commits that the site was informed of, its live operations, and what is kept of each object so that it need not be
/// replayed.
#[derive(Drop)]
pub(crate) struct Kept {
    pub(crate) objects: Objects,
    pub(crate) committed: Names,
    pub(crate) live: Live,
    /// By the place of the object.
    pub(crate) locks: Vec<Locks>,
}

impl Kept {
    /// The value of the object that is handed up past the top.
    pub(crate) fn settled(&self, object: u8) -> Result<State, NoMemory>
        requires { IsKept self.now }
        ensures { IfOk result (λ state. state
            ≡ settled_of self.now.objects self.now.committed.names self.now.live.ops object) }
    {
        if by_object::is_versioned(&self.locks, object) {
            return self.locks[object as usize].settled(&self.live, &self.committed);
        }
        let all = self.live.to_vec()?;
        let alloc = self.live.allocator();
        by_list::settled(
            alloc,
            all.as_slice(),
            &self.committed,
            &self.objects,
            object,
        )
    }

    /// Whether what is kept of the object of an operation can be gone by.
    pub(crate) fn is_fresh(&self, operation: &LiveOp) -> bool
        ensures { result ≡ true → IsFresh self.now.locks.items operation.now.object }
    {
        by_object::is_kept(&self.locks, operation.object)
    }

    /// Does an operation, unless a live one conflicts.
    pub(crate) fn grant<T: DataType>(
        &mut self,
        operation: &LiveOp,
        server: &mut T,
    ) -> Result<Grant, NoMemory>
        requires kept { IsKept self.old }
        requires asked { MayBeAsked self.old operation.now (T.kind server.old) }
        ensures granted { IsGranted self.old operation.now (T.held server.old)
            result self.new (T.held server.new) }
        ensures kind_stays { T.kind server.new ≡ T.kind server.old }
    {
        if self.is_fresh(operation) {
            self.grant_by_locks(operation, server)
        } else {
            self.grant_by_list(operation, server)
        }
    }

    /// Does an operation on an object of which all is kept, unless a live one conflicts.
    fn grant_by_locks<T: DataType>(
        &mut self,
        operation: &LiveOp,
        server: &mut T,
    ) -> Result<Grant, NoMemory>
        requires kept { IsKept self.old }
        requires asked { MayBeAsked self.old operation.now (T.kind server.old) }
        requires fresh { IsFresh self.old.locks.items operation.now.object }
        ensures granted { IsGranted self.old operation.now (T.held server.old)
            result self.new (T.held server.new) }
        ensures kind_stays { T.kind server.new ≡ T.kind server.old }
    {
        let holder = by_object::holder(&mut self.locks, operation, &self.live, &self.committed);
        if let Some(holder) = holder {
            return Ok(Grant::Conflict(holder));
        }
        let locks = &mut self.locks;
        let answer = by_object::perform(locks, operation, &self.live, &self.committed, server)?;
        if let Err(fault) = self.live.push(operation) {
            // What is kept has the operation already.
            by_object::spoil_at(&mut self.locks, operation.object);
            return Err(fault);
        }
        Ok(Grant::Done(answer))
    }

    /// Does an operation by the list, unless a live one conflicts. Nothing is kept of its object from now on.
    fn grant_by_list<T: DataType>(
        &mut self,
        operation: &LiveOp,
        server: &mut T,
    ) -> Result<Grant, NoMemory>
        requires kept { IsKept self.old }
        requires asked { MayBeAsked self.old operation.now (T.kind server.old) }
        ensures granted { IsGranted self.old operation.now (T.held server.old)
            result self.new (T.held server.new) }
        ensures kind_stays { T.kind server.new ≡ T.kind server.old }
    {
        let all = self.live.to_vec()?;
        if let Some(holder) = by_list::holder(all.as_slice(), &self.committed, operation) {
            return Ok(Grant::Conflict(holder));
        }
        let alloc = self.live.allocator();
        let answer = by_list::serve(all.as_slice(), &self.objects, operation, server, alloc)?;
        self.append(operation)?;
        Ok(Grant::Done(answer))
    }

    /// Adds an operation, of whose object nothing is kept from now on.
    pub(crate) fn append(&mut self, operation: &LiveOp) -> Result<(), NoMemory>
        requires kept { IsKept self.old }
        requires follows { MayFollow self.old operation.now }
        ensures { IsAdded self.old operation.now result self.new }
    {
        self.live.push(operation)?;
        by_object::spoil_at(&mut self.locks, operation.object);
        Ok(())
    }

    /// Leaves out the operations of an action and of all below it. What is kept of versions would not follow where the action is known
    /// committed too: then nothing is kept of their objects from now on. It takes no memory.
    pub(crate) fn abort(&mut self, name: &Name)
        requires { IsKept self.old }
        ensures { IsDroppedFrom self.old name.now self.new }
    {
        let live = &mut self.live;
        let locks = &mut self.locks;
        let spoils = self.committed.contains(name);
        while let Some(operation) = live.one_below(name) {
            if spoils {
                by_object::spoil_at(locks, operation.object);
            }
            live.drop_one(&operation);
        }
    }
}
