//! The operation that was done last is taken back, as if it had not been done: for a step that
//! finds no memory after it.
ghost use Rattle.std.specs.Prelude.{◌≡◌, ◌+◌, filter, IfSome, IfNone};
ghost use Rattle.cam_locks.specs.declared.LiveOp.{LiveOp as LiveOpValue};
ghost use Rattle.cam_locks.specs.Members.{In};
ghost use Rattle.cam_locks.specs.Live.{other};
ghost use Rattle.cam_locks.specs.Granted.{IsKept, IsTakenBack};

use crate::kept::Kept;
use crate::live::Live;
use crate::placed::Placed;
use crate::{LiveOp, by_object};

impl Live {
    /// The live operation whose index was given last, if it is live.
    #[tactic(auto, using(crate::proofs::TakenSlots::not_there))]
    pub(crate) fn newest(&self) -> Option<LiveOp>
        ensures found { IfSome result (λ o. In o self.now.ops × (self.now.next ≡ o.index + 1)) }
        ensures none { IfNone result ((o : LiveOpValue) → In o self.now.ops
            → self.now.next ≡ o.index + 1 → ⊥) }
    {
        match self.next.checked_sub(1) {
            Some(index) => self.at(index),
            None => None,
        }
    }

    /// Takes back the operation whose index was given last. It takes no memory.
    pub(crate) fn take_back(&mut self, operation: &LiveOp)
        requires live { In operation.now self.old.ops }
        requires newest { self.old.next ≡ operation.now.index + 1 }
        ensures ops { self.new.ops ≡ filter (other operation.now.index) self.old.ops }
        ensures next { self.new.next ≡ operation.now.index }
    {
        self.by_name.remove(&Placed::of(operation));
        self.sums.take_back(operation.object, &operation.op);
        let _ = self.slots.pop();
        self.next = operation.index;
    }
}

impl Kept {
    /// Takes back the operation whose index was given last, if it is live. Nothing is kept of its
    /// object from now on. It takes no memory.
    pub(crate) fn take_back(&mut self)
        requires { IsKept self.old }
        ensures { IsTakenBack self.old self.new }
    {
        let Some(operation) = self.live.newest() else {
            return;
        };
        self.live.take_back(&operation);
        by_object::spoil_at(&mut self.locks, operation.object);
    }
}
