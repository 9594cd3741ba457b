//! The live operations after some deeds, who stands in the way of a call, and what it would answer, by going over the deeds.

use super::before::{Asked, Before};
use cam_base::NoMemory;
use cam_event::{Deed, Operation};
use cam_names::Name;
use cam_type::{Answer, State, apply, compatible, mode_of, site_of, start_of};
use std::alloc::Global;

/// Operations in the order in which they were performed.
pub(super) type Performed = Vec<Operation>;

impl<'a> Before<'a> {
    /// The deeds before the one at a place.
    fn until(&self, at: usize) -> Before<'a> {
        Before {
            objects: self.objects,
            deeds: self.deeds.get(..at).unwrap_or(self.deeds),
        }
    }

    /// Adds the operation of a call that is performed now.
    fn add_performed(
        &self,
        action: &Name,
        number: u32,
        answer: &Answer,
        operations: &mut Performed,
    ) -> Result<(), NoMemory> {
        if let Some(call) = self.asked(action, number) {
            operations.push(Operation {
                action: *action,
                number,
                object: call.object,
                op: call.op,
                answer: *answer,
            })?;
        }
        Ok(())
    }

    /// An operation outlives a crash of this site now.
    fn outlives(&self, operation: &Operation, site: u8) -> bool {
        self.site_of(operation) != site || self.secured_at(&operation.action.family(), site)
    }

    /// The operations that no crash of their site has removed. It keeps those of families that were secured there before.
    fn surviving(&self, alloc: Global) -> Result<Performed, NoMemory> {
        let mut operations = Performed::new(alloc);
        for (at, deed) in self.deeds.iter().enumerate() {
            let before = self.until(at);
            match deed {
                Deed::Perform {
                    action,
                    number,
                    answer,
                } => before.add_performed(action, *number, answer, &mut operations)?,
                Deed::Crash { site } => {
                    operations.retain(|operation| before.outlives(operation, *site))
                }
                _ => {}
            }
        }
        Ok(operations)
    }

    pub(super) fn site_of(&self, operation: &Operation) -> u8 {
        site_of(self.objects, operation.object)
    }

    /// The surviving operations whose site was not informed of the abort of their action or of one above it.
    pub(super) fn live(&self, alloc: Global) -> Result<Performed, NoMemory> {
        let mut operations = self.surviving(alloc)?;
        operations.retain(|operation| !self.is_dropped(operation));
        Ok(operations)
    }

    fn is_dropped(&self, operation: &Operation) -> bool {
        let site = self.site_of(operation);
        let mut present = Some(operation.action);
        for _ in 0..8u8 {
            if let Some(name) = present {
                let abort = Deed::Inform {
                    site,
                    name,
                    committed: false,
                };
                if self.has(&abort) {
                    return true;
                }
                present = name.parent();
            }
        }
        false
    }

    /// Climbs to the parent while the site was informed of the commit of the present one. A name has at most 8 parts.
    pub(super) fn lift(&self, operation: &Operation) -> Option<Name> {
        let site = self.site_of(operation);
        let mut lift = Some(operation.action);
        for _ in 0..8u8 {
            if let Some(name) = lift {
                let commit = Deed::Inform {
                    site,
                    name,
                    committed: true,
                };
                if self.has(&commit) {
                    lift = name.parent();
                }
            }
        }
        lift
    }

    /// The lift of the first live operation that conflicts with a call of an action.
    pub(super) fn holder(
        &self,
        alloc: Global,
        caller: &Name,
        call: &Asked,
    ) -> Result<Option<Name>, NoMemory> {
        for operation in self.live(alloc)?.as_slice() {
            if operation.object != call.object
                || compatible(mode_of(&operation.op), mode_of(&call.op))
            {
                continue;
            }
            match self.lift(operation) {
                Some(holder) if !holder.is_ancestor(caller) => return Ok(Some(holder)),
                _ => {}
            }
        }
        Ok(None)
    }

    /// Applies the live operations of an object.
    fn apply_live(&self, alloc: Global, object: u8, state: &mut State) -> Result<(), NoMemory> {
        for operation in self.live(alloc)?.as_slice() {
            if operation.object == object {
                apply(state, &operation.op)?;
            }
        }
        Ok(())
    }

    /// What a call answers at the value of its object.
    pub(super) fn answer(&self, alloc: Global, call: &Asked) -> Result<Answer, NoMemory> {
        let mut state = start_of(self.objects, call.object as usize)?;
        self.apply_live(alloc, call.object, &mut state)?;
        apply(&mut state, &call.op)
    }
}
