//! A lock table that goes by the rule as it is written: it replays its list of live operations at each call. It is
//! there to compare with.

use cam_base::NoMemory;
use cam_know::{Know, Outcome};
use cam_locks::LiveOp;
use cam_names::Name;
use cam_type::{Answer, Held, HeldOp, HeldOps, Objects, Op, State, apply, compatible, mode_of};
use std::alloc::Global;
use std::collections::HashSet;

/// What a table answers: what the operation answered, or who stands in the way.
#[derive(Clone, Copy, Debug, PartialEq, Eq)]
pub(super) enum Told {
    Done(Answer),
    Busy(Name),
    /// The operation is none of the table's.
    Unfit,
}

/// The live operations of a site in order, the commits that the site was informed of, and the next index.
#[derive(Drop)]
pub(super) struct PlainTable {
    live: Vec<LiveOp>,
    committed: HashSet<Name>,
    pub(super) next: u32,
}

impl PlainTable {
    pub(super) fn new(alloc: Global) -> PlainTable {
        PlainTable {
            live: Vec::new(alloc),
            committed: HashSet::new(alloc),
            next: 0,
        }
    }

    /// An operation waits for the first live one whose holder is neither an ancestor nor past the top, where their
    /// modes are not compatible. Else it is done at the value of the object.
    pub(super) fn ask(
        &mut self,
        objects: &Objects,
        name: &Name,
        object: u8,
        op: &Op,
    ) -> Result<Told, NoMemory> {
        if let Some(holder) = self.holder(name, object, op) {
            return Ok(Told::Busy(holder));
        }
        let Some(answer) = self.answer(objects, object, op)? else {
            return Ok(Told::Unfit);
        };
        self.live.push(LiveOp {
            index: self.next,
            action: *name,
            object,
            op: *op,
        })?;
        self.next = self.next.saturating_add(1);
        Ok(Told::Done(answer))
    }

    /// What an operation answers at the value of the object.
    fn answer(&self, objects: &Objects, object: u8, op: &Op) -> Result<Option<Answer>, NoMemory> {
        let Some(mut value) = self.value(objects, object, false)? else {
            return Ok(None);
        };
        Ok(Some(apply(&mut value, op)?))
    }

    pub(super) fn commit(&mut self, name: &Name) -> Result<(), NoMemory> {
        self.committed.insert(*name)?;
        Ok(())
    }

    pub(super) fn abort(&mut self, name: &Name) {
        self.live
            .retain(|operation| !name.is_ancestor(&operation.action));
    }

    /// The start state of an object after all its live operations, or after those alone that are handed up past the
    /// top.
    pub(super) fn value(
        &self,
        objects: &Objects,
        object: u8,
        is_settled: bool,
    ) -> Result<Option<State>, NoMemory> {
        let Some(declared) = objects.get(object as usize) else {
            return Ok(None);
        };
        let mut state = declared.start.copy()?;
        for operation in self.live.as_slice() {
            let counts = !is_settled || self.lift(&operation.action).is_none();
            if operation.object == object && counts {
                apply(&mut state, &operation.op)?;
            }
        }
        Ok(Some(state))
    }

    /// What is secured of a family.
    pub(super) fn secured(&self, family: &Name) -> Result<HeldOps, NoMemory> {
        let mut ops = HeldOps::new(*self.live.allocator());
        for operation in self.live.as_slice() {
            if operation.action.family() == *family {
                ops.push(HeldOp {
                    index: operation.index,
                    object: operation.object,
                    op: operation.op,
                })?;
            }
        }
        Ok(ops)
    }

    /// Goes on with what was held of these families: the operations of those whose abort is not known, in order, and
    /// what is known.
    pub(super) fn restart(&mut self, held: &[Held], know: &Know) -> Result<(), NoMemory> {
        let alloc = *self.live.allocator();
        *self = PlainTable::new(alloc);
        for family in held {
            self.take_over(family, know)?;
        }
        self.live.sort_unstable_by_key(|operation| operation.index);
        self.commit_all(know)
    }

    /// Takes in the commits that are known.
    fn commit_all(&mut self, know: &Know) -> Result<(), NoMemory> {
        for outcome in know.outcomes() {
            if let Outcome::Committed(name, _) = outcome {
                self.commit(name)?;
            }
        }
        Ok(())
    }

    fn take_over(&mut self, held: &Held, know: &Know) -> Result<(), NoMemory> {
        for op in held.ops.as_slice() {
            self.next = self.next.max(op.index.saturating_add(1));
            if !know.is_aborted(&held.family) {
                self.live.push(LiveOp {
                    index: op.index,
                    action: held.family,
                    object: op.object,
                    op: op.op,
                })?;
            }
        }
        Ok(())
    }

    /// The holder of the first operation that conflicts.
    fn holder(&self, name: &Name, object: u8, op: &Op) -> Option<Name> {
        for operation in self.live.as_slice() {
            if operation.object != object || compatible(mode_of(&operation.op), mode_of(op)) {
                continue;
            }
            match self.lift(&operation.action) {
                Some(holder) if !holder.is_ancestor(name) => return Some(holder),
                _ => {}
            }
        }
        None
    }

    /// Climbs to the parent while the present action is known committed. A name has at most 8 parts.
    fn lift(&self, name: &Name) -> Option<Name> {
        let mut lift = Some(*name);
        for _ in 0..8u8 {
            match lift {
                Some(present) if self.committed.contains(&present) => lift = present.parent(),
                _ => return lift,
            }
        }
        lift
    }
}
