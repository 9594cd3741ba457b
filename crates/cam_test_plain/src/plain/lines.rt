//! The lines of the plain machine, each asked of the deeds before.

use super::before::{Asked, Before, Pairs};
use cam_base::NoMemory;
use cam_event::{Deed, Seen};
use cam_names::Name;
use cam_plain::{CheckFault, DeedKind};
use cam_type::{Answer, Objects, is_fit, site_of};
use std::alloc::Global;

/// Whether the deeds are a legal history; if not, the first that is not legal.
pub(super) fn check(alloc: Global, deeds: &[Deed], objects: &Objects) -> Result<(), CheckFault> {
    for (at, deed) in deeds.iter().enumerate() {
        let before = Before {
            objects,
            deeds: deeds.get(..at).unwrap_or(deeds),
        };
        if !before.takes(alloc, deed)? {
            return Err(CheckFault::Illegal {
                at: at as u64,
                cause: DeedKind::of(deed),
            });
        }
    }
    Ok(())
}

impl Before<'_> {
    /// Whether the deed meets its line.
    pub(super) fn takes(&self, alloc: Global, deed: &Deed) -> Result<bool, NoMemory> {
        match deed {
            Deed::Create { action } => Ok(self.may_create(action)),
            Deed::Ask { action, child } => Ok(self.may_ask(action, child)),
            Deed::Perform {
                action,
                number,
                answer,
            } => self.may_perform(alloc, action, *number, answer),
            Deed::Bounce {
                action,
                number,
                holder,
            } => self.may_bounce(alloc, action, *number, holder),
            Deed::Got {
                action,
                number,
                seen,
            } => Ok(self.may_get(action, *number, seen)),
            Deed::AskCommit { action, .. } => self.may_end(alloc, action),
            Deed::AskAbort { action } => Ok(self.runs(action)),
            Deed::Commit { action } => self.may_commit(alloc, action),
            Deed::Abort { action } => Ok(self.may_abort(action)),
            Deed::Inform {
                name,
                committed,
                ..
            } => Ok(self.may_inform(deed, name, *committed)),
            Deed::Crash { .. } => Ok(true),
            _ => self.takes_of_site(alloc, deed),
        }
    }

    fn takes_of_site(&self, alloc: Global, deed: &Deed) -> Result<bool, NoMemory> {
        match deed {
            Deed::Call {
                action,
                number,
                object,
                op,
                count,
            } => {
                let call = Asked {
                    object: *object,
                    op: *op,
                    count: *count,
                };
                self.may_call(alloc, action, *number, &call)
            }
            Deed::Secure {
                family,
                site,
                count,
            } => self.may_secure(alloc, family, *site, *count),
            _ => Ok(true),
        }
    }

    /// Once, at the present count of its home: a child where it was asked for, a top action under the next number.
    fn may_create(&self, action: &Name) -> bool {
        let (node, count) = action.home();
        let is_placed = if action.depth() == 1 {
            last_number(action) == Some(self.next_top(node, count))
        } else {
            self.asked_for(action)
        };
        !self.has(&Deed::Create { action: *action }) && self.is_at_home(action) && is_placed
    }

    /// By an action that runs and has no open call, under the next number.
    fn may_ask(&self, action: &Name, child: &Name) -> bool {
        let (node, count) = child.home();
        self.runs(action)
            && self.open_call(action).is_none()
            && action.depth() < 8
            && action.is_parent(child)
            && count <= self.count(node)
            && last_number(child) == Some(self.next_child(action))
    }

    /// An action runs with no call and no child open.
    fn may_end(&self, alloc: Global, action: &Name) -> Result<bool, NoMemory> {
        let has_open_child = self.has_open_child(alloc, action)?;
        Ok(self.runs(action) && self.open_call(action).is_none() && !has_open_child)
    }

    fn may_call(
        &self,
        alloc: Global,
        action: &Name,
        number: u32,
        call: &Asked,
    ) -> Result<bool, NoMemory> {
        let may_end = self.may_end(alloc, action)?;
        Ok(
            may_end
                && number == self.next_call(action)
                && is_fit(self.objects, call.object, &call.op)
                && call.count <= self.count(site_of(self.objects, call.object)),
        )
    }

    /// A call to which no reply was made comes while its site stands at the addressed count.
    pub(super) fn arriving(&self, action: &Name, number: u32) -> Option<Asked> {
        let call = self.asked(action, number)?;
        let is_in_time = call.count == self.count(site_of(self.objects, call.object));
        if is_in_time && !self.replied(action, number) {
            Some(call)
        } else {
            None
        }
    }

    fn may_perform(
        &self,
        alloc: Global,
        action: &Name,
        number: u32,
        answer: &Answer,
    ) -> Result<bool, NoMemory> {
        let Some(call) = self.arriving(action, number) else {
            return Ok(false);
        };
        let is_free = self.holder(alloc, action, &call)?.is_none();
        Ok(is_free && self.answer(alloc, &call)? == *answer)
    }

    fn may_bounce(
        &self,
        alloc: Global,
        action: &Name,
        number: u32,
        holder: &Name,
    ) -> Result<bool, NoMemory> {
        let Some(call) = self.arriving(action, number) else {
            return Ok(false);
        };
        Ok(self.holder(alloc, action, &call)? == Some(*holder))
    }

    /// An action that runs gets what came of its open call: its site has crashed since it was addressed where it is gone.
    fn may_get(&self, action: &Name, number: u32, seen: &Seen) -> bool {
        let is_so = match seen {
            Seen::Done(answer) => self.has(&Deed::Perform {
                action: *action,
                number,
                answer: *answer,
            }),
            Seen::Busy(holder) => self.has(&Deed::Bounce {
                action: *action,
                number,
                holder: *holder,
            }),
            Seen::Gone => match self.asked(action, number) {
                Some(call) => call.count < self.count(site_of(self.objects, call.object)),
                None => false,
            },
        };
        self.runs(action) && self.open_call(action) == Some(number) && is_so
    }

    /// A child by a parent that runs; a top action at home, where it is secured at each pair on which it depends.
    fn may_commit(&self, alloc: Global, action: &Name) -> Result<bool, NoMemory> {
        let may = match action.parent() {
            Some(parent) => self.runs(&parent),
            None => self.is_at_home(action) && self.is_secured(alloc, action)?,
        };
        Ok(self.asked_commit(action) && !self.decided(action) && may)
    }

    fn is_secured(&self, alloc: Global, family: &Name) -> Result<bool, NoMemory> {
        let mut pairs = Pairs::new(alloc);
        self.add_deps(family, &mut pairs)?;
        for (site, count) in pairs.as_slice() {
            let secure = Deed::Secure {
                family: *family,
                site: *site,
                count: *count,
            };
            if !self.has(&secure) {
                return Ok(false);
            }
        }
        Ok(true)
    }

    /// A child by a parent that runs and has asked for it; a top action where it was created.
    fn may_abort(&self, action: &Name) -> bool {
        let may = match action.parent() {
            Some(parent) => {
                let ask = Deed::Ask {
                    action: parent,
                    child: *action,
                };
                self.runs(&parent) && self.has(&ask)
            }
            None => self.has(&Deed::Create { action: *action }),
        };
        !self.decided(action) && may
    }

    /// A site hears once of an outcome that was decided.
    fn may_inform(&self, deed: &Deed, name: &Name, committed: bool) -> bool {
        let outcome = if committed {
            Deed::Commit { action: *name }
        } else {
            Deed::Abort { action: *name }
        };
        self.has(&outcome) && !self.has(deed)
    }

    /// A family depends on a site at a count.
    fn depends_on(
        &self,
        alloc: Global,
        family: &Name,
        site: u8,
        count: u32,
    ) -> Result<bool, NoMemory> {
        let mut pairs = Pairs::new(alloc);
        self.add_deps(family, &mut pairs)?;
        Ok(pairs.contains(&(site, count)))
    }

    /// Once, for a family that has asked to commit, at the present count of a site on which it depends, when all its live
    /// operations there have been handed up to it.
    fn may_secure(
        &self,
        alloc: Global,
        family: &Name,
        site: u8,
        count: u32,
    ) -> Result<bool, NoMemory> {
        let depends_on_it = self.depends_on(alloc, family, site, count)?;
        Ok(
            family.depth() == 1
                && self.asked_commit(family)
                && depends_on_it
                && count == self.count(site)
                && !self.secured_at(family, site)
                && self.is_handed_up(alloc, family, site)?,
        )
    }

    fn is_handed_up(&self, alloc: Global, family: &Name, site: u8) -> Result<bool, NoMemory> {
        for operation in self.live(alloc)?.as_slice() {
            let is_its = operation.action.family() == *family && self.site_of(operation) == site;
            if is_its && self.lift(operation) != Some(*family) {
                return Ok(false);
            }
        }
        Ok(true)
    }
}

/// The number of the last part of a name.
fn last_number(name: &Name) -> Option<u32> {
    Some(name.parts().last()?.number)
}
