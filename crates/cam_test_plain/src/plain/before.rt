//! What the deeds before one say, found by going over all of them: nothing is kept from one deed to the next.
ghost use Rattle.std.specs.Prelude.{◌<◌, length, IfSome};

use cam_base::NoMemory;
use cam_event::{Deed, Seen};
use cam_names::Name;
use cam_type::{Objects, Op, site_of};
use std::alloc::Global;

/// What a call asked, and the count at which the object's site was addressed.
#[derive(Clone, Copy)]
pub(super) struct Asked {
    pub(super) object: u8,
    pub(super) op: Op,
    pub(super) count: u32,
}

/// Pairs of a node and a count.
pub(super) type Pairs = Vec<(u8, u32)>;

/// The deeds before one, the oldest first, over the declared objects.
#[derive(Clone, Copy)]
pub(super) struct Before<'a> {
    pub(super) objects: &'a Objects,
    pub(super) deeds: &'a [Deed],
}

impl<'a> Before<'a> {
    /// The last deed, and those before it.
    fn last(&self) -> Option<(&'a Deed, Before<'a>)>
        ensures { IfSome result (λ parts. length parts.1.deeds.now < length self.now.deeds.now) }
    {
        let (deed, deeds) = self.deeds.split_last()?;
        let objects = self.objects;
        Some((deed, Before { objects, deeds }))
    }

    pub(super) fn has(&self, deed: &Deed) -> bool {
        self.deeds.contains(deed)
    }

    /// The count of a node: 1, and 1 more for each crash.
    pub(super) fn count(&self, site: u8) -> u32 {
        let crash = Deed::Crash { site };
        let mut count = 1u32;
        for deed in self.deeds {
            if *deed == crash {
                count = count.saturating_add(1);
            }
        }
        count
    }

    /// The number that the next top action of a node has, in one of the node's counts.
    pub(super) fn next_top(&self, node: u8, count: u32) -> u32 {
        let mut next = 1u32;
        for deed in self.deeds {
            if let Deed::Create { action } = deed {
                if action.depth() == 1 && action.home() == (node, count) {
                    next = next.saturating_add(1);
                }
            }
        }
        next
    }

    /// The number that the next child has for which an action asks.
    pub(super) fn next_child(&self, parent: &Name) -> u32 {
        let mut next = 1u32;
        for deed in self.deeds {
            if matches!(deed, Deed::Ask { action, .. } if action == parent) {
                next = next.saturating_add(1);
            }
        }
        next
    }

    /// The number that the next call of an action has.
    pub(super) fn next_call(&self, caller: &Name) -> u32 {
        let mut next = 1u32;
        for deed in self.deeds {
            if matches!(deed, Deed::Call { action, .. } if action == caller) {
                next = next.saturating_add(1);
            }
        }
        next
    }

    /// An action has asked to commit, with whatever value.
    pub(super) fn asked_commit(&self, name: &Name) -> bool {
        for deed in self.deeds {
            if matches!(deed, Deed::AskCommit { action, .. } if action == name) {
                return true;
            }
        }
        false
    }

    /// Some action has asked for the child.
    pub(super) fn asked_for(&self, name: &Name) -> bool {
        for deed in self.deeds {
            if matches!(deed, Deed::Ask { child, .. } if child == name) {
                return true;
            }
        }
        false
    }

    /// A family is secured at a site, at whatever count.
    pub(super) fn secured_at(&self, name: &Name, node: u8) -> bool {
        for deed in self.deeds {
            if matches!(deed, Deed::Secure { family, site, .. } if family == name && *site == node)
            {
                return true;
            }
        }
        false
    }

    /// A call was performed or bounced.
    pub(super) fn replied(&self, caller: &Name, call: u32) -> bool {
        for deed in self.deeds {
            match deed {
                Deed::Perform { action, number, .. } | Deed::Bounce { action, number, .. } => {
                    if action == caller && *number == call {
                        return true;
                    }
                }
                _ => {}
            }
        }
        false
    }

    pub(super) fn decided(&self, name: &Name) -> bool {
        self.has(&Deed::Commit { action: *name }) || self.has(&Deed::Abort { action: *name })
    }

    /// The home of an action has not crashed since the action was named.
    pub(super) fn is_at_home(&self, name: &Name) -> bool {
        let (node, count) = name.home();
        self.count(node) == count
    }

    /// An action was created, has not ended, and is at home.
    pub(super) fn runs(&self, name: &Name) -> bool {
        let has_ended = self.asked_commit(name) || self.has(&Deed::AskAbort { action: *name });
        self.has(&Deed::Create { action: *name }) && !has_ended && self.is_at_home(name)
    }

    /// What the call of an action with this number asked.
    pub(super) fn asked(&self, caller: &Name, call: u32) -> Option<Asked> {
        let mut found = None;
        for deed in self.deeds {
            if let Deed::Call {
                action,
                number,
                object,
                op,
                count,
            } = deed
            {
                if action == caller && *number == call {
                    found = Some(Asked {
                        object: *object,
                        op: *op,
                        count: *count,
                    });
                }
            }
        }
        found
    }

    /// The number of the call of an action that has not got its end.
    pub(super) fn open_call(&self, caller: &Name) -> Option<u32> {
        let mut open = None;
        for deed in self.deeds {
            match deed {
                Deed::Call { action, number, .. } if action == caller => open = Some(*number),
                Deed::Got { action, .. } if action == caller => open = None,
                _ => {}
            }
        }
        open
    }

    /// A child for which the action asked was neither committed nor aborted since.
    pub(super) fn has_open_child(&self, alloc: Global, parent: &Name) -> Result<bool, NoMemory> {
        let mut open: Vec<Name> = Vec::new(alloc);
        for deed in self.deeds {
            match deed {
                Deed::Ask { action, child } if action == parent => open.push(*child)?,
                Deed::Commit { action } | Deed::Abort { action } => {
                    open.retain(|child| child != action)
                }
                _ => {}
            }
        }
        Ok(!open.is_empty())
    }

    /// Adds the pair of the site that a call addressed and the count that it gave.
    fn add_site(&self, caller: &Name, call: u32, pairs: &mut Pairs) -> Result<(), NoMemory> {
        if let Some(asked) = self.asked(caller, call) {
            pairs.push((site_of(self.objects, asked.object), asked.count))?;
        }
        Ok(())
    }

    /// Adds the pairs on which an action depends: its home, what its parent depended on when it asked for it, the sites whose
    /// answers it got, and what its committed children depended on.
    pub(super) fn add_deps(&self, name: &Name, pairs: &mut Pairs) -> Result<(), NoMemory> {
        let Some((deed, before)) = self.last() else {
            return Ok(());
        };
        before.add_deps(name, pairs)?;
        match deed {
            Deed::Create { action } if action == name && action.depth() == 1 => {
                pairs.push(action.home())?;
            }
            Deed::Ask { action, child } if child == name => {
                before.add_deps(action, pairs)?;
                pairs.push(child.home())?;
            }
            Deed::Got {
                action,
                number,
                seen: Seen::Done(_),
            } if action == name => {
                before.add_site(action, *number, pairs)?;
            }
            Deed::Commit { action } if name.is_parent(action) => before.add_deps(action, pairs)?,
            _ => {}
        }
        Ok(())
    }
}
