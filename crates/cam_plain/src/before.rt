//! What is known of the deeds before one.
ghost use Rattle.std.specs.Prelude.{◌≡◌, true, false, is_some};
ghost use Rattle.std.specs.List.{list_any};
ghost use Rattle.cam_event.specs.History.{count, created, ended, asked_commit, committed, aborted};
ghost use Rattle.cam_event.specs.History.{asks, calls, open_call, call_of, has_open_child};
ghost use Rattle.cam_event.specs.History.{tops, secured, secured_at, informed};
ghost use Rattle.cam_live.specs.Ledger.{addressed};
ghost use Rattle.cam_plain.specs.Legal.{history};
ghost use Rattle.cam_plain.specs.Lines.{asked_for, replied, is_perform, is_bounce};
ghost use Rattle.cam_plain.specs.Actions.{action_of};
ghost use Rattle.cam_plain.specs.Kept.{IsKnown};

use crate::actions::{Action, action_in};
use crate::site::is_secured;
use crate::tables::Tables;
use crate::tops::tops_in;
use cam_event::Deed;
use cam_live::AddressedCall;
use cam_names::Name;
use cam_type::{Answer, Objects};

/// The deeds before one, over the declared objects, with what is kept of them.
#[derive(Clone, Copy)]
pub(crate) struct Before<'a> {
    pub(crate) objects: &'a Objects,
    /// What contracts speak of: no function reads it.
    pub(crate) deeds: &'a [Deed],
    pub(crate) tables: &'a Tables,
}

impl Before<'_> {
    /// What they say of an action.
    pub(crate) fn action(&self, name: &Name) -> Action
        requires { IsKnown self.now.objects.now (history self.now.deeds.now) self.now.tables.now }
        ensures { result ≡ action_of (history self.now.deeds.now) name.now }
    {
        // A name has a part.
        prove!(name.depth() > 0);
        action_in(&self.tables.actions, name)
    }

    /// Whether a child of the action is open: not all that it asked for are decided.
    pub(crate) fn has_open_child(&self, name: &Name) -> bool
        requires { IsKnown self.now.objects.now (history self.now.deeds.now) self.now.tables.now }
        ensures { result ≡ has_open_child (history self.now.deeds.now) name.now }
    {
        // A name has a part.
        prove!(name.depth() > 0);
        let action = self.action(name);
        action.asks != action.decisions
    }

    /// How many top actions a node has created in one of its counts.
    pub(crate) fn tops(&self, node: u8, count: u32) -> u64
        requires { IsKnown self.now.objects.now (history self.now.deeds.now) self.now.tables.now }
        ensures { result ≡ tops (history self.now.deeds.now) node count }
    {
        tops_in(&self.tables.tops, node, count)
    }

    /// The count of a node.
    pub(crate) fn count(&self, site: u8) -> u64
        requires { IsKnown self.now.objects.now (history self.now.deeds.now) self.now.tables.now }
        ensures { result ≡ count (history self.now.deeds.now) site }
    {
        self.tables.ledger.count(site)
    }

    /// What the action's call of this number asked.
    pub(crate) fn call(&self, action: &Name, number: u32) -> Option<AddressedCall>
        requires { IsKnown self.now.objects.now (history self.now.deeds.now) self.now.tables.now }
        ensures { addressed result ≡ call_of (history self.now.deeds.now) action.now number }
    {
        self.tables.ledger.call(action, number)
    }

    /// Whether there is a reply to the call.
    pub(crate) fn replied(&self, action: &Name, number: u32) -> bool
        requires { IsKnown self.now.objects.now (history self.now.deeds.now) self.now.tables.now }
        ensures { result ≡ replied (history self.now.deeds.now) action.now number }
    {
        let replies = &self.tables.replies;
        replies.answer(action, number).is_some() || replies.holder(action, number).is_some()
    }

    /// Whether the call was performed with this answer.
    pub(crate) fn is_performed(&self, action: &Name, number: u32, answer: &Answer) -> bool
        requires { IsKnown self.now.objects.now (history self.now.deeds.now) self.now.tables.now }
        ensures { result
            ≡ list_any (is_perform action.now number answer.now) (history self.now.deeds.now) }
    {
        match self.tables.replies.answer(action, number) {
            Some(given) => *answer == given,
            None => false,
        }
    }

    /// Whether the call was bounced with this holder.
    pub(crate) fn is_bounced(&self, action: &Name, number: u32, holder: &Name) -> bool
        requires { IsKnown self.now.objects.now (history self.now.deeds.now) self.now.tables.now }
        ensures { result
            ≡ list_any (is_bounce action.now number holder.now) (history self.now.deeds.now) }
    {
        match self.tables.replies.holder(action, number) {
            Some(named) => *holder == named,
            None => false,
        }
    }

    /// Whether the family was secured at the site, at whatever count.
    pub(crate) fn is_secured_at(&self, family: &Name, site: u8) -> bool
        requires { IsKnown self.now.objects.now (history self.now.deeds.now) self.now.tables.now }
        ensures { result ≡ secured_at (history self.now.deeds.now) family.now site }
    {
        is_secured(&self.tables.ledger, site, family)
    }

    /// Whether the family was secured at the site at this count.
    pub(crate) fn is_secured(&self, family: &Name, site: u8, count: u32) -> bool
        requires { IsKnown self.now.objects.now (history self.now.deeds.now) self.now.tables.now }
        ensures { result ≡ secured (history self.now.deeds.now) family.now site count }
    {
        match self.tables.ledger.first_secured(site, family) {
            Some(first) => count as u64 == first,
            None => false,
        }
    }

    /// Whether the site was informed of this outcome of the action.
    pub(crate) fn is_informed(&self, site: u8, name: &Name, committed: bool) -> bool
        requires { IsKnown self.now.objects.now (history self.now.deeds.now) self.now.tables.now }
        ensures { result ≡ informed (history self.now.deeds.now) site name.now committed }
    {
        if committed {
            self.tables.ledger.has_commit(site, name)
        } else {
            self.tables.ledger.has_abort(site, name)
        }
    }
}
