//! What refuses a line of a run by time, by what the machine keeps.
ghost use Rattle.std.specs.Prelude.{◌≡◌, [], List, None};
ghost use Rattle.cam_type.specs.declared.ObjectDecl.{ObjectDecl};
ghost use Rattle.cam_names.specs.Names.{home_node};
ghost use Rattle.cam_event.specs.Refusals as refusals;
ghost use Rattle.cam_event.specs.Runs.{IsNode};
ghost use Rattle.cam_timed.specs.declared.TimedEvent.{TimedEvent};
ghost use Rattle.cam_timed.specs.KeptSights.{kept_sight};
ghost use Rattle.cam_timed.specs.Machine.{KeepsTimedRun, run_of};
ghost use Rattle.cam_timed.specs.Moments.{events, moment_of, until_of};
ghost use Rattle.cam_timed.specs.TimedRefusals as timed;
ghost use Rattle.cam_timed.specs.TimedRuns.{sight_here};

use super::Machine;
use crate::here::Here;
use crate::refusing::TimedRefusal;
use crate::untils::until_of;
use cam_event::{Deeds, LineRefusal, Want};
use cam_names::Name;
use cam_rules::{Sighted, end_refusal, home_of, query_refusal, refusal};
use cam_type::Objects;

impl Machine {
    /// What refuses the beginning of a top action at a node, with this quiesce moment.
    pub(crate) fn begin_refusal(&self, node: u8, until: u64) -> Option<TimedRefusal>
        requires node { IsNode node }
        ensures { (objects : List ObjectDecl) (t : List TimedEvent)
            → KeepsTimedRun objects t self.now → result ≡ timed.begin_refusal t node until }
    {
        where_quiesced(self.moment_of(node), until, None)
    }

    /// What refuses a request of an action.
    pub(crate) fn request_refusal(
        &self,
        objects: &Objects,
        action: &Name,
        want: &Want,
    ) -> Option<TimedRefusal>
        requires keeps { KeepsTimedRun objects.now (run_of self.now) self.now }
        ensures { result ≡ timed.request_refusal
            (sight_here objects.now (run_of self.now) (home_node action.now)) (run_of self.now)
            action.now want.now }
    {
        let node = home_of(action);
        let none = Deeds::new(self.alloc);
        let here = self.here(objects, node, &none);
        untimed(
            refusal(&here, action, want),
            self.against_want(node, action, want),
        )
    }

    /// What refuses a query of a node after a family.
    pub(crate) fn query_refusal(
        &self,
        objects: &Objects,
        node: u8,
        family: &Name,
    ) -> Option<LineRefusal>
        requires keeps { KeepsTimedRun objects.now (run_of self.now) self.now }
        requires node { IsNode node }
        ensures { result ≡ refusals.query_refusal
            (sight_here objects.now (run_of self.now) node) family.now }
    {
        let none = Deeds::new(self.alloc);
        query_refusal(&self.here(objects, node, &none), family)
    }

    /// What refuses a moment of a node.
    pub(crate) fn tick_refusal(&self, node: u8, moment: u64) -> Option<TimedRefusal>
        requires node { IsNode node }
        ensures { (objects : List ObjectDecl) (t : List TimedEvent)
            → KeepsTimedRun objects t self.now → result ≡ timed.tick_refusal t node moment }
    {
        if self.moment_of(node) < moment {
            None
        } else {
            Some(TimedRefusal::Untimed(LineRefusal::NothingToDo))
        }
    }

    /// What refuses the expiry of a top action.
    pub(crate) fn expire_refusal(&self, objects: &Objects, action: &Name) -> Option<TimedRefusal>
        requires keeps { KeepsTimedRun objects.now (run_of self.now) self.now }
        ensures { result ≡ timed.expire_refusal
            (sight_here objects.now (run_of self.now) (home_node action.now)) (run_of self.now)
            action.now }
    {
        let node = home_of(action);
        let none = Deeds::new(self.alloc);
        let here = self.here(objects, node, &none);
        let early = where_early(self.moment_of(node), self.until_of(action));
        untimed(end_refusal(&here, action), early)
    }
}

impl Machine {
    /// What a node goes by if no letter comes.
    fn here<'a>(&'a self, objects: &'a Objects, node: u8, none: &'a Deeds) -> Here<'a>
        requires keeps { KeepsTimedRun objects.now (run_of self.now) self.now }
        requires node { IsNode node }
        requires none { none.now ≡ [] }
        ensures stands { ⟦<Here<'a> as Sighted>⟧.stands result }
        ensures sight { ⟦<Here<'a> as Sighted>⟧.sight result
            ≡ kept_sight objects.now (events (run_of self.now)) node [] }
    {
        Here {
            alloc: self.alloc,
            objects,
            node,
            own: &self.nodes[node as usize - 1].own,
            all_nodes: &self.shared.all_nodes,
            trace: &self.shared.trace,
            first: none,
        }
    }

    /// The moment of a node.
    fn moment_of(&self, node: u8) -> u64
        requires node { IsNode node }
        ensures { (objects : List ObjectDecl) (t : List TimedEvent)
            → KeepsTimedRun objects t self.now → result ≡ moment_of t node }
    {
        match self.nodes.get(node as usize - 1) {
            Some(node) => node.moment,
            None => 0,
        }
    }

    /// The quiesce moment of an action.
    fn until_of(&self, action: &Name) -> u64
        ensures { (objects : List ObjectDecl) (t : List TimedEvent)
            → KeepsTimedRun objects t self.now → result ≡ until_of t action.now }
    {
        until_of(&self.shared.untils, action)
    }

    /// What refuses a request by moments.
    fn against_want(&self, node: u8, action: &Name, want: &Want) -> Option<TimedRefusal>
        requires node { IsNode node }
        ensures { (objects : List ObjectDecl) (t : List TimedEvent)
            → KeepsTimedRun objects t self.now
            → result ≡ timed.where_quiesced (moment_of t node) (until_of t action.now)
            (timed.early_want t (moment_of t node) want.now) }
    {
        let now = self.moment_of(node);
        let early = match want {
            Want::GiveUp(child) => where_early(now, self.until_of(child)),
            _ => None,
        };
        where_quiesced(now, self.until_of(action), early)
    }
}

/// A refusal without time, else the other.
fn untimed(refusal: Option<LineRefusal>, other: Option<TimedRefusal>) -> Option<TimedRefusal>
    ensures { result ≡ timed.untimed refusal other }
{
    match refusal {
        Some(refusal) => Some(TimedRefusal::Untimed(refusal)),
        None => other,
    }
}

/// A refusal if the moment is not below the quiesce moment, else the other.
fn where_quiesced(now: u64, until: u64, other: Option<TimedRefusal>) -> Option<TimedRefusal>
    ensures { result ≡ timed.where_quiesced now until other }
{
    if now < until {
        other
    } else {
        Some(TimedRefusal::Quiesced { moment: now, until })
    }
}

/// A refusal if the moment is below the quiesce moment.
fn where_early(now: u64, until: u64) -> Option<TimedRefusal>
    ensures { result ≡ timed.where_early now until }
{
    if now < until {
        Some(TimedRefusal::TooEarly { moment: now, until })
    } else {
        None
    }
}
