//! Requests of actions at their home. An action that is an orphan by what it depends on is stopped: nothing else happens.
ghost use Rattle.std.specs.Prelude.{◌≡◌, [], None, IfOk};
ghost use Rattle.cam_names.specs.Dependencies.{pairs_of};
ghost use Rattle.cam_know.specs.Orphans.{known_orphan};
ghost use Rattle.cam_event.specs.declared.Note.TheVariants as notes;
ghost use Rattle.cam_event.specs.Rules.{nothing_but};
ghost use Rattle.cam_event.specs.ByPast.{event_of};
ghost use Rattle.cam_tranman.specs.Actions.{deps};
ghost use Rattle.cam_tranman.specs.Calls.{refusal_by};
ghost use Rattle.cam_node.specs.Calls.{answers};

use crate::state::Core;
use crate::{Letters, Stepped};
use cam_event::{Deeds, Event, LineRefusal, Note, Request, SentList};
use cam_know::Reason;
use cam_names::{Deps, Name};
use cam_orphan::orphan;

impl Core {
    /// What an action depends on, as eight counts; none if it was not created here.
    pub(crate) fn deps_of(&self, action: &Name) -> Deps
        ensures { result ≡ deps (answers self.now).actions action.now }
    {
        match self.actions.deps(action) {
            Some(deps) => deps,
            None => Deps::none(),
        }
    }

    /// Why an action is stopped, if it is an orphan. All that is known stands.
    pub(crate) fn orphan_at_home(&self, action: &Name) -> Option<Reason>
        requires { self.now.knowing.known ≡ self.now.knowing.stands }
        ensures { result ≡ known_orphan (answers self.now).know action.now
            (pairs_of (deps (answers self.now).actions action.now)) }
    {
        orphan(self.knowing.know(), action, &self.deps_of(action))
    }

    /// The event of an action that is stopped.
    pub(crate) fn stopped(&self, action: &Name, reason: &Reason) -> Stepped
        ensures event { result.event
            ≡ event_of self.now.number None [] (nothing_but (notes.Stopped action.now reason.now)) }
        ensures letters { result.letters ≡ [] }
    {
        Stepped {
            event: Event {
                node: self.number,
                got: None,
                deeds: Deeds::new(self.alloc),
                sent: SentList::new(self.alloc),
                note: Note::Stopped(*action, *reason),
            },
            letters: Letters::new(self.alloc),
        }
    }
}
