//! *Give up*: an action gives up a child that is open, and the child aborts. No letter is sent. An action that is an orphan by what it depends
//! on is stopped.
ghost use Rattle.std.specs.Prelude.{◌≡◌, List, None, IfOk};
ghost use Rattle.cam_type.specs.declared.ObjectDecl.{ObjectDecl};
ghost use Rattle.cam_event.specs.declared.Want.TheVariants as wants;
ghost use Rattle.cam_event.specs.Loads.{no_load};
ghost use Rattle.cam_tranman.specs.Calls.{IsFree};
ghost use Rattle.cam_comman.specs.Letters.{IsWithin};
ghost use Rattle.cam_node.specs.Calls.{answers, AreSame};
ghost use Rattle.cam_node.specs.GivingUp.{giving_up, IsGivenUp};
ghost use Rattle.cam_node.specs.Planned.{MayBeAdded};
ghost use Rattle.cam_node.specs.Plans.{IsPlan};
ghost use Rattle.cam_node.specs.Standing.{MayStand};

use crate::deciding::add_decision;
use crate::learning::is_knowledge;
use crate::news::record_of;
use crate::plan::{Change, Plan};
use crate::state::Core;
use cam_base::NoMemory;
use cam_event::{Deeds, Note, SentList};
use cam_know::Outcome;
use cam_names::Name;

impl Core {
    /// An action whose home is this node gives up a child: the event that may stand. Nothing stands against the request. It fails where memory
    /// runs out. What is answered stays the same until the event stands.
    pub(crate) fn give_up(&mut self, action: &Name, child: &Name) -> Result<Plan, NoMemory>
        requires { IsFree (answers self.old).actions action.now (wants.GiveUp child.now) }
        ensures same { AreSame (answers self.old) (answers self.new) }
        ensures plan { (objects : List ObjectDecl) → IfOk result (λ plan. IsPlan objects
            (giving_up action.now child.now) None no_load plan
            self.new.knowing.known (answers self.old) (answers self.new)) }
        ensures may { IfOk result (λ plan. MayStand plan self.new) }
        ensures adds { IfOk result (λ plan. MayBeAdded plan.adds) }
    {
        self.settle()?;
        is_knowledge(self.knowing.know());
        // Only for the proof: no more is noted than the list has.
        let _places = self.knowing.places();
        match self.orphan_at_home(action) {
            Some(reason) => Ok(Plan {
                stepped: self.stopped(action, &reason),
                heard: None,
                change: Change::Nothing,
                adds: None,
            }),
            None => self.gives_up(action, child),
        }
    }

    /// The plan of an action that gives up a child. All that is known stands.
    fn gives_up(&mut self, action: &Name, child: &Name) -> Result<Plan, NoMemory>
        requires settled { self.old.knowing.known ≡ self.old.knowing.stands }
        requires within { IsWithin self.old.knowing.stands self.old.knowing.places }
        ensures given_up { IfOk result (λ plan. IsGivenUp action.now child.now self.old self.new plan) }
        ensures same { AreSame (answers self.old) (answers self.new) }
    {
        let abort = Outcome::Aborted(*child);
        let mut deeds = Deeds::new(self.alloc);
        add_decision(&mut deeds, self.number, &abort)?;
        let stepped = self.own_event(deeds, SentList::new(self.alloc), Note::Plain)?;
        self.server.reserve(1)?;
        self.knowing.decide(&abort)?;
        Ok(Plan {
            stepped,
            heard: None,
            change: Change::GaveUp(*action, *child),
            adds: Some(record_of(&abort)),
        })
    }
}
