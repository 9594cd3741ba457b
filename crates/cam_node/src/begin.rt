//! *Begin*: a top action is created. Its name is one part: this node, its present count, and 1 plus the number of top actions that were
//! created there in this count. No letter is sent.
ghost use Rattle.std.specs.Prelude.{◌≡◌, ◌<◌, List, [], None, IfOk, OnErr, vec_len, vec_capacity};
ghost use Rattle.cam_type.specs.declared.ObjectDecl.{ObjectDecl};
ghost use Rattle.cam_event.specs.declared.Deed.TheVariants.{Create};
ghost use Rattle.cam_event.specs.Inputs.{Begins};
ghost use Rattle.cam_event.specs.Rules.{did, one as single};
ghost use Rattle.cam_event.specs.ByPast.{event_of};
ghost use Rattle.cam_event.specs.Loads.{no_load};
ghost use Rattle.cam_node.specs.Calls.{answers, letters_of, AreSame};
ghost use Rattle.cam_node.specs.Halting.{IsStepThrough};

use crate::room::{push_reserved, room_for_one};
use crate::state::Core;
use crate::{Letters, Stepped};
use cam_base::NoMemory;
use cam_event::{Deed, Deeds, Event, Note, SentList};
use cam_names::Name;

impl Core {
    /// A top action is begun. Fewer than 1,000,000,000 were begun in this count. It fails if memory runs out, and is then as it was.
    pub(crate) fn begin(&mut self) -> Result<Stepped, NoMemory>
        requires { (answers self.old).actions.tops < 1000000000 }
        ensures step { (objects : List ObjectDecl) → IfOk result (λ stepped. IsStepThrough objects
            (answers self.old) (answers self.new) (Begins self.old.number) None no_load stepped.event) }
        ensures letters { IfOk result (λ stepped.
            stepped.letters ≡ letters_of (answers self.new) stepped.event.sent) }
        ensures err { OnErr result (AreSame (answers self.old) (answers self.new)) }
        ensures server { (answers self.new).server ≡ (answers self.old).server }
    {
        self.settle()?;
        let deeds = room_for_one(self.alloc)?;
        let action = self.actions.begin()?;
        Ok(self.created(deeds, &action))
    }

    /// The event in which a top action is created, in this list, which is empty and has room for its deed.
    fn created(&self, deeds: Vec<Deed>, action: &Name) -> Stepped
        requires empty { deeds.items ≡ [] }
        requires room { vec_len deeds < vec_capacity deeds }
        ensures event { result.event
            ≡ event_of self.now.number None [] (did (single (Create action.now)) []) }
        ensures letters { result.letters ≡ [] }
    {
        let mut deeds = deeds;
        push_reserved(&mut deeds, &Deed::Create { action: *action });
        Stepped {
            event: Event {
                node: self.number,
                got: None,
                deeds: Deeds::from_vec(deeds),
                sent: SentList::new(self.alloc),
                note: Note::Plain,
            },
            letters: Letters::new(self.alloc),
        }
    }
}
