//! What a letter brings: the first Informs of its event, its news, and its places. They stand once
//! the event does.
ghost use Rattle.std.specs.Prelude.{◌≡◌, ◌≤◌, length, IfOk, OnOk};
ghost use Rattle.cam_know.specs.Known.{news};
ghost use Rattle.cam_know.specs.Order.{told_in_order};
ghost use Rattle.cam_event.specs.ByKnowledge.{new_informs};
ghost use Rattle.cam_event.specs.Loads.{noted_at, with_load};
ghost use Rattle.cam_comman.specs.Letters.{load_on, IsWithin};
ghost use Rattle.cam_node.specs.Calls.{answers};
ghost use Rattle.cam_node.specs.Opened.{IsKnowledge};

use crate::informs::first_informs;
use crate::knowing::Heard;
use crate::state::Core;
use cam_base::NoMemory;
use cam_event::{Deeds, Letter};
use cam_know::Know;

/// What a letter brought, with the first Informs of its event.
#[derive(Drop)]
pub(crate) struct Learnt {
    pub(crate) informs: Deeds,
    pub(crate) heard: Heard,
}

/// Only for the proof: no outcome stands twice in what is known, and its counts are eight.
pub(crate) fn is_knowledge(know: &Know)
    ensures { IsKnowledge know.now }
{
    let _outcomes = know.outcomes();
    let _counts = know.counts();
}

impl Core {
    /// A letter of a node, 1 to 8, comes. The tests of its rule go by what is known then. What is
    /// answered stays the same until the event stands.
    pub(crate) fn learn(&mut self, letter: &Letter) -> Result<Learnt, NoMemory>
        requires { (1 ≤ letter.now.from) × (letter.now.from ≤ 8) }
        ensures same { answers self.new ≡ answers self.old }
        ensures known { OnOk result (self.new.knowing.known
            ≡ with_load (answers self.old).know (load_on letter.now)) }
        ensures informs { IfOk result (λ learnt. learnt.informs
            ≡ new_informs self.old.number (told_in_order letter.now.know) (answers self.old).know) }
        ensures news { IfOk result (λ learnt. learnt.heard.news
            ≡ news self.new.knowing.known (answers self.old).know) }
        ensures places { IfOk result (λ learnt. learnt.heard.places ≡ noted_at letter.now.to
            (length self.new.knowing.known.outcomes) (answers self.old).places
            letter.now.from (load_on letter.now)) }
        ensures within { IfOk result (λ learnt.
            IsWithin self.new.knowing.known learnt.heard.places) }
        ensures before { OnOk result (IsKnowledge (answers self.old).know) }
        ensures learnt { OnOk result (IsKnowledge self.new.knowing.known) }
    {
        self.settle()?;
        is_knowledge(self.knowing.know());
        let informs = first_informs(self.alloc, self.knowing.know(), &letter.know, self.number)?;
        let heard = self.knowing.hear(letter)?;
        is_knowledge(self.knowing.know());
        Ok(Learnt { informs, heard })
    }
}
