//! How the event of a letter is planned. First the letter is learnt; then the rule of its kind says
//! what is done, by what is known then; then the plan is made of both.
ghost use Rattle.std.specs.Prelude.{◌≤◌, IfOk};
ghost use Rattle.cam_comman.specs.Letters.{IsWithin};
ghost use Rattle.cam_node.specs.Calls.{answers, AreSame, AreToNodes};
ghost use Rattle.cam_node.specs.Planning.{HasReceived, IsMade};

use crate::Stepped;
use crate::did::Doing;
use crate::learning::Learnt;
use crate::plan::Plan;
use crate::sending::letters;
use crate::state::Core;
use cam_base::NoMemory;
use cam_event::{Event, Letter, LetterId};

impl Core {
    /// A letter of a node, 1 to 8, is learnt, and room made at the site for its news. What is
    /// answered stays the same.
    pub(crate) fn receive(&mut self, letter: &Letter) -> Result<Learnt, NoMemory>
        requires { (1 ≤ letter.now.from) × (letter.now.from ≤ 8) }
        ensures same { AreSame (answers self.old) (answers self.new) }
        ensures received { IfOk result (λ learnt. HasReceived letter.now self.old self.new learnt) }
    {
        let learnt = self.learn(letter)?;
        self.server.reserve(learnt.heard.news.len())?;
        Ok(learnt)
    }

    /// The plan of a letter whose rule makes this after the first Informs.
    pub(crate) fn planned(
        &self,
        id: &LetterId,
        learnt: Learnt,
        doing: Doing,
    ) -> Result<Plan, NoMemory>
        requires within { IsWithin self.now.knowing.known learnt.heard.places }
        requires nodes { AreToNodes doing.did.sent }
        ensures { IfOk result (λ plan. IsMade self.now id.now learnt doing plan) }
    {
        let did = doing.did;
        let letters = letters(
            self.alloc,
            self.knowing.know(),
            &learnt.heard.places,
            self.number,
            self.count,
            did.sent.as_slice(),
        )?;
        let mut deeds = learnt.informs;
        deeds.extend_from_slice(did.deeds.as_slice())?;
        Ok(Plan {
            stepped: Stepped {
                event: Event {
                    node: self.number,
                    got: Some(*id),
                    deeds,
                    sent: did.sent,
                    note: did.note,
                },
                letters,
            },
            heard: Some(learnt.heard),
            change: doing.change,
            adds: doing.adds,
        })
    }
}
