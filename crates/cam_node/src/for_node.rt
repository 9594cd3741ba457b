//! Which letters may be handed to a node. Each is addressed to it, and goes there by its body: a
//! start to the home of its child, which is no top action; a call to the node of its object, which
//! the op fits; an answer to the action's home; a finish or quit to the node that decides; a vote
//! or query to the family's home. A prepare and a query are of a top action. No commit that it
//! tells of, and no action that it speaks of, depends on a count above the one that it tells of the
//! node.
ghost use Rattle.std.specs.Prelude.{◌≡◌, ◌↔◌, [], IsTrue};
ghost use Rattle.cam_comman.specs.Letters.{load_on};
ghost use Rattle.cam_names.specs.Names.{is_top};
ghost use Rattle.cam_node.specs.Calls.{answers, mail_on};
ghost use Rattle.cam_node.specs.Lawful.{IsForNode, IsLetter, are_known, body_counts};
ghost use Rattle.cam_node.specs.MayStep.{objects_of};

use crate::homes::{decider, home_of};
use crate::restartable::{all_known, are_known};
use crate::state::Core;
use cam_event::{Body, Letter};
use cam_names::Name;

impl Core {
    /// Whether a letter may be handed to the node. It takes no memory.
    pub(crate) fn is_letter(&self, letter: &Letter) -> bool
        ensures { IsTrue result ↔ IsLetter (objects_of (answers self.now)) self.now.number
            (mail_on letter.now) (load_on letter.now) }
    {
        let known = letter.know.counts();
        letter.to == self.number
            && self.is_for_node(&letter.body)
            && has_known(&known, &letter.body)
            && all_known(&known, letter.know.outcomes())
    }

    /// Whether what a letter says is for this node.
    fn is_for_node(&self, body: &Body) -> bool
        ensures { IsTrue result
            ↔ IsForNode (objects_of (answers self.now)) self.now.number body.now }
    {
        match body {
            Body::Start { child, .. } => home_of(child) == self.number && !is_top(child),
            Body::Call { object, op, .. } => {
                self.server.table().site_of(*object) == self.number && self.fits(*object, op)
            }
            Body::Answer { action, .. } => home_of(action) == self.number,
            Body::Finish { action, .. } => decider(action) == self.number,
            Body::Quit { action } => decider(action) == self.number,
            Body::Prepare { family, .. } => is_top(family),
            Body::Vote { family, .. } => home_of(family) == self.number,
            Body::Query { family } => home_of(family) == self.number && is_top(family),
            Body::News => true,
        }
    }
}

/// Whether a letter speaks of no count that is above the known one of its node.
fn has_known(known: &[u32; 8], body: &Body) -> bool
    ensures { result ≡ are_known (record { outcomes = []; counts = known.now })
        (body_counts body.now) }
{
    match body {
        Body::Start { deps, .. } => are_known(known, deps),
        Body::Call { deps, .. } => are_known(known, deps),
        Body::Finish { deps, .. } => are_known(known, deps),
        _ => true,
    }
}

/// Whether it is a top action.
fn is_top(name: &Name) -> bool
    ensures { result ≡ is_top name.now }
{
    name.depth() == 1
}
