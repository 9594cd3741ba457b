//! The replies to calls, deed by deed.
ghost use Rattle.std.specs.Prelude.{◌≡◌, ◌∷◌, [], List, OnOk};
ghost use Rattle.cam_event.specs.declared.Deed.{Deed};
ghost use Rattle.cam_event.specs.declared.Deed.TheVariants.{Perform, Bounce};
ghost use Rattle.cam_plain.specs.Replies.{answer_to, holder_for, KeepsAnswers, KeepsHolders, KeepsReplies};

use cam_base::NoMemory;
use cam_event::Deed;
use cam_names::Name;
use cam_type::Answer;
use std::alloc::Global;
use std::collections::HashMap;

/// A call: whose it is, and which of the action's calls.
#[derive(Clone, Copy, PartialEq, Eq, Hash)]
pub(crate) struct CallName {
    pub(crate) action: Name,
    pub(crate) number: u32,
}

/// The answers of the calls that were performed.
type Answers = HashMap<CallName, Answer>;

/// Who stood in the way of the calls that were bounced.
type Holders = HashMap<CallName, Name>;

/// The last reply to each call, found by its hash.
#[derive(Drop)]
pub(crate) struct Replies {
    answers: Answers,
    holders: Holders,
}

impl Replies {
    pub(crate) fn new(alloc: Global) -> Replies
        ensures { KeepsReplies [] result }
    {
        Replies {
            answers: HashMap::new(alloc),
            holders: HashMap::new(alloc),
        }
    }

    /// The answer of a call that was performed.
    pub(crate) fn answer(&self, action: &Name, number: u32) -> Option<Answer>
        ensures { (L : List Deed) → KeepsReplies L self.now
            → result ≡ answer_to L action.now number }
    {
        let call = CallName {
            action: *action,
            number,
        };
        self.answers.get(&call).copied()
    }

    /// Who stood in the way of a call that was bounced.
    pub(crate) fn holder(&self, action: &Name, number: u32) -> Option<Name>
        ensures { (L : List Deed) → KeepsReplies L self.now
            → result ≡ holder_for L action.now number }
    {
        let call = CallName {
            action: *action,
            number,
        };
        self.holders.get(&call).copied()
    }

    /// Keeps what one more deed says of replies.
    pub(crate) fn note(&mut self, deed: &Deed) -> Result<(), NoMemory>
        ensures { OnOk result ((L : List Deed) → KeepsReplies L self.old
            → KeepsReplies (deed.now ∷ L) self.new) }
    {
        match deed {
            Deed::Perform {
                action,
                number,
                answer,
            } => note_answer(&mut self.answers, action, *number, *answer),
            Deed::Bounce {
                action,
                number,
                holder,
            } => note_holder(&mut self.holders, action, *number, holder),
            _ => Ok(()),
        }
    }
}

/// Keeps the answer of a call that is performed.
fn note_answer(
    answers: &mut Answers,
    action: &Name,
    number: u32,
    answer: Answer,
) -> Result<(), NoMemory>
    ensures { OnOk result ((L : List Deed) → KeepsAnswers L answers.old
        → KeepsAnswers (Perform action.now number answer ∷ L) answers.new) }
{
    let call = CallName {
        action: *action,
        number,
    };
    answers.insert(call, answer)?;
    Ok(())
}

/// Keeps who stands in the way of a call that is bounced.
fn note_holder(
    holders: &mut Holders,
    action: &Name,
    number: u32,
    holder: &Name,
) -> Result<(), NoMemory>
    ensures { OnOk result ((L : List Deed) → KeepsHolders L holders.old
        → KeepsHolders (Bounce action.now number holder.now ∷ L) holders.new) }
{
    let call = CallName {
        action: *action,
        number,
    };
    holders.insert(call, *holder)?;
    Ok(())
}
