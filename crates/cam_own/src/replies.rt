//! The replies to calls, deed by deed.
ghost use Rattle.std.specs.Prelude.{◌≡◌, ◌∷◌, List, OnOk};
ghost use Rattle.cam_event.specs.declared.Deed.{Deed as DeedValue};
ghost use Rattle.cam_event.specs.Sights.{kept_reply};
ghost use Rattle.cam_own.specs.Replies.{IsNoCrash, KeepsReplies, Puts};

use cam_base::NoMemory;
use cam_event::{Deed, Reply};
use cam_names::Name;
use std::collections::HashMap;

/// A call: whose it is, and which of the action's calls.
#[derive(Clone, Copy, PartialEq, Eq, Hash)]
pub(crate) struct CallName {
    pub(crate) action: Name,
    pub(crate) number: u32,
}

/// The last reply to each call, found by its hash.
pub(crate) type Replies = HashMap<CallName, Reply>;

/// The reply that a call was given.
pub(crate) fn reply_in(replies: &Replies, action: &Name, number: u32) -> Option<Reply>
    ensures { (L : List DeedValue) → KeepsReplies L replies.now
        → result ≡ kept_reply L action.now number }
{
    let call = CallName {
        action: *action,
        number,
    };
    replies.get(&call).copied()
}

/// Keeps the reply to a call.
fn note(replies: &mut Replies, action: &Name, number: u32, reply: &Reply) -> Result<(), NoMemory>
    ensures { OnOk result (Puts action.now number reply.now replies.old replies.new) }
{
    let call = CallName {
        action: *action,
        number,
    };
    replies.insert(call, *reply)?;
    Ok(())
}

/// Keeps what one more deed says of replies.
pub(crate) fn note_reply(replies: &mut Replies, deed: &Deed) -> Result<(), NoMemory>
    requires { IsNoCrash deed.now }
    ensures { OnOk result ((L : List DeedValue) → KeepsReplies L replies.old
        → KeepsReplies (deed.now ∷ L) replies.new) }
{
    match deed {
        Deed::Perform {
            action,
            number,
            answer,
        } => note(replies, action, *number, &Reply::Done(*answer)),
        Deed::Bounce {
            action,
            number,
            holder,
        } => note(replies, action, *number, &Reply::Busy(*holder)),
        _ => Ok(()),
    }
}
