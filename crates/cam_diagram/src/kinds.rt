//! The kinds of letters.
ghost use Rattle.std.specs.Prelude.{◌≡◌};
ghost use Rattle.cam_diagram.specs.Picture.{kind_of, kind_word, kind_class, fate_word, fate_shape};

use crate::{Fate, Kind};
use cam_event::Body;

/// The kind of a letter, by what it says.
pub(crate) fn kind_of(body: &Body) -> Kind
    ensures { result ≡ kind_of body.now }
{
    match body {
        Body::Start { .. } => Kind::Start,
        Body::Call { .. } => Kind::Call,
        Body::Answer { .. } => Kind::Answer,
        Body::Finish { .. } => Kind::Finish,
        Body::Quit { .. } => Kind::Quit,
        Body::Prepare { .. } => Kind::Prepare,
        Body::Vote { yes: true, .. } => Kind::VoteYes,
        Body::Vote { yes: false, .. } => Kind::VoteNo,
        Body::Query { .. } => Kind::Query,
        Body::News => Kind::News,
    }
}

/// The word of a kind.
#[tactic(auto, unfolding(crate::specs::Picture::kind_word))]
pub(crate) fn kind_word(kind: Kind) -> &'static str
    ensures { result.now ≡ kind_word kind }
{
    match kind {
        Kind::Start => "start",
        Kind::Call => "call",
        Kind::Answer => "answer",
        Kind::Finish => "finish",
        Kind::Quit => "quit",
        Kind::Prepare => "prepare",
        Kind::VoteYes => "vote yes",
        Kind::VoteNo => "vote no",
        Kind::Query => "query",
        Kind::News => "news",
    }
}

/// The class of a kind: kinds of one purpose look alike.
#[tactic(auto, unfolding(crate::specs::Picture::kind_class))]
pub(crate) fn kind_class(kind: Kind) -> &'static str
    ensures { result.now ≡ kind_class kind }
{
    match kind {
        Kind::Start | Kind::Call => "work",
        Kind::Answer => "reply",
        Kind::Finish | Kind::Quit => "end",
        Kind::Prepare | Kind::VoteYes | Kind::VoteNo | Kind::Query => "vote",
        Kind::News => "news",
    }
}

/// What is said of a letter that no event received.
#[tactic(auto, unfolding(crate::specs::Picture::fate_word))]
pub(crate) fn fate_word(fate: Fate) -> &'static str
    ensures { result.now ≡ fate_word fate }
{
    match fate {
        Fate::Waiting => " waits",
        Fate::Lost => " lost",
        Fate::MetHalt => " met a halt",
    }
}

/// The mark at the end of its stub: a ring, a cross, two bars.
#[tactic(auto, unfolding(crate::specs::Picture::fate_shape))]
pub(crate) fn fate_shape(fate: Fate) -> &'static str
    ensures { result.now ≡ fate_shape fate }
{
    match fate {
        Fate::Waiting => "M-3 0a3 3 0 1 0 6 0a3 3 0 1 0 -6 0z",
        Fate::Lost => "M-4 -4l8 8M4 -4l-8 8",
        Fate::MetHalt => "M-2 -5v10M3 -5v10",
    }
}
