//! The letters of a run, in order of sending.
ghost use Rattle.std.specs.Prelude.{◌≡◌};
ghost use Rattle.cam_scope.specs.Letters.{kind_of};
ghost use Rattle.cam_scope.specs.Words.{kind_text};

use cam_base::{NoMemory, Sequence};
use cam_event::{Body, Event, LetterId};

/// What a letter is for.
#[derive(Clone, Copy, Debug, PartialEq, Eq)]
pub enum LetterKind {
    Start,
    Call,
    Answer,
    Finish,
    Quit,
    Prepare,
    VoteYes,
    VoteNo,
    Query,
    News,
}

impl LetterKind {
    /// The kind of a letter that says this.
    pub fn of(body: &Body) -> LetterKind
        ensures { result ≡ kind_of body.now }
    {
        match body {
            Body::Start { .. } => LetterKind::Start,
            Body::Call { .. } => LetterKind::Call,
            Body::Answer { .. } => LetterKind::Answer,
            Body::Finish { .. } => LetterKind::Finish,
            Body::Quit { .. } => LetterKind::Quit,
            Body::Prepare { .. } => LetterKind::Prepare,
            Body::Vote { yes, .. } => if *yes {
                LetterKind::VoteYes
            } else {
                LetterKind::VoteNo
            },
            Body::Query { .. } => LetterKind::Query,
            Body::News => LetterKind::News,
        }
    }

    /// Its words: `prepare`, `vote yes`.
    pub fn words(self) -> &'static str
        ensures { result.now ≡ kind_text self }
    {
        match self {
            LetterKind::Start => "start",
            LetterKind::Call => "call",
            LetterKind::Answer => "answer",
            LetterKind::Finish => "finish",
            LetterKind::Quit => "quit",
            LetterKind::Prepare => "prepare",
            LetterKind::VoteYes => "vote yes",
            LetterKind::VoteNo => "vote no",
            LetterKind::Query => "query",
            LetterKind::News => "news",
        }
    }
}

/// What became of a letter.
#[derive(Clone, Copy, Debug, PartialEq, Eq)]
pub enum Fate {
    /// Nobody delivered it.
    Waiting,
    /// An event received it, or more than one.
    Received,
    /// The line of this number took it out.
    Lost(u32),
    /// It came to a node whose disk stopped, at the line of this number: no event received it.
    MetHalt(u32),
}

/// A letter with its kind, its way and its fate. Its number is its place in the list, from 1.
#[derive(Clone, Copy, Debug, PartialEq, Eq)]
pub struct NamedLetter {
    /// The event that sent it, and its place there.
    pub id: LetterId,
    pub kind: LetterKind,
    pub from: u8,
    pub to: u8,
    pub fate: Fate,
}

/// The letters of a run, in order of sending: the letter of number K stands at the place K - 1.
pub type NamedLetters = Sequence<NamedLetter>;

/// Appends the letters of an event; nobody has delivered them yet.
pub(crate) fn add_letters(
    letters: &mut Vec<NamedLetter>,
    number: usize,
    event: &Event,
) -> Result<(), NoMemory> {
    for (place, sent) in event.sent.as_slice().iter().enumerate() {
        let letter = NamedLetter {
            id: LetterId {
                event: number as u64,
                place: u32::try_from(place).unwrap_or(u32::MAX),
            },
            kind: LetterKind::of(&sent.body),
            from: event.node,
            to: sent.to,
            fate: Fate::Waiting,
        };
        letters.push(letter)?;
    }
    Ok(())
}
