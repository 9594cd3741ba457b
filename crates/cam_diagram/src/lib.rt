//! The space-time diagram of a run, as shapes and as SVG: a lane for each node, time downwards, a dot for each event, an arrow for each
//! time that a letter was received.
//!
//! [`draw`] writes the whole diagram. Its clauses say which dots and which arrows it has, exactly, and that it is well-formed, whatever
//! the words say that it is given beside the run.
//!
//! It stands on `cam_event` (traces), `cam_xml` (well-formed text) and `cam_base`.
#![tactic(auto)]

mod document;
mod kinds;
mod labels;
mod looks;
mod paths;
mod places;
mod shapes;
mod signs;
mod svg_arrow;
mod svg_dot;
mod svg_lane;
mod svg_stub;

use cam_base::Sequence;
use cam_event::LetterId;
pub use document::draw;
pub use shapes::{arrows_of, dots_of, kind_at};
pub use signs::sign_of;

/// What a dot shows of its event.
#[derive(Clone, Copy, Debug, PartialEq, Eq)]
pub enum Sign {
    Plain,
    /// A letter came late, again or amiss, and was not acted on.
    Idle,
    /// Votes are asked for.
    Asking,
    Commit,
    Abort,
    /// An orphan is stopped.
    Stop,
    /// The node begins a new incarnation.
    Restart,
}

/// An event, in the lane of its node.
#[derive(Clone, Copy, Debug, PartialEq, Eq)]
pub struct Dot {
    pub node: u8,
    pub sign: Sign,
}

/// What a letter is for.
#[derive(Clone, Copy, Debug, PartialEq, Eq)]
pub enum Kind {
    Start,
    Call,
    Answer,
    Finish,
    Quit,
    Prepare,
    VoteYes,
    VoteNo,
    Query,
    News,
}

/// The place of an event: the lane of its node, and the row of its number.
#[derive(Clone, Copy, Debug, PartialEq, Eq)]
pub struct Spot {
    pub node: u8,
    pub event: u64,
}

/// A letter's way, from the event that sent it to an event that received it.
#[derive(Clone, Copy, Debug, PartialEq, Eq)]
pub struct Arrow {
    pub letter: LetterId,
    pub kind: Kind,
    pub from: Spot,
    pub to: Spot,
}

/// What became of a letter that no event received.
#[derive(Clone, Copy, Debug, PartialEq, Eq)]
pub enum Fate {
    /// Nobody delivered it.
    Waiting,
    /// It was taken out.
    Lost,
    /// It came to a node whose disk stopped.
    MetHalt,
}

/// A letter that no event received, at the event that sent it.
#[derive(Clone, Copy, Debug, PartialEq, Eq)]
pub struct Stub {
    pub letter: LetterId,
    pub kind: Kind,
    pub from: Spot,
    pub to: u8,
    pub fate: Fate,
    /// How many stubs of the same event are above it.
    pub above: u32,
    pub lit: bool,
}

/// A node that halts: so many events are above it, and its lane is broken until the event of this number.
#[derive(Drop)]
pub struct Halt {
    pub node: u8,
    pub above: u64,
    pub until: u64,
    pub words: String,
}

/// The words of an event, and whether it is lit.
#[derive(Drop)]
pub struct Caption {
    /// The line of the script that made it.
    pub line: u32,
    /// How many letters were sent before it.
    pub sent_before: u64,
    /// The action of the event, by name; empty where it has none.
    pub action: String,
    /// What stands in the event's row.
    pub words: String,
    /// What is shown when the event is pointed at.
    pub deeds: String,
    /// What stands beside the dot, as the new count of a restart.
    pub beside: Option<String>,
    pub lit: bool,
    /// Whether the letter that it received is lit.
    pub lit_letter: bool,
}

/// Dots, in order of events.
pub type Dots = Sequence<Dot>;

/// Arrows, in order of the events to which they lead.
pub type Arrows = Sequence<Arrow>;

/// Letters that no event received, in order of sending.
pub type Stubs = Sequence<Stub>;

/// The halts of a run.
pub type Halts = Sequence<Halt>;

/// The captions of events, in order.
pub type Captions = Sequence<Caption>;

/// What a diagram has beside the events and letters of its run.
#[derive(Drop)]
pub struct Scene {
    /// The style sheet.
    pub style: String,
    /// For each node, from the first, the objects that it keeps.
    pub heads: Sequence<String>,
    pub captions: Captions,
    pub stubs: Stubs,
    pub halts: Halts,
    /// How many letters the longest caption has.
    pub widest: u32,
}
