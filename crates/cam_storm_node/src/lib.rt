//! The core of a storm: a node with the bodies of its actions.
//!
//! A [`StormNode`] is one of the four nodes of a storm. It creates its top actions first. Then the
//! least-named action that has a request makes it, or a letter is received, or the node restarts if
//! the words of the storm say so. It keeps what each action has seen, and how often each letter
//! came. It is a core of `cam_journal`, so the cells and workers of `cam_hall` drive it.
//!
//! It stands on `cam_node` (the node), `cam_body` (the next request of a body), `cam_gen` (the
//! words of storms) and `cam_storm` (which events are lawful in a storm). Its main clause is that
//! of `step`: the event answers the item, and the storm node is the replay of the longer history.
#![tactic(auto)]

mod as_core;
mod copying;
mod following;
mod receipts;
mod stepping;
mod storm_node;
mod storming;
mod taking;
mod telling;
mod wants;
mod works;

pub use storm_node::{AsStormNode, DiskStormNode, StormNode};
pub use storming::Storming;
pub use telling::TellingLog;
