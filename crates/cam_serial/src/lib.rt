//! The serial law: nested transactions look as if they had run one after another.
//!
//! The serial list of a history has the operations that committed up to the top, those of one top
//! action after those of another, in order of their Commits ([`serial`] with no name). For an action
//! whose top action has not committed, what the action may see of its own family comes last
//! (`Serial`). A list replays if applying its operations from the start states gives exactly its
//! answers, which [`replays`] tells.
//!
//! The law is a clause of [`serial`], in two parts, and holds of every legal list of deeds, whether or
//! not a run made it: the list for no action replays, and that for any action, orphan or not; and
//! if a created action is no orphan its list has each answer that it got, and that for no action
//! has those of each action that has committed with all its ancestors (`Law`).
//! Of the operations the proof uses two things: those of compatible modes commute, and each leaves
//! the kind of its object. `docs/SERIAL-LAW.md` tells how it goes.
//!
//! Both calls make a few passes over their list, with tables in order of names and objects, so with n
//! deeds they take about n times the logarithm of n. Taking from a queue costs what is after it.
//!
//! It uses `cam_live` (live operations), `cam_plain` (legal lists and their laws), `cam_cut` (when
//! an action gains nothing more), `cam_event`, `cam_type`, `cam_know`, `cam_names` and `cam_base`.
#![tactic(auto)]

mod committed;
mod groups;
mod list;
mod replay;

use cam_base::Sequence;
use cam_event::Operation;
pub use list::serial;
pub use replay::replays;

/// Operations of committed actions, those of one top action after those of another.
pub type SerialList = Sequence<Operation>;
