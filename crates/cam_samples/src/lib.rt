//! Builders of deeds, lists of them, events and objects, and drawn numbers, which the tests of several crates share.
//!
//! Tests alone use it: no crate of the program stands on it. A builder of a deed has the name of that deed; where a test seldom cares for a
//! field (the count of a site), the short name gives it its first value.
//!
//! It stands on `cam_event`, `cam_type`, `cam_names` and `cam_base`.
#![tactic(auto)]

mod deeds;
mod draws;
mod events;
mod objects;

pub use deeds::{
    abort, ask, ask_abort, ask_commit, bounce, call, call_at_count, commit, crash, create, got,
    got_done, inform, perform, secure,
};
pub use draws::Draw;
pub use events::{deeds_of, event, sent_of, without};
pub use objects::{counter, registers};
