//! In what two runs differ: the first event at which they do, and the facts that one of them has alone.
//!
//! [`compare_text`] tells it. What a fact is says `cam_expect`: a value, how an action ended and what it
//! saw, a stop, what became of a line.
//!
//! It stands on `cam_expect` (the facts of a run), `cam_scope` (names) and below.
#![tactic(auto)]

mod events;
mod facts;
mod side;

pub use side::{Side, compare_text};
