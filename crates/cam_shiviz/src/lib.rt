//! A run in the log form that ShiViz reads: two lines an event, the first with its node and its
//! vector clock, the second with what it did.
//!
//! [`shiviz_text`] writes it. The first line of the text is the expression by which ShiViz takes
//! the log apart.
//!
//! It stands on `cam_scope` (the words for actions and deeds), `cam_event`, `cam_script` and
//! `cam_base`.
#![tactic(auto)]

mod clocks;
mod text;

pub use text::shiviz_text;
