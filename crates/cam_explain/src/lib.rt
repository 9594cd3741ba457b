//! A run told to a person: what each action saw, why lines were refused and actions stopped, what
//! is open at the end.
//!
//! [`explain_text`] tells a run, and [`fault_text`] why a script is refused, with the word that is
//! near where one is.
//!
//! It stands on `cam_scope` (the words for actions and letters), `cam_sentences`, `cam_why` (why an
//! action was stopped), `cam_report` (the values of objects), `cam_script` and `cam_event`.
#![tactic(auto)]

mod actions;
mod acts;
mod course;
mod fault;
mod forms;
mod held;
mod letters;
mod marks;
mod moments;
mod near;
mod notes;
mod open;
mod pointer;
mod reasons;
mod report;
mod standing;
mod stops;
mod stories;
mod texts;

pub use fault::fault_text;
pub use report::explain_text;
