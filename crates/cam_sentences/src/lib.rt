//! The one table of sentences: what each refusal of a line, each cause for which a script is
//! refused, each note of an event and each fault of a letter says to a person.
//!
//! It stands on `cam_event` and `cam_words`, whose enums it puts into words.
#![tactic(auto)]

mod causes;
mod faults;
mod notes;
mod refusals;

pub use causes::cause_sentence;
pub use faults::fault_sentence;
pub use notes::note_sentence;
pub use refusals::{refusal_label, refusal_sentence};
