//! The view of a run by names: of each action the word by which its script knows it, of each event
//! its line, of each letter its kind, its way and what became of it.
//!
//! [`scope_of`] makes it from the lines of a script, the script that they spell, and the record of
//! its run. Its main clauses are those of its lists: an event for each event of the trace, in its
//! order and at its node, and a letter for each that was sent, in order of sending.
//!
//! It stands on `cam_event` (run records), `cam_script` and `cam_words` (scripts and their lines),
//! `cam_type`, `cam_names` and `cam_base`.
#![tactic(auto)]

mod deeds;
mod events;
mod letters;
mod marks;
mod names;
mod numbers;
mod post;
mod scope;
mod source;
mod values;
mod walk;

pub use deeds::{write_deed, write_note};
pub use events::{NamedEvent, NamedEvents};
pub use letters::{Fate, LetterKind, NamedLetter, NamedLetters};
pub use names::Names;
pub use numbers::{push_number, push_value};
pub use scope::{Scope, scope_of};
pub use source::{Lines, column, word, words_before};
pub use values::{object_text, write_answer, write_op, write_reason, write_seen};
