//! The words of `camscope`.
//!
//! [`read_words`] gives what the words ask for, and nothing where they are no form of them.
//!
//! It stands on std alone.
#![tactic(auto)]

mod help;
mod question;
mod words;

pub use help::{USAGE, VERSION};
pub use question::{Lit, Question};
pub use words::{Request, read_words};
