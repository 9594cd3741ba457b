//! The words of a script: its bytes, its lines, their words, and the numbers, values, names and expressions that words spell.
//!
//! It uses `cam_base`. The readers are methods of [`Line`]: each goes on from a place of the line, and its clause `value` says that
//! it returns what the definition of its name in `specs/` reads there: what the word says with the place after it, or its fault.
#![tactic(auto)]

mod cause;
mod expressions;
mod fault;
mod labels;
mod line;
mod lines;
mod numbers;
mod word;

pub use cause::Cause;
pub use expressions::Expr;
pub use fault::ScriptFault;
pub use labels::{Label, Labels, is_name};
pub use line::Line;
pub use lines::{bad_byte, first_line};
pub use word::Word;
