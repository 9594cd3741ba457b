//! XML that is well-formed: text with its marks escaped, and elements with their attributes.
//!
//! [`Xml`] is the text that was written so far. Each of its methods adds one piece of the grammar
//! in `specs/WellFormed`, and text goes in by [`Xml::text`] alone, which escapes it. [`text_laws`]
//! states that escaped text is well-formed, whatever it says.
//!
//! It stands on `cam_base`.
#![tactic(auto)]

mod escape;
mod laws;
mod xml;

pub use laws::text_laws;
pub use xml::Xml;
