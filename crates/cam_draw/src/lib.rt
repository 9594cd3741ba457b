//! The picture of a run: its space-time diagram with the names of its script, as SVG.
//!
//! [`draw_text`] draws it. Its main clauses say that the text is the diagram of the run's trace,
//! with each event and each received letter, and that it is well-formed, whatever names the script
//! has.
//!
//! It stands on `cam_diagram` (diagrams), `cam_scope` (runs by names), `cam_why` and `cam_past`
//! (what is lit), and `cam_event`.
#![tactic(auto)]

mod captions;
mod counts;
mod deeds;
mod halts;
mod heads;
mod laws;
mod light;
mod notes;
mod picture;
mod stubs;
mod style;
mod subject;
mod words;

pub use laws::seen;
pub use light::Highlight;
pub use picture::draw_text;
