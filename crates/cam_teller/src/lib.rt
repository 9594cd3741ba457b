//! What `camscope` tells of the bytes of a script: the run in words, in columns, as a picture, as a
//! log of ShiViz, or how it keeps the script's expectations; what becomes of it if lines are gone or
//! come in another order; and why a script is refused.
//!
//! [`tell`] parses the bytes, runs the script over disks in memory, and writes the text. [`made`]
//! writes the script that is made from a seed.
//!
//! It stands on `cam_whatif` (the run of a script, and the smallest), `cam_sweep` (many runs),
//! `cam_explain`, `cam_columns`, `cam_draw`, `cam_shiviz`, `cam_expect`, `cam_gen`, `cam_scope_args`
//! (what may be asked), `cam_scope` and below.
#![tactic(auto)]

mod answer;
mod comparing;
mod making;
mod orders;
mod picture;
mod smallest;
mod sweeping;
mod told;

pub use answer::tell;
pub use comparing::{ScriptFile, compare};
pub use making::made;
pub use told::{Status, Told};
