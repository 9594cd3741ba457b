//! Scripts with expectations: comment lines `#= TEXT`, each of which expects a line of what the run
//! comes to.
//!
//! [`facts_of`] gives the lines to which a run comes: `value x 5`, `T committed`, `C stopped`, `C
//! saw 2 y read busy`, `line 12 refused`. [`check`] gives the findings: each expectation that is no
//! such line, and each refused line that nothing expects. A script keeps its expectations exactly
//! where there is no finding.
//!
//! It stands on `cam_scope` (the words for actions), `cam_report` (the values of objects),
//! `cam_script` and `cam_event`.
#![tactic(auto)]

mod actions;
mod expected;
mod facts;
mod findings;
mod like;
mod refused;
mod verdict;

pub use expected::{Expectation, Expectations, expectations_of};
pub use facts::{Facts, facts_of};
pub use findings::{Finding, Findings, check};
pub use verdict::findings_text;
