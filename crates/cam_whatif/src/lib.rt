//! What would become of a script's run if some of its lines were gone, or came in another order.
//!
//! [`record_of`] runs a script over disks in memory, and [`report_of`] gives the report of a text:
//! both are of the one run that the step rules define. [`shrink_text`] takes lines away as long as
//! the report keeps a line. The texts that are run are those that are written, so what is written
//! can be run again and comes to the same.
//!
//! It stands on `cam_shrink` (which lines can go), `cam_cluster` (the run of a script), `cam_report`,
//! `cam_script` and below.
#![tactic(auto)]

mod groups;
mod lines;
mod report;
mod running;
mod shrinking;

pub use report::report_of;
pub use running::record_of;
pub use shrinking::shrink_text;
