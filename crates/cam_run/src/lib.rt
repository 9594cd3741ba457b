//! The top call of the program: what it answers to words, a source and a sink, over disks and data servers that are handed in.
//!
//! It stands on `cam_args` (the words), `cam_io` (the streams), `cam_script` and `cam_gen` (the script that is read, and the one that is
//! made), `cam_cluster` (the run), `cam_storm_run` (the run of a storm), `cam_report` (the texts of a run), `cam_timed` (runs by time),
//! `cam_image` (images of logs) and `cam_headline` (what each run owes). Its main clauses are those of [`camelot`]: the status and the bytes
//! that are written are the answer to the words and the input, and each other status has its cause (`written`, `complete`, `storm`); and of
//! the run of each accepted script, and of each storm, the headline holds (`headline`, `headline_by_time`, `headline_of_storms`): what every
//! action saw, orphan or not, is a legal execution in which it is no orphan.
#![tactic(auto)]

mod alone;
mod answer;
mod asking;
mod image;
mod question;
mod running;
mod script;
mod status;
mod storm;
mod timed;
mod top;
mod worked;

pub use alone::camelot_alone;
pub use asking::uses_disks;
pub use status::Status;
pub use top::camelot;
pub use worked::worked_answers;
