//! A storm: four nodes, whose steps are taken by threads in whatever order.
//!
//! [`run_storm`] founds four nodes (`cam_storm_node`) over four disks and lets workers serve them in
//! threads (`cam_workers`) until they find nothing more to do. It does what is left alone, and returns
//! the events of all nodes in the order of their numbers.
//!
//! It stands on `cam_storm_node`, `cam_workers` and `cam_journal`. Its main clause: what it returns is
//! a run of the storm (`run`), which is settled (`settled`), and the disks keep it (`kept`).
#![tactic(auto)]

mod fault_counts;
mod founding;
mod storm;

pub use storm::run_storm;
