//! What is kept of nodes in tables, deed by deed: of one node what its own deeds and events say
//! ([`Own`]), and of all nodes together their calls, live operations and dependencies ([`AllNodes`]).
//!
//! Each table has what the deeds say of whatever list of deeds, so a caller needs no law of runs to keep
//! one. It uses `cam_live` (the ledger of calls, informs and live operations) and `cam_event`.
#![tactic(auto)]

mod actions;
mod all_nodes;
mod children;
mod depending;
mod informed;
mod informs;
mod live;
mod mail;
mod own;
mod replies;
mod tops;
mod votes;

pub use all_nodes::{AllNodes, answer, conflict};
pub use informed::Informed;
pub use informs::first_informs;
pub use mail::Mail;
pub use own::Own;
