//! The step rules without orphan tests: what a node does with an input, by what it is asked.
//!
//! [`Sighted`] is what a rule asks of a node at an event. [`begin`], [`request`], [`arrive`], [`tell`],
//! [`query`] and [`abort_family`] are the rules of an input each; [`refusal`], [`query_refusal`] and
//! [`end_refusal`] say why a line is refused. Each returns what the definition of the rules says of what
//! the node goes by, whatever that is. So a caller that keeps it in tables needs no second look at the rules.
//!
//! It uses `cam_event` (the rules), `cam_type` (operations) and `cam_names`.
#![tactic(auto)]

mod arrivals;
mod calls;
mod children;
mod did;
mod families;
mod homes;
mod letters;
mod refusals;
mod requests;
mod sighted;

pub use arrivals::{arrive, query, tell};
pub use did::Did;
pub use families::abort_family;
pub use homes::home_of;
pub use refusals::{end_refusal, query_refusal, refusal};
pub use requests::{begin, request};
pub use sighted::{Asked, Sighted};
