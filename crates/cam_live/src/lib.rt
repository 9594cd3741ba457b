//! The operations that are live after a list of deeds.
//!
//! A performed operation is live if no ancestor of its action has aborted so far as its site was
//! informed, and no crash of the site has removed it: each came after the family was secured there
//! (`cam_event/specs/Live`). [`live`] returns exactly these, in the order in which they were
//! performed, for every list of deeds, legal or not. [`settled`] returns those of them that are
//! handed up past the top, which stay whatever runs on.
//!
//! It goes over the deeds once, and takes each into a [`Ledger`]: `tables` keeps what the deeds say of
//! calls, counts of sites, secured families and informs; `performed` keeps each operation with the
//! count of its site at that time. A crash so costs one step and not a look at all operations: at the
//! end an operation is live if its count is still that of the site, or if the family was first secured
//! there at no later count (`Counted`). With n deeds it takes about n times the logarithm of n. A
//! caller may also keep a ledger deed by deed.
//!
//! It uses `cam_event` (deeds, live operations), `cam_type` (declarations), `cam_names` and
//! `cam_base`.
#![tactic(auto)]

mod ledger;
mod performed;
mod tables;
mod values;

pub use ledger::{Ledger, live, settled};
pub use performed::Operations;
pub use tables::AddressedCall;
pub use values::value_after;
