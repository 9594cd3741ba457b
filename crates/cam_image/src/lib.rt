//! The image of a log: what it holds in words, and the same log in the present version.
//!
//! [`inspect_image`] writes the records of an image, entry by entry; an image whose fourth byte is `C` is
//! that of a log with checkpoints, every other that of a log. [`upgrade_image`] writes the image of a log
//! anew in version 2. An image that is none is refused with the place of its first fault.
//!
//! It uses `cam_recman` (the records), `cam_log` and `cam_ckpt` (the two forms of logs), `cam_disk`,
//! `cam_type`, `cam_names` and `cam_base`. Its main clauses are `shown` of [`inspect_image`] and
//! `upgraded` of [`upgrade_image`], exact for every image, and the law [`upgrades`]: what is written
//! recovers what the image that was read does, and is left as it is when it is upgraded again, unless
//! it is then too long.
#![tactic(auto)]

mod fault;
mod inspecting;
mod laws;
mod reading;
mod upgrading;
mod version;
mod words;

pub use fault::ImageFault;
pub use inspecting::{inspect_image, inspect_text};
pub use laws::{inspections, upgrades};
pub use reading::MOST_BYTES;
pub use upgrading::upgrade_image;
