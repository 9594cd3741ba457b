//! Scripts that are made from a number, and the words of storms.
//!
//! [`script_of`] writes the script that is made from a seed, with the numbers of [`Draws`], and
//! [`digest_text`] the digest of its report. [`Storm`] has the words of a storm: its objects,
//! bodies and restarts follow from them (`specs/Storms`), and [`Copies`] draws how often each letter
//! comes. A law shows the generator at one seed.
//!
//! It stands on `cam_base`, on `cam_script` (bodies and scripts), and on `sha2` and `hex` for the
//! digest.
#![tactic(auto)]

mod copies;
mod digest;
mod draws;
mod script;
mod storm;

ghost use Rattle.cam_gen.specs.Accepted.{EachIsAccepted};
ghost use Rattle.cam_gen.specs.Worked.{FirstDraw, NineSteps};

pub use copies::Copies;
pub use digest::digest_text;
pub use draws::Draws;
pub use script::script_of;
pub use storm::Storm;

/// At seed 7: the first number that is drawn, and the script of nine steps.
pub fn at_seed_seven()
    ensures draw { FirstDraw }
    ensures script { NineSteps }
{}

/// The grammar accepts the script of every seed, of 400 steps at most.
pub fn scripts()
    ensures accepted { EachIsAccepted }
{}
