//! Which storm the storm nodes belong to.
ghost use Rattle.std.specs.Prelude.{ℕ, true};
ghost use Rattle.cam_gen.specs.Storms.{Words};

use std::marker::Brand;

/// Names one storm.
pub trait Storming {
    /// The words.
    ghost words: { Words };

    /// How often the disk of each node had failed before the storm.
    ghost failures: { ℕ → ℕ };
}

/// The name that a caller picks, for a storm that is known only when it begins.
impl Storming for Brand {
    ghost words = { record {
      seed = 0;
      actions = 0;
      calm = true;
    } };

    ghost failures = { λ s. 0 };
}
