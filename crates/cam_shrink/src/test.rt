//! The test that the lines have to pass.
use cam_base::NoMemory;
use std::alloc::Global;

/// A test of the lines that are kept.
pub trait Test {
    ghost use Rattle.std.specs.Prelude.{ℕ, Bool, List, IfOk};

    /// The answers that a call may give if the lines at these places are kept.
    ghost answers: { Self → List ℕ → Bool → Type 0 };

    /// Whether the lines at these places, counted from 0, pass.
    fn passes(&self, alloc: Global, kept: &[usize]) -> Result<bool, NoMemory>
        ensures { IfOk result (λ passed. answers self.now kept.now passed) };
}
