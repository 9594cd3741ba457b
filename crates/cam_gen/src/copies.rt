//! How often each letter of a storm comes.
ghost use Rattle.std.specs.Prelude.{◌≡◌, ◌+◌, ◌≤◌, ℕ};
ghost use Rattle.cam_gen.specs.Storms.{Words, copies_of};
ghost use Rattle.cam_gen.specs.StormDraws.{AreAt};

use crate::draws::Draws;
use crate::storm::Storm;

/// Draws how often each letter of a node comes, one letter after another.
#[derive(Clone, Copy, Debug)]
pub struct Copies {
    calm: bool,
    draws: Draws,
}

impl Copies {
    /// Before the first letter of a node.
    pub fn new(storm: &Storm, node: u8) -> Copies
        ensures { AreAt storm.now node 0 result }
    {
        Copies {
            calm: storm.calm,
            draws: Draws::new(storm.seed.wrapping_add(u64::from(node))),
        }
    }

    /// How often the next letter comes: 0, 1 or 2 times.
    pub fn next(&mut self) -> u8
        ensures copies { (words : Words) (s number : ℕ) → AreAt words s number self.old
            → result ≡ copies_of words s number }
        ensures goes_on { (words : Words) (s number : ℕ) → AreAt words s number self.old
            → AreAt words s (number + 1) self.new }
        ensures few { result ≤ 2 }
    {
        let draw = self.draws.below(16);
        if self.calm {
            return 1;
        }
        match draw {
            0 => 0,
            1 => 2,
            _ => 1,
        }
    }
}
