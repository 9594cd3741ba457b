//! Numbers as if they were drawn.
ghost use Rattle.std.specs.Prelude.{◌≤◌, ◌<◌};

/// A row of numbers that its seed determines.
#[derive(Clone, Copy, Debug)]
pub struct Draw {
    state: u64,
}

impl Draw {
    /// The row of a seed.
    pub fn of(seed: u64) -> Draw {
        Draw { state: seed }
    }

    /// The next number, below the limit.
    pub fn below(&mut self, limit: u8) -> u8
        requires { 1 ≤ limit }
        ensures { result < limit }
    {
        self.state = self
            .state
            .wrapping_mul(6_364_136_223_846_793_005)
            .wrapping_add(1_442_695_040_888_963_407);
        self.state.to_be_bytes()[0] % limit
    }
}
