//! The generator of numbers.

ghost use Rattle.std.specs.Prelude.{◌≡◌, ◌<◌};
ghost use Rattle.cam_gen.specs.Draws.{next_state, draw_at, drawn};

/// A linear congruential generator of 64 bits, whose numbers are the top 32 bits of its states.
#[derive(Clone, Copy, Debug)]
pub struct Draws {
    state: u64,
}

impl Draws {
    /// The generator that begins at this seed.
    pub fn new(seed: u64) -> Draws
        ensures { result.state ≡ seed }
    {
        Draws { state: seed }
    }

    /// The next number.
    pub fn draw(&mut self) -> u32
        ensures value { result ≡ draw_at self.old.state 0 }
        ensures state { self.new.state ≡ next_state self.old.state }
    {
        self.state = self
            .state
            .wrapping_mul(6_364_136_223_846_793_005)
            .wrapping_add(1_442_695_040_888_963_407);
        (self.state >> 32) as u32
    }

    /// The next number modulo `count`.
    pub fn below(&mut self, count: u32) -> u32
        requires { 0 < count }
        ensures value { result ≡ drawn self.old.state count }
        ensures range { result < count }
        ensures state { self.new.state ≡ next_state self.old.state }
    {
        self.draw() % count
    }
}
