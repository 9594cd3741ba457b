//! A clock: of each of eight nodes its last event in a past.
ghost use Rattle.std.specs.Prelude.{◌≡◌, ℕ, ◌<◌, max, get_or, set};

use cam_base::Sequence;

/// What an event has seen of eight nodes: at each one's place one more than the number of the node's
/// last event in the past of the event, and 0 where none is there.
#[derive(Clone, Copy)]
pub(crate) struct Clock {
    latest: [u64; 8],
}

impl Clock {
    /// Nothing was seen.
    pub(crate) fn new() -> Clock
        ensures { (place : ℕ) → get_or result.latest place 0 ≡ 0 }
    {
        Clock { latest: [0; 8] }
    }

    /// What was seen of the node at a place.
    pub(crate) fn latest(&self, place: usize) -> u64
        requires { place < 8 }
        ensures { result ≡ get_or self.now.latest place 0 }
    {
        self.latest[place]
    }

    /// What either has seen.
    pub(crate) fn join(&self, other: &Clock) -> Clock
        ensures { (place : ℕ) → place < 8
            → get_or result.latest place 0
            ≡ max (get_or self.now.latest place 0) (get_or other.now.latest place 0) }
    {
        let mut latest = self.latest;
        for place in 0..8 {
            latest[place] = latest[place].max(other.latest[place]);
        }
        Clock { latest }
    }

    /// Sees a later event of the node at a place: `latest` is one more than its number.
    pub(crate) fn see(&mut self, place: usize, latest: u64)
        requires { place < 8 }
        ensures { self.new.latest ≡ set self.old.latest place latest }
    {
        self.latest[place] = latest;
    }
}

/// The clocks of a trace's events over the eight nodes of one table.
pub(crate) type Table = Sequence<Clock>;
