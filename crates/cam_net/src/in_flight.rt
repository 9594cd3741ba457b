//! A letter in flight, and where the first stands that waits for a node.
ghost use Rattle.std.specs.Prelude.{◌≡◌, ◌≤◌, length};
ghost use Rattle.cam_net.specs.Letters.{as_lost, as_delivered};
ghost use Rattle.cam_net.specs.Waiting.{waits_for, first_for, NoneAfterFirst, AreFirst};

use std::marker::Model;

/// A letter that was put.
#[derive(Drop)]
pub(crate) struct InFlight {
    pub(crate) receiver: u8,
    pub(crate) bytes: Vec<u8>,
    pub(crate) lost: bool,
    pub(crate) delivered: bool,
}

impl Model for InFlight {
    ghost use Rattle.cam_net.specs.Letters.{InFlightFields};

    ghost Value = { InFlightFields };

    ghost view = { λ l. record { receiver = l.receiver; bytes = l.bytes.items; lost = l.lost; delivered = l.delivered } };
}

impl InFlight {
    /// It is lost for good.
    pub(crate) fn lose(&mut self)
        ensures { self.new ≡ as_lost self.old }
    {
        self.lost = true;
    }

    /// It was delivered.
    pub(crate) fn deliver(&mut self)
        ensures { self.new ≡ as_delivered self.old }
    {
        self.delivered = true;
    }

    /// Whether it is neither lost nor delivered, and for this node.
    fn waits_for(&self, node: u8) -> bool
        ensures { result ≡ waits_for node self.now }
    {
        self.receiver == node && !(self.lost || self.delivered)
    }
}

/// The place of the first letter that waits for a node, or how many letters there are. It is looked for from a place that is not after it.
fn first_for(letters: &[InFlight], node: u8, from: usize) -> usize
    requires { from ≤ first_for node letters.now }
    ensures { result ≡ first_for node letters.now }
{
    let mut place = from;
    while place < letters.len() && !letters[place].waits_for(node) {
        place += 1;
    }
    place
}

/// The same of each node.
pub(crate) fn first_places(letters: &[InFlight], from: [usize; 8]) -> [usize; 8]
    requires { NoneAfterFirst from letters.now }
    ensures { AreFirst result letters.now }
{
    let mut places = from;
    for place in 0..8 {
        places[place] = first_for(letters, place as u8 + 1, places[place]);
    }
    places
}
