//! Letters that are put next.
ghost use Rattle.std.specs.Prelude.{◌≡◌, ◌<◌, [], length, eqb, false, OnOk, OnErr};
ghost use Rattle.std.specs.List.{AllByRecursion};
ghost use Rattle.cam_wire.specs.Writable.{IsWritable};
ghost use Rattle.cam_net.specs.Letters.{has_letter, changed, as_lost, as_delivered};
ghost use Rattle.cam_net.specs.Outbox.{HasPutSome};

use crate::net::Net;
use cam_base::{NoMemory, Sequence};
use cam_event::Letter;
use std::alloc::Global;
use std::marker::Model;

/// A network, and the letters of an event that are still to be put there. To hand them over takes no memory, so an event that stands has its
/// letters, even if there is no memory for their bytes yet.
#[derive(Drop)]
pub struct Outbox {
    net: Net,
    letters: Sequence<Letter>,
    put: usize,
}

impl Model for Outbox {
    ghost use Rattle.std.specs.Prelude.{◌≤◌, drop, length};
    ghost use Rattle.cam_net.specs.Outbox.{OutboxFields};

    ghost Value = { OutboxFields };

    ghost view = { λ o. record { net = o.net; unput = drop o.put o.letters } };

    ghost invariant = { λ o. o.put ≤ length o.letters };
}

impl Outbox {
    /// No letter. It takes no memory.
    pub fn new(alloc: Global) -> Outbox
        ensures { result ≡ record { net = []; unput = [] } }
    {
        Outbox {
            net: Net::new(alloc),
            letters: Sequence::new(alloc),
            put: 0,
        }
    }

    /// The network: the letters that were put.
    pub fn net(&self) -> &Net
        ensures { result.now ≡ self.now.net }
    {
        &self.net
    }

    /// These letters are put next. None was left to be put. It takes no memory.
    pub fn send(&mut self, letters: Sequence<Letter>)
        requires { self.old.unput ≡ [] }
        ensures { self.new ≡ record { net = self.old.net; unput = letters } }
    {
        self.letters = letters;
        self.put = 0;
    }

    /// Whether none is left to be put.
    pub fn is_empty(&self) -> bool
        ensures { result ≡ eqb (length self.now.unput) 0 }
    {
        self.put == self.letters.len()
    }

    /// Puts all of them. `NoMemory`: memory ran out, and some may have been put, the first
    /// ones; the others are put next, one at least.
    pub fn put_all(&mut self) -> Result<(), NoMemory>
        requires { AllByRecursion IsWritable self.old.unput }
        ensures some { HasPutSome self.old self.new }
        ensures all { OnOk result (self.new.unput ≡ []) }
        ensures left { OnErr result (0 < length self.new.unput) }
    {
        while !self.is_empty() {
            self.put_next()?;
        }
        Ok(())
    }

    /// Puts the next of them. There is one.
    fn put_next(&mut self) -> Result<(), NoMemory>
        requires there { 0 < length self.old.unput }
        requires writable { AllByRecursion IsWritable self.old.unput }
        ensures some { HasPutSome self.old self.new }
        ensures writable { AllByRecursion IsWritable self.new.unput }
        ensures fewer { OnOk result (length self.new.unput < length self.old.unput) }
        ensures same { OnErr result (self.new ≡ self.old) }
    {
        // Only for the proof: their number fits a machine's.
        let _many = self.letters.len();
        let Some(letter) = self.letters.get(self.put) else {
            // one is left
            unreachable!()
        };
        self.net.put(letter)?;
        self.put += 1;
        Ok(())
    }

    /// Loses a letter of the network for good. False exactly if no such letter was put or it is lost, and then nothing changes.
    pub fn lose(&mut self, number: u32) -> bool
        ensures answer { result ≡ has_letter self.old.net number }
        ensures lost { self.new
            ≡ record { net = changed as_lost self.old.net number; unput = self.old.unput } }
        ensures unchanged { result ≡ false → self.new ≡ self.old }
    {
        self.net.lose(number)
    }

    /// Notes that a letter of the network was delivered; nothing where no such letter was put.
    pub fn delivered(&mut self, number: u32)
        ensures { self.new
            ≡ record { net = changed as_delivered self.old.net number; unput = self.old.unput } }
    {
        self.net.delivered(number);
    }
}
