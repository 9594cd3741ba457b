//! The network's calls.
ghost use Rattle.std.specs.Prelude.{◌≡◌, ◌++◌, suc, [], ◌∷◌, length, false, IfOk, OnOk, OnErr};
ghost use Rattle.std.specs.Option.{option_map};
ghost use Rattle.cam_wire.specs.Laws.{IsSpelled};
ghost use Rattle.cam_wire.specs.OneSet.{HasOneSetEach};
ghost use Rattle.cam_wire.specs.Spelling.{spelled};
ghost use Rattle.cam_wire.specs.Writable.{IsWritable};
ghost use Rattle.cam_net.specs.Letters.{put_as, has_letter, letter_of, whole_of, cut_of, changed, as_lost, as_delivered};
ghost use Rattle.cam_net.specs.Waiting.{is_halted, next_of};

use crate::in_flight::{InFlight, first_places};
use cam_base::NoMemory;
use cam_event::Letter;
use cam_wire::encode;
use std::alloc::Global;
use std::marker::Model;

/// Letters in flight. Of each node the place of the first letter that waits for it stands beside them. A letter that waits no more never
/// waits again, so these places only grow, and all calls together take each of them over each letter once.
#[derive(Drop)]
pub struct Net {
    letters: Vec<InFlight>,
    first: [usize; 8],
}

impl Model for Net {
    ghost use Rattle.std.specs.Prelude.{List};
    ghost use Rattle.cam_net.specs.Letters.{InFlightFields};
    ghost use Rattle.cam_net.specs.Waiting.{IsNet};

    ghost Value = { List InFlightFields };

    ghost view = { λ n. n.letters.items };

    ghost invariant = { λ n. IsNet n.letters.items n.first };
}

impl Net {
    /// No letter. It takes no memory.
    pub fn new(alloc: Global) -> Net
        ensures { result ≡ [] }
    {
        Net {
            letters: Vec::new(alloc),
            first: [0; 8],
        }
    }

    /// Puts a letter as its bytes, and answers its number. It requires what `encode` does. Where no name is committed with two dependency sets
    /// the bytes spell the letter. `NoMemory`: memory ran out, and the network is as
    /// before; so it is where 4,294,967,295 letters were put.
    pub fn put(&mut self, letter: &Letter) -> Result<u32, NoMemory>
        requires { IsWritable letter.now }
        ensures put { OnOk result (self.new ≡ self.old ++ put_as letter.now ∷ []) }
        ensures number { IfOk result (λ number. number ≡ length self.new) }
        ensures spells { HasOneSetEach letter.now
            → OnOk result (IsSpelled letter.now (spelled letter.now)) }
        ensures unchanged { OnErr result (self.new ≡ self.old) }
    {
        let bytes = encode(*self.letters.allocator(), letter)?;
        if self.letters.len() >= u32::MAX as usize {
            return Err(NoMemory);
        }
        self.letters.push(InFlight {
            receiver: letter.to,
            bytes,
            lost: false,
            delivered: false,
        })?;
        self.first = first_places(self.letters.as_slice(), self.first);
        Ok(self.letters.len() as u32)
    }

    /// All bytes of a letter; none exactly if no such letter was put or it is lost.
    pub fn whole(&self, number: u32) -> Option<&[u8]>
        ensures { option_map (λ bytes. bytes.now) result ≡ whole_of self.now number }
    {
        let letter = self.letter(number)?;
        Some(letter.bytes.as_slice())
    }

    /// The first bytes of a letter, or all where it has no more; none exactly if no such letter was put or it is lost.
    pub fn cut(&self, number: u32, bytes: usize) -> Option<&[u8]>
        ensures { option_map (λ first. first.now) result ≡ cut_of self.now number bytes }
    {
        let all = self.whole(number)?;
        Some(&all[..bytes.min(all.len())])
    }

    /// Loses a letter for good. False exactly if no such letter was put or it is lost, and then nothing changes.
    pub fn lose(&mut self, number: u32) -> bool
        ensures answer { result ≡ has_letter self.old number }
        ensures lost { self.new ≡ changed as_lost self.old number }
        ensures unchanged { result ≡ false → self.new ≡ self.old }
    {
        if !self.has(number) {
            return false;
        }
        self.letters[number as usize - 1].lose();
        self.first = first_places(self.letters.as_slice(), self.first);
        true
    }

    /// The least number of a letter that is neither delivered nor lost nor for a halted node. Node n is halted where `halted[n - 1]` is.
    pub fn next(&self, halted: &[bool]) -> Option<u32>
        ensures { result ≡ next_of halted.now self.now }
    {
        let mut least = self.letters.len();
        for node in 0..8 {
            if !is_halted(halted, node) {
                least = least.min(self.first[node]);
            }
        }
        if least < self.letters.len() {
            Some(least as u32 + 1)
        } else {
            None
        }
    }

    /// Notes that a letter was delivered; nothing where no such letter was put.
    pub fn delivered(&mut self, number: u32)
        ensures { self.new ≡ changed as_delivered self.old number }
    {
        let number = number as usize;
        if 1 <= number && number <= self.letters.len() {
            self.letters[number - 1].deliver();
            self.first = first_places(self.letters.as_slice(), self.first);
        }
    }

    /// Whether a letter was put under the number and is not lost.
    fn has(&self, number: u32) -> bool
        ensures { result ≡ has_letter self.now number }
    {
        self.letter(number).is_some()
    }

    /// The letter of a number, unless it is lost.
    fn letter(&self, number: u32) -> Option<&InFlight>
        ensures { option_map (λ letter. letter.now) result ≡ letter_of self.now number }
    {
        let place = number.checked_sub(1)? as usize;
        let letter = self.letters.get(place)?;
        if letter.lost { None } else { Some(letter) }
    }
}

/// Whether the node at a place is halted.
fn is_halted(halted: &[bool], place: usize) -> bool
    ensures { result ≡ is_halted halted.now (suc place) }
{
    halted.get(place).copied().unwrap_or(false)
}
