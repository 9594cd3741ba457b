//! A letter arrives: it is read again from its bytes, which may have been cut.
ghost use Rattle.std.specs.Prelude.{◌≡◌, IfOk};
ghost use Rattle.cam_bytes.specs.declared.WireFault.TheVariants.{NoMemory as OutOfMemory};
ghost use Rattle.cam_cluster.specs.declared.arrival.Arrival.TheVariants.{Cut};
ghost use Rattle.cam_cluster.specs.Arrivals.{GivesFault, GivesWhole};

use cam_base::NoMemory;
use cam_event::Letter;
use cam_wire::{WireFault, decode};
use std::alloc::Global;

/// What the bytes of a letter are read as.
#[derive(Drop)]
pub enum Arrival {
    /// The whole letter.
    Whole(Letter),
    /// The letter was cut: its bytes have this fault.
    Cut(WireFault),
}

/// Reads the bytes of a letter that was sent, or those before a cut. All of them give exactly that
/// letter, with what it carries; fewer end too early, where they were cut. It fails only if
/// memory runs out.
pub fn read_arrival(alloc: Global, bytes: &[u8]) -> Result<Arrival, NoMemory>
    ensures whole { IfOk result (GivesWhole bytes.now) }
    ensures cut { IfOk result (GivesFault bytes.now) }
{
    match decode(alloc, bytes) {
        Ok(letter) => {
            // Only for the proof: no outcome stands twice.
            let _outcomes = letter.know.outcomes();
            Ok(Arrival::Whole(letter))
        }
        Err(fault) => cut_by(fault),
    }
}

/// A letter with this fault was cut, unless memory ran out; then nothing is said of the letter.
fn cut_by(fault: WireFault) -> Result<Arrival, NoMemory>
    ensures { IfOk result (λ a. (a ≡ Cut fault) × (fault ≡ OutOfMemory → ⊥)) }
{
    match fault {
        WireFault::Short(at) => Ok(Arrival::Cut(WireFault::Short(at))),
        WireFault::BadTag(at) => Ok(Arrival::Cut(WireFault::BadTag(at))),
        WireFault::BadNumber(at) => Ok(Arrival::Cut(WireFault::BadNumber(at))),
        WireFault::Order(at) => Ok(Arrival::Cut(WireFault::Order(at))),
        WireFault::Rest(at) => Ok(Arrival::Cut(WireFault::Rest(at))),
        WireFault::NoMemory => Err(NoMemory),
    }
}
