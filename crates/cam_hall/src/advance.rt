//! One step of a core, recorded in the seat of its node.
ghost use Rattle.std.specs.Prelude.{◌≡◌, IfSome};
ghost use Rattle.cam_journal.specs.Taking.{letter_in, IsFromLawful};
ghost use Rattle.cam_hall.specs.Turns.{core_input, taken_of, IsFor};
ghost use Rattle.cam_hall.specs.Advances.{with_item, IsAdvance};

use crate::item::{Item, ItemOf};
use crate::turned::HallFault;
use cam_journal::{Core, CoreInput, Journal, NodeSeat, ReserveFault};

/// What a core and its seat came to with an item.
pub(crate) enum Advance {
    /// One event more, under this number, which sends so many letters.
    Made { number: u64, letters: u32 },
    /// The core had nothing to do for the item.
    Nothing,
    /// The history has as many events as it can have.
    Full,
}

/// Takes the letter of the item, makes room, steps the core and records its event. The core stays
/// the replay of the history.
pub(crate) fn step_and_record<C: Core>(
    core: &mut C,
    seat: &mut NodeSeat<C>,
    journal: &Journal<C>,
    item: Item<C>,
) -> Result<Advance, HallFault>
    requires own { seat.old.journal ≡ journal.now.id }
    requires item { IsFor journal.now.id C.goes_to seat.old.node item }
    requires replay { C.is_replay core.old seat.old.node seat.old.history }
    ensures advance { IsAdvance C.faults C.names C.sends C.lawful C.answers C.is_idle
        (record { core = core.old; seat = seat.old }) (record { core = core.new; seat = seat.new })
        item result }
    ensures replay { C.is_replay core.new seat.new.node seat.new.history }
{
    let input = input_of(journal, seat, item);
    if core.idle(&input) {
        return Ok(Advance::Nothing);
    }
    match journal.reserve(seat) {
        Ok(()) => {}
        Err(ReserveFault::Full) => return Ok(Advance::Full),
        Err(ReserveFault::NoMemory) => return Err(HallFault::NoMemory),
    }
    let Some(event) = core.step(input)? else {
        unreachable!();
    };
    let letters = C::letters(&event);
    let number = journal.record(seat, event);
    Ok(Advance::Made { number, letters })
}

// What the core steps with: the letter of a note, which the seat takes, or nothing from outside.
fn input_of<C: Core>(
    journal: &Journal<C>,
    seat: &mut NodeSeat<C>,
    item: Item<C>,
) -> CoreInput<C::Letter>
    requires own { seat.old.journal ≡ journal.now.id }
    requires item { IsFor journal.now.id C.goes_to seat.old.node item }
    ensures input { result ≡ core_input item }
    ensures seat { seat.new ≡ with_item (taken_of item) seat.old }
    ensures letter { IfSome (taken_of item)
        (λ sent. (C.goes_to sent.letter ≡ seat.old.node) × IsFromLawful C.sends C.lawful sent) }
{
    match item {
        ItemOf::Letter(note) => {
            let number = note.number();
            let place = note.place();
            let letter = journal.take_note(seat, note);
            CoreInput::Letter {
                number,
                place,
                letter,
            }
        }
        ItemOf::Drive => CoreInput::Drive,
    }
}
