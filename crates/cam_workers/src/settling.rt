//! The last phase: what a hall leaves is brought to rest.
ghost use Rattle.std.specs.Prelude.{◌≡◌, ◌<◌, ◌≤◌, ◌+◌, ℕ, List, Some, IfOk, IsFalse, IsTrue, OnOk, length, slice_get};
ghost use Rattle.cam_journal.specs.declared.entry.NumberedEvent.{NumberedEvent};
ghost use Rattle.cam_journal.specs.declared.input.CoreInput.TheVariants.{Drive, Letter};
ghost use Rattle.cam_journal.specs.Rule.{IsNode};
ghost use Rattle.cam_workers.specs.Rest.{AreHandedOver, HasPassed, IsAtRest, IsDone, IsFound, IsHandedOver, IsNodeAtRest, events, stood};

use cam_base::NoMemory;
use cam_hall::{Ended, HallFault};
use cam_journal::{Core, CoreInput, NodeSeat, SentLetter};

/// How many nodes a hall has.
const NODES: usize = 4;

/// Takes turns with what a hall left until it is at rest: no core has anything to do by itself, or
/// with a letter of the histories, unless its own history is full.
pub fn settle<C: Core>(ended: &mut Ended<C>) -> Result<(), HallFault>
    requires nodes { ended.old.journal.nodes ≡ 4 }
    ensures journal { ended.new.journal ≡ ended.old.journal }
    ensures rest { OnOk result (IsAtRest C.sends C.goes_to C.is_idle (stood ended.new)) }
{
    let mut before = events(ended);
    pass(ended)?;
    while events(ended) > before {
        before = events(ended);
        pass(ended)?;
    }
    Ok(())
}

/// How many events there are in all.
fn events<C: Core>(ended: &Ended<C>) -> u64
    requires nodes { ended.now.journal.nodes ≡ 4 }
    ensures count { result ≡ events (stood ended.now) }
    ensures most { result ≤ 2000000000 }
{
    let seats = ended.seats();
    seats[0].len() + seats[1].len() + seats[2].len() + seats[3].len()
}

/// One pass over all nodes: each has its turn by itself, and the letters of its history are handed
/// over.
fn pass<C: Core>(ended: &mut Ended<C>) -> Result<(), HallFault>
    requires nodes { ended.old.journal.nodes ≡ 4 }
    ensures journal { ended.new.journal ≡ ended.old.journal }
    ensures passed { OnOk result (HasPassed (IsAtRest C.sends C.goes_to C.is_idle)
        (stood ended.old) (stood ended.new)) }
{
    for at in 0..NODES {
        pass_node(ended, at)?;
    }
    Ok(())
}

/// A turn of a node by itself, and of others with the letters of its history.
fn pass_node<C: Core>(ended: &mut Ended<C>, at: usize) -> Result<(), HallFault>
    requires nodes { ended.old.journal.nodes ≡ 4 }
    requires at { at < 4 }
    ensures journal { ended.new.journal ≡ ended.old.journal }
    ensures passed { OnOk result
        (HasPassed (λ now. IsNodeAtRest C.sends C.goes_to C.is_idle now at)
        (stood ended.old) (stood ended.new)) }
{
    drive(ended, at)?;
    hand_over_history(ended, at)
}

/// Hands over the letters of the history of a node.
fn hand_over_history<C: Core>(ended: &mut Ended<C>, at: usize) -> Result<(), HallFault>
    requires nodes { ended.old.journal.nodes ≡ 4 }
    requires at { at < 4 }
    ensures journal { ended.new.journal ≡ ended.old.journal }
    ensures passed { OnOk result (HasPassed
        (λ now. (index : ℕ) → AreHandedOver C.sends C.goes_to C.is_idle now at index)
        (stood ended.old) (stood ended.new)) }
{
    for index in 0..ended.seats()[at].len() {
        hand_over_all(ended, at, index)?;
    }
    Ok(())
}

/// A turn of a node by itself.
fn drive<C: Core>(ended: &mut Ended<C>, at: usize) -> Result<(), HallFault>
    requires nodes { ended.old.journal.nodes ≡ 4 }
    requires at { at < 4 }
    ensures journal { ended.new.journal ≡ ended.old.journal }
    ensures passed { OnOk result (HasPassed (λ now. IsDone C.is_idle now at Drive)
        (stood ended.old) (stood ended.new)) }
{
    ended.turn(at as u8 + 1, None)?;
    Ok(())
}

/// Hands over the letters of an event of a node.
fn hand_over_all<C: Core>(ended: &mut Ended<C>, at: usize, index: u64) -> Result<(), HallFault>
    requires nodes { ended.old.journal.nodes ≡ 4 }
    requires at { at < 4 }
    ensures journal { ended.new.journal ≡ ended.old.journal }
    ensures passed { OnOk result
        (HasPassed (λ now. AreHandedOver C.sends C.goes_to C.is_idle now at index)
        (stood ended.old) (stood ended.new)) }
{
    for place in 0..letters_of(&ended.seats()[at], index) {
        hand_over(ended, at, index, place)?;
    }
    Ok(())
}

/// Hands over a letter of an event of a node, if it goes to one of the nodes that has something to
/// do with it.
fn hand_over<C: Core>(
    ended: &mut Ended<C>,
    at: usize,
    index: u64,
    place: u32,
) -> Result<(), HallFault>
    requires nodes { ended.old.journal.nodes ≡ 4 }
    requires at { at < 4 }
    ensures journal { ended.new.journal ≡ ended.old.journal }
    ensures passed { OnOk result
        (HasPassed (λ now. IsHandedOver C.sends C.goes_to C.is_idle now at index place)
        (stood ended.old) (stood ended.new)) }
{
    let Ok(found) = letter_of(&ended.seats()[at], index, place) else {
        return Err(HallFault::NoMemory);
    };
    let Some(sent) = found else {
        return Ok(());
    };
    let number = sent.number;
    let to = C::to(&sent.letter);
    if is_due(ended, to, sent) {
        ended.turn(to, Some((number, place)))?;
    }
    Ok(())
}

/// Whether a node is one of the four, and has something to do with a letter.
fn is_due<C: Core>(ended: &Ended<C>, to: u8, sent: SentLetter<C::Letter>) -> bool
    requires nodes { ended.now.journal.nodes ≡ 4 }
    ensures due { IsTrue result → IsNode 4 to }
    ensures done { IsFalse result → (at : ℕ) → to ≡ at + 1 → at < 4
        → IsDone C.is_idle (stood ended.now) at (Letter sent.number sent.place sent.letter) }
{
    let to = usize::from(to);
    if to < 1 || to > NODES {
        return false;
    }
    let input = CoreInput::Letter {
        number: sent.number,
        place: sent.place,
        letter: sent.letter,
    };
    !ended.cores()[to - 1].idle(&input)
}

/// How many letters an event of a seat sent; none if there is no such event.
fn letters_of<C: Core>(seat: &NodeSeat<C>, index: u64) -> u32
    ensures { (entry : NumberedEvent C.Event C.Letter) → slice_get seat.now.history index ≡ Some entry
        → result ≡ length (C.sends entry.event) }
{
    match seat.get(index) {
        Some((_, event)) => C::letters(event),
        None => 0,
    }
}

/// An equal letter to the one that an event of a seat sent at a place; none if there is no such
/// letter.
fn letter_of<C: Core>(
    seat: &NodeSeat<C>,
    index: u64,
    place: u32,
) -> Result<Option<SentLetter<C::Letter>>, NoMemory>
    ensures { IfOk result (λ found. IsFound C.sends seat.now.history index place found) }
{
    let Some((number, event)) = seat.get(index) else {
        return Ok(None);
    };
    if place >= C::letters(event) {
        return Ok(None);
    }
    Ok(Some(SentLetter {
        number,
        place,
        letter: C::letter(event, place)?,
    }))
}
