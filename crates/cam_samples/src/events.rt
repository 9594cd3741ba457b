//! Lists of deeds and of letters, and events of them.
ghost use Rattle.std.specs.Prelude.{◌≡◌, ◌<◌, ◌≤◌, IfOk, [], length, remove};

use cam_base::NoMemory;
use cam_event::{Deed, Deeds, Event, LetterId, Note, Sent, SentList};
use std::alloc::Global;

/// A list of these deeds.
pub fn deeds_of(alloc: Global, deeds: &[Deed]) -> Result<Deeds, NoMemory>
    ensures { IfOk result (λ list. list ≡ deeds.now) }
{
    let mut list = Deeds::new(alloc);
    for deed in deeds {
        list.push_copy(deed)?;
    }
    Ok(list)
}

/// A list of these deeds but the one at a place, counted from 0; of all of them where the place is past their end.
pub fn without(alloc: Global, deeds: &[Deed], left_out: usize) -> Result<Deeds, NoMemory>
    ensures one_less { left_out < length deeds.now → IfOk result (λ list. list ≡ remove deeds.now left_out) }
    ensures whole { length deeds.now ≤ left_out → IfOk result (λ list. list ≡ deeds.now) }
{
    let mut list = deeds_of(alloc, deeds)?;
    if left_out < list.len() {
        list.remove(left_out);
    }
    Ok(list)
}

/// A list of these letters.
pub fn sent_of(alloc: Global, letters: &[Sent]) -> Result<SentList, NoMemory>
    ensures { IfOk result (λ list. list ≡ letters.now) }
{
    let mut list = SentList::new(alloc);
    for letter in letters {
        list.push_copy(letter)?;
    }
    Ok(list)
}

/// An event of a node with these deeds, which sends no letter.
pub fn event(
    alloc: Global,
    node: u8,
    got: Option<LetterId>,
    deeds: &[Deed],
    note: Note,
) -> Result<Event, NoMemory>
    ensures node { IfOk result (λ event. event.node ≡ node) }
    ensures got { IfOk result (λ event. event.got ≡ got) }
    ensures deeds { IfOk result (λ event. event.deeds ≡ deeds.now) }
    ensures silent { IfOk result (λ event. event.sent ≡ []) }
    ensures note { IfOk result (λ event. event.note ≡ note) }
{
    Ok(Event {
        node,
        got,
        deeds: deeds_of(alloc, deeds)?,
        sent: SentList::new(alloc),
        note,
    })
}
