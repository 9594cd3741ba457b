//! The serial lists that deeds should give, and what is found of the deeds.
use cam_base::NoMemory;
use cam_event::Deeds;
use cam_names::Name;
use cam_plain::{CheckFault, DeedKind, check};
use cam_serial::{SerialList, replays, serial};
use cam_type::{Answer, Objects};
use std::alloc::Global;

/// Whether the list has the calls of these actions with these answers, in this order.
fn has_calls(list: &SerialList, calls: &[(Name, Answer)]) -> bool {
    let mut alike = list.len() == calls.len();
    for (operation, (action, answer)) in list.as_slice().iter().zip(calls) {
        alike = alike && operation.action == *action && operation.answer == *answer;
    }
    alike
}

/// The serial list that a name should have: the list of the deeds as a whole where there is no name.
#[derive(Clone, Copy)]
pub(super) struct Wanted<'a> {
    name: Option<&'a Name>,
    calls: &'a [(Name, Answer)],
}

impl<'a> Wanted<'a> {
    /// The list of these calls, of a name or of the deeds as a whole.
    pub(super) fn new(name: Option<&'a Name>, calls: &'a [(Name, Answer)]) -> Wanted<'a> {
        Wanted { name, calls }
    }

    /// Whether the list has these calls, and replays.
    fn is_met(&self, alloc: Global, deeds: &Deeds, objects: &Objects) -> Result<bool, NoMemory> {
        let list = serial(alloc, deeds, objects, self.name)?;
        Ok(has_calls(&list, self.calls) && replays(alloc, &list, objects)?)
    }
}

/// Whether the deeds are legal, and the place of the first of the wanted lists that they do not give.
#[derive(Clone, Copy, Debug, PartialEq, Eq)]
pub(super) struct Found {
    legal: Result<(), CheckFault>,
    unmet: Option<usize>,
}

/// What is found where the deeds are legal and give each wanted list.
pub(super) const ALL_IS_MET: Found = Found {
    legal: Ok(()),
    unmet: None,
};

impl Found {
    /// What is found of these deeds, where these are the wanted lists.
    pub(super) fn of(
        alloc: Global,
        deeds: &Deeds,
        objects: &Objects,
        lists: &[Wanted],
    ) -> Result<Found, NoMemory> {
        let unmet = first_unmet(alloc, deeds, objects, lists)?;
        let legal = check(alloc, deeds, objects);
        Ok(Found { legal, unmet })
    }
}

/// The place of the first of the wanted lists that the deeds do not give.
fn first_unmet(
    alloc: Global,
    deeds: &Deeds,
    objects: &Objects,
    lists: &[Wanted],
) -> Result<Option<usize>, NoMemory> {
    for (place, wanted) in lists.iter().enumerate() {
        if !wanted.is_met(alloc, deeds, objects)? {
            return Ok(Some(place));
        }
    }
    Ok(None)
}

/// What is found where the deed at a place is not legal, and the deeds give each list all the same.
pub(super) fn illegal(at: u64, cause: DeedKind) -> Found {
    Found {
        legal: Err(CheckFault::Illegal { at, cause }),
        unmet: None,
    }
}
