//! Random lists of deeds, on which the check and the plain machine by its definition answer alike.

use super::before::Before;
use super::next::Next;
use super::{expected, lines};
use crate::check::same;
use cam_base::NoMemory;
use cam_event::{Deed, Deeds};
use cam_names::Name;
use cam_plain::{CheckFault, DeedKind, check};
use cam_samples::{Draw, without};
use cam_type::{Items, ObjectDecl, Objects, State};
use std::alloc::Global;
use std::test::Fail;

const HISTORIES: u64 = 8;

/// How many deeds are tried in each.
const TRIES: u32 = 400;

/// How many deeds of each kind, by its number.
type ByKind = [u32; 14];

/// A legal list that grows by the deeds that are tried.
#[derive(Drop)]
struct History {
    /// What the deeds that are tried next are drawn from.
    draw: Draw,
    /// What the deeds are about.
    objects: Objects,
    /// The list as it stands, of legal deeds alone.
    deeds: Deeds,
    /// The actions that were created or asked for.
    names: Vec<Name>,
    /// How many of the tried deeds were legal.
    legal: ByKind,
    /// How many of the tried deeds were not.
    refused: ByKind,
}

/// A register and a counter at one node, and a queue at the other.
fn objects(alloc: Global) -> Result<Objects, NoMemory> {
    let mut objects = Objects::new(alloc);
    let starts = [
        (1, State::Register(0)),
        (2, State::Queue(Items::new(alloc))),
        (1, State::Counter(0)),
    ];
    for (node, start) in starts {
        objects.push(ObjectDecl { node, start })?;
    }
    Ok(objects)
}

impl History {
    /// No deed is tried yet.
    fn new(alloc: Global, seed: u64, objects: Objects) -> History {
        History {
            draw: Draw::of(seed),
            objects,
            deeds: Deeds::new(alloc),
            names: Vec::new(alloc),
            legal: [0; 14],
            refused: [0; 14],
        }
    }

    /// What is tried next: a deed, or none.
    fn next(&mut self, alloc: Global) -> Result<Deeds, NoMemory> {
        let mut tried = Deeds::new(alloc);
        let next = Next {
            before: Before {
                objects: &self.objects,
                deeds: self.deeds.as_slice(),
            },
            names: self.names.as_slice(),
        };
        next.add(alloc, &mut self.draw, &mut tried)?;
        Ok(tried)
    }

    /// Whether a deed is legal now by the definition.
    fn takes(&self, alloc: Global, deed: &Deed) -> Result<bool, NoMemory> {
        let before = Before {
            objects: &self.objects,
            deeds: self.deeds.as_slice(),
        };
        before.takes(alloc, deed)
    }

    /// Tries a deed: it stays where it is legal. Whether both answer alike.
    fn try_deed(&mut self, alloc: Global, deed: &Deed) -> Result<bool, CheckFault> {
        let is_legal = self.takes(alloc, deed)?;
        let at = self.deeds.len();
        let kind = DeedKind::of(deed);
        self.deeds.push_copy(deed)?;
        let found = check(alloc, &self.deeds, &self.objects);
        if is_legal {
            count(&mut self.legal, kind);
            self.note_name(deed)?;
            return Ok(found == Ok(()));
        }
        count(&mut self.refused, kind);
        self.deeds.remove(at);
        Ok(found == expected(&Some((at as u64, kind))))
    }

    fn note_name(&mut self, deed: &Deed) -> Result<(), NoMemory> {
        match deed {
            Deed::Create { action } if action.depth() == 1 => self.names.push(*action)?,
            Deed::Ask { child, .. } => self.names.push(*child)?,
            _ => {}
        }
        Ok(())
    }

    /// Tries what is next. Whether both answer alike.
    fn try_next(&mut self, alloc: Global) -> Result<bool, CheckFault> {
        let tried = self.next(alloc)?;
        for deed in tried.as_slice() {
            if !self.try_deed(alloc, deed)? {
                return Ok(false);
            }
        }
        Ok(true)
    }

    /// The first of many deeds on which they do not answer alike.
    fn first_unlike(&mut self, alloc: Global) -> Result<Option<u32>, CheckFault> {
        for place in 0..TRIES {
            if !self.try_next(alloc)? {
                return Ok(Some(place));
            }
        }
        Ok(None)
    }

    /// Whether both answer alike on the list without the deed at a place.
    fn is_alike_without(&self, alloc: Global, left_out: usize) -> Result<bool, CheckFault> {
        let less = without(alloc, self.deeds.as_slice(), left_out)?;
        let found = check(alloc, &less, &self.objects);
        Ok(found == lines::check(alloc, less.as_slice(), &self.objects))
    }

    /// The first place, of every fifth one, without whose deed the list is not answered alike.
    fn first_unlike_without(&self, alloc: Global) -> Result<Option<usize>, CheckFault> {
        for left_out in (0..self.deeds.len()).step_by(5) {
            if !self.is_alike_without(alloc, left_out)? {
                return Ok(Some(left_out));
            }
        }
        Ok(None)
    }

    /// Where this history, of this seed, is not answered alike.
    fn difference(&mut self, alloc: Global, seed: u64) -> Result<Option<Unlike>, CheckFault> {
        let first = self.first_unlike(alloc)?;
        let first_without = self.first_unlike_without(alloc)?;
        if first.is_none() && first_without.is_none() {
            return Ok(None);
        }
        Ok(Some(Unlike {
            seed,
            first,
            first_without,
        }))
    }
}

/// One more of a kind.
fn count(by_kind: &mut ByKind, kind: DeedKind) {
    if let Some(number) = by_kind.get_mut(kind.number() as usize) {
        *number = number.saturating_add(1);
    }
}

/// Adds the numbers of each kind.
fn add(sums: &mut ByKind, more: &ByKind) {
    for (sum, number) in sums.iter_mut().zip(more.iter()) {
        *sum = sum.saturating_add(*number);
    }
}

/// Where a history was not answered alike.
#[derive(Clone, Copy, Debug, PartialEq, Eq)]
struct Unlike {
    /// What the history is drawn from.
    seed: u64,
    /// The first try that was not answered alike.
    first: Option<u32>,
    /// The first place without whose deed the list was not answered alike.
    first_without: Option<usize>,
}

/// What came of the histories.
#[derive(Clone, Copy)]
struct Tally {
    /// Of the last history in which not all was answered alike.
    unlike: Option<Unlike>,
    /// How many of the tried deeds were legal.
    legal: ByKind,
    /// How many of the tried deeds were not.
    refused: ByKind,
}

impl Tally {
    /// What came of all histories.
    fn of_all(alloc: Global) -> Result<Tally, CheckFault> {
        let mut tally = Tally {
            unlike: None,
            legal: [0; 14],
            refused: [0; 14],
        };
        for seed in 0..HISTORIES {
            tally.add(alloc, seed)?;
        }
        Ok(tally)
    }

    /// Adds what comes of the history of this seed.
    fn add(&mut self, alloc: Global, seed: u64) -> Result<(), CheckFault> {
        let mut history = History::new(alloc, seed, objects(alloc)?);
        if let Some(unlike) = history.difference(alloc, seed)? {
            self.unlike = Some(unlike);
        }
        add(&mut self.legal, &history.legal);
        add(&mut self.refused, &history.refused);
        Ok(())
    }
}

/// The first kind of which there are not more than four deeds, and how many there are. No kind has the number 0.
fn first_rare(by_kind: &[u32]) -> Option<(usize, u32)> {
    for (kind, number) in by_kind.iter().enumerate().skip(1) {
        if *number <= 4 {
            return Some((kind, *number));
        }
    }
    None
}

/// Each kind is met, legal and, but for crashes, illegal.
#[test]
fn the_check_and_the_definition_answer_alike(rt: HostRuntime) -> Result<(), Fail> {
    let tally = Tally::of_all(rt.alloc())?;
    same(&rt, tally.unlike, None);
    same(&rt, ("legal", first_rare(&tally.legal)), ("legal", None));
    same(
        &rt,
        ("illegal", first_rare(&tally.refused[..13])),
        ("illegal", None),
    );
    Ok(())
}
