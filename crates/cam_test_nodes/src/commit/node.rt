//! A node that commits families, and steps that are played at it.
use cam_base::{NoMemory, Sequence};
use cam_commit::{Asked, Families, Queried, Voted};
use cam_know::{Know, Outcome};
use cam_names::{Deps, Name};
use cam_type::Held;
use std::alloc::Global;

/// What happens at a node.
#[derive(Clone, Copy)]
pub(super) enum Act {
    /// It begins to prepare a family. It may not where it is preparing it.
    BeginsToPrepare(Name),
    /// Whether it is preparing a family.
    IsPreparing(Name),
    /// Another node, at a count, votes yes for a family.
    Yes(Name, u8, u32),
    /// Another node, at a count, votes no.
    No(Name, u8, u32),
    /// It is to secure a family for the first count, and is at the second.
    IsToSecure(Name, u32, u32),
    /// It has secured a family.
    Secures(Name),
    /// It is asked after a family, and is at this count.
    Query(Name, u32),
    /// It learns how a family ended.
    Learns(Outcome),
    /// It restarts, and its log has this family as secured at its count 2.
    RestartsWith(Name),
    /// It restarts, and its log has no family.
    Restarts,
}

/// What a node answers.
#[derive(Clone, Copy, Debug, PartialEq, Eq)]
pub(super) enum Answer {
    Done,
    /// It may not begin to prepare: it is preparing.
    MayNot,
    Is(bool),
    Voted(Voted),
    Asked(Asked),
    Queried(Queried),
}

/// What happens at a node, and what it should answer.
pub(super) type Step = (Act, Answer);

/// It restarts, and its log has this family as secured at its count 2.
pub(super) fn restarts_with(family: Name) -> Step {
    (Act::RestartsWith(family), Answer::Done)
}

/// It restarts, and its log has no family.
pub(super) fn restarts() -> Step {
    (Act::Restarts, Answer::Done)
}

/// It begins to prepare a family, and may.
pub(super) fn begins_to_prepare(family: Name) -> Step {
    (Act::BeginsToPrepare(family), Answer::Done)
}

/// Whether it is preparing a family.
pub(super) fn is_preparing(family: Name, is_so: bool) -> Step {
    (Act::IsPreparing(family), Answer::Is(is_so))
}

/// Another node, at a count, votes yes for a family.
pub(super) fn votes_yes(family: Name, node: u8, count: u32, voted: Voted) -> Step {
    (Act::Yes(family, node, count), Answer::Voted(voted))
}

/// Another node, at a count, votes no.
pub(super) fn votes_no(family: Name, node: u8, count: u32, voted: Voted) -> Step {
    (Act::No(family, node, count), Answer::Voted(voted))
}

/// It is to secure a family for the first count, and is at the second.
pub(super) fn is_to_secure(family: Name, count: u32, present: u32, asked: Asked) -> Step {
    let act = Act::IsToSecure(family, count, present);
    (act, Answer::Asked(asked))
}

/// It has secured a family.
pub(super) fn secures(family: Name) -> Step {
    (Act::Secures(family), Answer::Done)
}

/// It is asked after a family, and is at this count.
pub(super) fn query(family: Name, present: u32, queried: Queried) -> Step {
    (Act::Query(family, present), Answer::Queried(queried))
}

/// It learns how a family ended.
pub(super) fn learns(outcome: Outcome) -> Step {
    (Act::Learns(outcome), Answer::Done)
}

/// A node: what it knows, the families that it commits, and what each of these depends on.
#[derive(Drop)]
struct Node {
    know: Know,
    families: Families,
    deps: Deps,
}

impl Node {
    fn new(alloc: Global, deps: &Deps) -> Node {
        Node {
            know: Know::new(alloc),
            families: Families::new(alloc),
            deps: *deps,
        }
    }

    /// The first of these steps, one after the other, that is answered otherwise, and how.
    fn first_other(
        &mut self,
        alloc: Global,
        steps: &[Step],
    ) -> Result<Option<(usize, Answer)>, NoMemory> {
        for (place, (act, wanted)) in steps.iter().enumerate() {
            let got = self.answer(alloc, act)?;
            if got != *wanted {
                return Ok(Some((place, got)));
            }
        }
        Ok(None)
    }

    fn answer(&mut self, alloc: Global, act: &Act) -> Result<Answer, NoMemory> {
        match act {
            Act::BeginsToPrepare(family) => self.prepare(family),
            Act::IsPreparing(family) => Ok(Answer::Is(self.families.is_preparing(family))),
            Act::Yes(family, node, count) => self.yes(family, *node, *count),
            Act::No(family, node, count) => self.no(family, *node, *count),
            Act::IsToSecure(family, count, present) => {
                let asked = self.families.asked(family, *count, *present, &self.know);
                Ok(Answer::Asked(asked))
            }
            Act::Secures(family) => self.secure(family),
            Act::Query(family, present) => {
                let queried = self.families.query(family, *present, &self.know);
                Ok(Answer::Queried(queried))
            }
            Act::Learns(outcome) => self.learn(outcome),
            Act::RestartsWith(family) => self.restart_with(alloc, family),
            Act::Restarts => self.restart(alloc, &[]),
        }
    }

    fn prepare(&mut self, family: &Name) -> Result<Answer, NoMemory> {
        self.families.reserve()?;
        if self.families.is_preparing(family) {
            return Ok(Answer::MayNot);
        }
        self.families.prepare(family);
        Ok(Answer::Done)
    }

    fn yes(&mut self, family: &Name, node: u8, count: u32) -> Result<Answer, NoMemory> {
        self.families.reserve()?;
        let voted = self.families.vote(family, node, count, true, &self.deps);
        Ok(Answer::Voted(voted))
    }

    fn no(&mut self, family: &Name, node: u8, count: u32) -> Result<Answer, NoMemory> {
        self.families.reserve()?;
        let voted = self.families.vote(family, node, count, false, &self.deps);
        Ok(Answer::Voted(voted))
    }

    fn secure(&mut self, family: &Name) -> Result<Answer, NoMemory> {
        self.families.reserve()?;
        self.families.secured(family);
        Ok(Answer::Done)
    }

    fn learn(&mut self, outcome: &Outcome) -> Result<Answer, NoMemory> {
        self.know.add(outcome)?;
        Ok(Answer::Done)
    }

    fn restart_with(&mut self, alloc: Global, family: &Name) -> Result<Answer, NoMemory> {
        let held = [Held {
            family: *family,
            count: 2,
            ops: Sequence::new(alloc),
        }];
        self.restart(alloc, &held)
    }

    fn restart(&mut self, alloc: Global, held: &[Held]) -> Result<Answer, NoMemory> {
        self.families = Families::of(alloc, held)?;
        Ok(Answer::Done)
    }
}

/// The first of these steps, one after the other at a node to which nothing has happened, that is answered otherwise, and how.
pub(super) fn first_other(
    alloc: Global,
    deps: &Deps,
    steps: &[Step],
) -> Result<Option<(usize, Answer)>, NoMemory> {
    let mut node = Node::new(alloc, deps);
    node.first_other(alloc, steps)
}
