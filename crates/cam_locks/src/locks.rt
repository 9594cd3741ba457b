//! The locks on one object.
ghost use Rattle.std.specs.Prelude.{◌≡◌, true, if◌then◌else◌, IfOk, OnOk, OnErr};
ghost use Rattle.cam_type.specs.Table.{kind_of, fits};
ghost use Rattle.cam_locks.specs.Holding.{fresh, leaders_of};
ghost use Rattle.cam_locks.specs.Sums.{is_counter};
ghost use Rattle.cam_locks.specs.Changes.{standing, first_standing, earlier, first_over, state_of, last_settled, LeadersStay, Tidied, IsDone};
ghost use Rattle.cam_locks.specs.Served.{IsServed};

use crate::live::Live;
use crate::names::Names;
use crate::versions::{self, Version};
use crate::{LiveOp, leaders};
use cam_base::NoMemory;
use cam_names::Name;
use cam_type::{Answer, DataType, Kind, Mode, Op, State, compatible, mode_of};
use std::alloc::Global;
use std::collections::VecDeque;
use std::marker::Model;

/// The locks on one object: of each holder the first operation of each mode, and versions. Holders are told by the lifts of actions, so a
/// commit hands locks and versions up by being noted, and an abort drops them with their operations.
#[derive(Drop)]
pub(crate) struct Locks {
    start: State,
    readers: VecDeque<LiveOp>,
    writers: VecDeque<LiveOp>,
    adders: VecDeque<LiveOp>,
    versions: Vec<Version>,
    /// Nothing is kept any more: the object is replayed from the list.
    stale: bool,
}

impl Model for Locks {
    ghost use Rattle.cam_type.specs.Table.{kind_of};
    ghost use Rattle.cam_locks.specs.Holding.{LocksView};
    ghost use Rattle.cam_locks.specs.Kinds.{AreOfKind};

    ghost Value = { LocksView };

    ghost view = { λ l. record {
      start = l.start;
      readers = l.readers.items;
      writers = l.writers.items;
      adders = l.adders.items;
      versions = l.versions.items;
      stale = l.stale;
    } };

    ghost invariant = { λ l. AreOfKind (kind_of l.start) l.versions.items };
}

impl Locks {
    /// What is kept of an object without operations.
    pub(crate) fn new(alloc: Global, start: State) -> Locks
        ensures { result ≡ fresh start }
    {
        Locks {
            start,
            readers: VecDeque::new(alloc),
            writers: VecDeque::new(alloc),
            adders: VecDeque::new(alloc),
            versions: Vec::new(alloc),
            stale: false,
        }
    }
}

impl Locks {
    /// Whether nothing is kept any more.
    pub(crate) fn is_stale(&self) -> bool
        ensures { result ≡ self.now.stale }
    {
        self.stale
    }

    /// Whether the object is a counter.
    pub(crate) fn is_counter(&self) -> bool
        ensures { result ≡ is_counter self.now.start }
    {
        self.start.kind() == Kind::Counter
    }

    /// Keeps nothing from now on.
    pub(crate) fn spoil(&mut self)
        ensures { self.new ≡ record self.old { stale = true } }
    {
        self.stale = true;
    }

    /// The first live operation that stands in the way of an op of an action, of those whose modes are not compatible with the op's.
    pub(crate) fn first_conflict(
        &mut self,
        live: &Live,
        committed: &Names,
        name: &Name,
        op: &Op,
    ) -> Option<LiveOp>
        ensures tidied { Tidied committed.now.names live.now.ops self.old self.new }
        ensures value { result ≡ first_over (λ m.
            standing committed.now.names live.now.ops name.now op.now m (leaders_of self.new m)) }
    {
        let joins_readers = compatible(Mode::Read, mode_of(op));
        let joins_writers = compatible(Mode::Write, mode_of(op));
        let joins_adders = compatible(Mode::Add, mode_of(op));
        let reader = standing(&mut self.readers, live, committed, name, joins_readers);
        let writer = standing(&mut self.writers, live, committed, name, joins_writers);
        let adder = standing(&mut self.adders, live, committed, name, joins_adders);
        earlier(earlier(reader, writer), adder)
    }

    /// Has a server do an operation in whose way no one stands.
    pub(crate) fn perform<T: DataType>(
        &mut self,
        operation: &LiveOp,
        live: &Live,
        committed: &Names,
        server: &mut T,
    ) -> Result<Answer, NoMemory>
        requires kind { T.kind server.old ≡ kind_of self.old.start }
        requires fits { fits (kind_of self.old.start) operation.now.op ≡ true }
        ensures kind_stays { T.kind server.new ≡ T.kind server.old }
        ensures served { OnOk result (IsServed committed.now.names live.now.ops operation.now
            (T.held server.new) self.old) }
        ensures done { IfOk result (λ answer.
            IsDone committed.now.names live.now.ops operation.now answer self.old self.new) }
        ensures err { OnErr result (Tidied committed.now.names live.now.ops self.old self.new) }
    {
        versions::tidy(&mut self.versions, live, committed);
        let start = &self.start;
        let op = &operation.op;
        let sum = live.sum(operation.object);
        match mode_of(op) {
            Mode::Read => {
                leaders::make_room(&mut self.readers, live, committed)?;
                let answer = versions::serve(self.versions.as_slice(), start, sum, op, server)?;
                leaders::add(&mut self.readers, operation, live, committed);
                Ok(answer)
            }
            Mode::Write => {
                leaders::make_room(&mut self.writers, live, committed)?;
                let versions = &mut self.versions;
                let answer = versions::write(versions, start, sum, operation, committed, server)?;
                leaders::add(&mut self.writers, operation, live, committed);
                Ok(answer)
            }
            Mode::Add => {
                leaders::make_room(&mut self.adders, live, committed)?;
                let answer = versions::serve(self.versions.as_slice(), start, sum, op, server)?;
                leaders::add(&mut self.adders, operation, live, committed);
                Ok(answer)
            }
        }
    }

    /// The state after the last live write that is past the top; else the start state.
    pub(crate) fn settled(&self, live: &Live, committed: &Names) -> Result<State, NoMemory>
        ensures { IfOk result (λ state. state ≡ state_of self.now.start
            (last_settled committed.now.names live.now.ops self.now.versions)) }
    {
        versions::settled(self.versions.as_slice(), live, committed, &self.start)
    }

    /// The same.
    pub(crate) fn copy(&self) -> Result<Locks, NoMemory>
        ensures { IfOk result (λ copy. copy ≡ self.now) }
    {
        let alloc = *self.versions.allocator();
        Ok(Locks {
            start: self.start.copy()?,
            readers: self.readers.iter().copied().collect(alloc)?,
            writers: self.writers.iter().copied().collect(alloc)?,
            adders: self.adders.iter().copied().collect(alloc)?,
            versions: versions::copy(&self.versions)?,
            stale: self.stale,
        })
    }
}

/// The first that stands in the way, unless the modes are compatible.
fn standing(
    leaders: &mut VecDeque<LiveOp>,
    live: &Live,
    committed: &Names,
    name: &Name,
    compatible: bool,
) -> Option<LiveOp>
    ensures kept { LeadersStay committed.now.names live.now.ops
        leaders.old.items leaders.new.items }
    ensures value { result ≡ (if compatible then None else
        first_standing committed.now.names live.now.ops name.now leaders.new.items) }
{
    if compatible {
        return None;
    }
    leaders::first_in_the_way(leaders, live, committed, name)
}

/// The one with the lesser index.
fn earlier(one: Option<LiveOp>, other: Option<LiveOp>) -> Option<LiveOp>
    ensures { result ≡ earlier one other }
{
    match (&one, &other) {
        (None, _) => other,
        (_, None) => one,
        (Some(first), Some(second)) => {
            if first.index <= second.index {
                one
            } else {
                other
            }
        }
    }
}
