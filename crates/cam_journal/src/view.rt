//! What the seats of the table know, and the rule that ties them together.
ghost use Rattle.std.specs.Prelude.{Option, Some, None};

use crate::entry::{NumberedEvent, RunStep, SentLetter};
use crate::nodes::Core;
use atomic_table::{Join, Play, Seat, Shared, Split, Table, TableRule};
use std::alloc::Global;
use std::collections::LinkedList;
use std::marker::{Brand, PhantomData};

/// A node with its history.
pub struct NodeHistory<E, L> {
    pub node: u8,
    pub history: LinkedList<NumberedEvent<E, L>>,
}

/// What a seat of the table knows. No value of it is made.
pub enum SeatView<E, L> {
    /// It makes the seats of the nodes: how many there are in all, and which is the next.
    Maker {
        nodes: u8,
        next: u8,
    },
    /// It stands for a node: its number, its history, and the letter that it took and has not used.
    Node {
        node: u8,
        history: LinkedList<NumberedEvent<E, L>>,
        taken: Option<SentLetter<L>>,
    },
    /// It stands for a letter that was sent.
    Posted {
        sent: SentLetter<L>,
    },
    /// It gathers the histories of the nodes: how many there are in all, and those gathered so far.
    Gatherer {
        nodes: u8,
        gathered: LinkedList<NodeHistory<E, L>>,
    },
    /// It knows the whole run, and the nodes in the order in which they were gathered.
    Whole {
        gathered: LinkedList<NodeHistory<E, L>>,
        trace: LinkedList<RunStep<E, L>>,
    },
    /// It was joined into another.
    Spent,
}

/// The rule of the table, for events and letters of this core.
pub struct Lawful<C> {
    core: PhantomData<C>,
}

impl<C: Core> TableRule<(), SeatView<C::Event, C::Letter>, u8> for Lawful<C> {
    ghost use Rattle.cam_journal.specs.Rule.{IsKept, maker};

    ghost holds = { IsKept C.names C.sends C.lawful };

    ghost first = { maker };
}

/// The word and the views of a journal.
pub(crate) type Views<C> = Table<
    (),
    SeatView<<C as Core>::Event, <C as Core>::Letter>,
    u8,
    Lawful<C>,
    Global,
>;

/// The same without the memory.
pub(crate) type Rules<C> = Shared<
    (),
    SeatView<<C as Core>::Event, <C as Core>::Letter>,
    u8,
    Lawful<C>,
>;

/// What one seat knows.
pub(crate) type Token<C> = Seat<(), SeatView<<C as Core>::Event, <C as Core>::Letter>>;

/// A value that a step is told. It is for the proofs alone.
pub(crate) trait Told<T> {
    ghost told: { Option T };
}

impl<T> Told<T> for Brand {
    ghost told = { None };
}

/// Cuts off the seat of the next node.
pub(crate) struct Opens;

impl<E, L> Split<SeatView<E, L>> for Opens {
    ghost use Rattle.cam_journal.specs.Rule.{without_next, next_node};

    ghost left = { without_next };

    ghost right = { next_node };
}

/// Records an event under the number that was found.
pub(crate) struct Records<C, N> {
    of: PhantomData<(C, N)>,
}

impl<C: Core, N: Told<C::Event>> Play<(), SeatView<C::Event, C::Letter>> for Records<C, N> {
    ghost use Rattle.cam_journal.specs.Rule.{Recorded};

    ghost then = { λ st me found after. Recorded C.names N.told found me after };
}

/// Makes a seat that gathers histories.
pub(crate) struct Gathers;

impl<E, L> Play<(), SeatView<E, L>> for Gathers {
    ghost use Rattle.cam_journal.specs.Rule.{StartsGathering};

    ghost then = { λ st me found after. StartsGathering me after };
}

/// Takes in the history of a node.
impl<E, L> Join<SeatView<E, L>> for Gathers {
    ghost use Rattle.cam_journal.specs.Rule.{with_history};
    ghost use Rattle.cam_journal.specs.declared.view.SeatView.TheVariants.{Spent};

    ghost both = { with_history };

    ghost spent = { Spent };
}

/// Tells the whole run.
pub(crate) struct Learns<C> {
    of: PhantomData<C>,
}

impl<C: Core> Play<(), SeatView<C::Event, C::Letter>> for Learns<C> {
    ghost use Rattle.cam_journal.specs.Rule.{Learned};

    ghost then = { λ st me found after. Learned C.names C.sends C.lawful found me after };
}

/// Cuts off a note of a letter that the node sent.
pub(crate) struct Notes<N> {
    of: PhantomData<N>,
}

impl<E, L, N: Told<SentLetter<L>>> Split<SeatView<E, L>> for Notes<N> {
    ghost use Rattle.cam_journal.specs.Rule.{note_of};

    ghost left = { λ view. view };

    ghost right = { λ view. note_of N.told };
}

/// Cuts off a second note of the same letter.
pub(crate) struct Copies;

impl<E, L> Split<SeatView<E, L>> for Copies {
    ghost left = { λ view. view };

    ghost right = { λ view. view };
}

/// Takes the letter of a note.
pub(crate) struct Takes;

impl<E, L> Join<SeatView<E, L>> for Takes {
    ghost use Rattle.cam_journal.specs.Rule.{with_letter};
    ghost use Rattle.cam_journal.specs.declared.view.SeatView.TheVariants.{Spent};

    ghost both = { with_letter };

    ghost spent = { Spent };
}
