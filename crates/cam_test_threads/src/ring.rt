//! A hall of four speakers, and the events of what a hall leaves.
ghost use Rattle.std.specs.Prelude.{◌≡◌, ◌-◌, [], OnOk, OnSome, IfOk, IfSome};
ghost use Rattle.cam_journal.specs.Seats.{AreNew};

use crate::speaker::Speaker;
use cam_hall::{Cell, Ended, Hall, HallRoom, Names};
use cam_journal::{Core, CoreFault, Gathered, Journal, NodeSeat, Seats};
use std::alloc::Global;
use std::test::Fail;

/// What the first steps of nodes 3 and 4 that are not idle fail by.
#[derive(Clone, Copy)]
pub(crate) struct Troubles {
    pub(crate) third: Option<CoreFault>,
    pub(crate) fourth: Option<CoreFault>,
}

/// The steps of nodes 3 and 4 do not fail.
pub(crate) const NO_TROUBLES: Troubles = Troubles {
    third: None,
    fourth: None,
};

/// What four new speakers are to do.
#[derive(Clone, Copy)]
pub(crate) struct Plan {
    /// How often each speaks by itself.
    pub(crate) shares: [u32; 4],
    /// Whether each remark comes twice.
    pub(crate) twice: bool,
    /// What the first steps of nodes 3 and 4 fail by.
    pub(crate) troubles: Troubles,
}

/// A hall of four new speakers.
pub(crate) fn ring<const FIRST: u32, const STEP: u32, J: Names>(
    alloc: Global,
    journal: Journal<Speaker<FIRST, STEP>>,
    mut seats: Seats<Speaker<FIRST, STEP>>,
    plan: Plan,
) -> Result<Hall<Speaker<FIRST, STEP>, J>, Fail>
    requires own { journal.id ≡ J.journal }
    requires nodes { journal.nodes ≡ 4 }
    requires seats { AreNew journal.id 4 seats.items }
    ensures { IfOk result (λ hall. hall.nodes ≡ 4) }
{
    let room = HallRoom::new(alloc)?;
    let (fourth, third) = upper_cells(alloc, &mut seats, plan)?;
    let (second, first) = lower_cells(alloc, &mut seats, plan)?;
    Ok(Hall::new(room, journal, first, second, third, fourth))
}

/// The cells of nodes 4 and 3.
fn upper_cells<const FIRST: u32, const STEP: u32, J: Names>(
    alloc: Global,
    seats: &mut Seats<Speaker<FIRST, STEP>>,
    plan: Plan,
) -> Result<
    (
        Cell<Speaker<FIRST, STEP>, J, 4>,
        Cell<Speaker<FIRST, STEP>, J, 3>,
    ),
    Fail,
>
    requires seats { AreNew J.journal 4 seats.old.items }
    ensures rest { OnOk result (AreNew J.journal 2 seats.new.items) }
{
    let fourth = Speaker::new(4, plan.shares[3], plan.twice, plan.troubles.fourth);
    let fourth = last_cell(alloc, seats, fourth)?;
    let third = Speaker::new(3, plan.shares[2], plan.twice, plan.troubles.third);
    let third = last_cell(alloc, seats, third)?;
    Ok((fourth, third))
}

/// The cells of nodes 2 and 1.
fn lower_cells<const FIRST: u32, const STEP: u32, J: Names>(
    alloc: Global,
    seats: &mut Seats<Speaker<FIRST, STEP>>,
    plan: Plan,
) -> Result<
    (
        Cell<Speaker<FIRST, STEP>, J, 2>,
        Cell<Speaker<FIRST, STEP>, J, 1>,
    ),
    Fail,
>
    requires { AreNew J.journal 2 seats.old.items }
{
    let second = Speaker::new(2, plan.shares[1], plan.twice, None);
    let second = last_cell(alloc, seats, second)?;
    let first = Speaker::new(1, plan.shares[0], plan.twice, None);
    let first = last_cell(alloc, seats, first)?;
    Ok((second, first))
}

/// The cell of a new core, with the last of these seats.
fn last_cell<C: Core, J: Names, const NODE: u8>(
    alloc: Global,
    seats: &mut Seats<C>,
    core: C,
) -> Result<Cell<C, J, NODE>, Fail>
    requires seats { AreNew J.journal NODE seats.old.items }
    requires core { C.is_replay core NODE [] }
    ensures rest { OnOk result (AreNew J.journal (NODE - 1) seats.new.items) }
{
    let Some(seat) = last_seat::<C, J, NODE>(seats) else {
        return Err(Fail::new("no seat is left"));
    };
    let core = Box::new(alloc, core)?;
    Ok(Cell::new(alloc, core, seat))
}

// The last of these seats, which are those of the first nodes of a new journal.
fn last_seat<C: Core, J: Names, const NODE: u8>(seats: &mut Seats<C>) -> Option<NodeSeat<C>>
    requires { AreNew J.journal NODE seats.old.items }
    ensures own { IfSome result (λ seat. (seat.journal ≡ J.journal) × (seat.node ≡ NODE)) }
    ensures new { IfSome result (λ seat. seat.history ≡ []) }
    ensures rest { OnSome result (AreNew J.journal (NODE - 1) seats.new.items) }
{
    let seat = seats.pop()?;
    Some(seat)
}

/// The events of all nodes.
pub(crate) fn gather<C: Core>(ended: Ended<C>) -> Gathered<C> {
    let (journal, _, seats) = ended.into_parts();
    journal.gather(seats)
}
