//! The paths of arrows.
ghost use Rattle.std.specs.Prelude.{◌≡◌, ◌++◌, OnOk};
ghost use Rattle.cam_diagram.specs.Marks.{across, are_apart, arrow_path, looped, sag};

use crate::places::{write_point, x_of, y_of};
use crate::{Arrow, Spot};
use cam_base::NoMemory;
use cam_xml::Xml;

/// Whether lanes are between those of two nodes.
fn are_apart(node: u8, other: u8) -> bool
    ensures { result ≡ are_apart node other }
{
    (node as u32 + 1) < other as u32 || (other as u32 + 1) < node as u32
}

/// How far a path to the next lane is below one that goes round the dots of lanes between.
fn sag(from: &Spot, to: &Spot) -> u128
    ensures { result ≡ sag from.now to.now }
{
    if are_apart(from.node, to.node) { 0 } else { 28 }
}

/// Writes a path from a lane to another.
#[tactic(auto, unfolding(crate::specs::Marks::across))]
fn write_across(xml: &mut Xml, from: &Spot, to: &Spot) -> Result<(), NoMemory>
    ensures { OnOk result (xml.new ≡ xml.old ++ across from.now to.now) }
{
    let x = 40 + 60 * (from.node as u128 + to.node as u128);
    let y = 48 + 14 * (from.event as u128 + to.event as u128) + sag(from, to);
    write_point(xml, "M", x_of(from.node), y_of(from.event))?;
    write_point(xml, "Q", x, y)?;
    write_point(xml, " ", x_of(to.node), y_of(to.event))
}

/// Writes a path that leaves a lane and comes back to it.
#[tactic(auto, unfolding(crate::specs::Marks::looped))]
fn write_loop(xml: &mut Xml, from: &Spot, to: &Spot) -> Result<(), NoMemory>
    ensures { OnOk result (xml.new ≡ xml.old ++ looped from.now to.now) }
{
    let beside = 120 * from.node as u128;
    write_point(xml, "M", x_of(from.node), y_of(from.event))?;
    write_point(xml, "C", beside, 82 + 28 * from.event as u128)?;
    write_point(xml, " ", beside, 70 + 28 * to.event as u128)?;
    write_point(xml, " ", x_of(to.node), y_of(to.event))
}

/// Writes the path of an arrow.
pub(crate) fn write_path(xml: &mut Xml, arrow: &Arrow) -> Result<(), NoMemory>
    ensures { OnOk result (xml.new ≡ xml.old ++ arrow_path arrow.now) }
{
    if arrow.from.node == arrow.to.node {
        write_loop(xml, &arrow.from, &arrow.to)
    } else {
        write_across(xml, &arrow.from, &arrow.to)
    }
}
