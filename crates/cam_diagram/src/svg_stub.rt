//! Letters that no event received, as SVG.
ghost use Rattle.std.specs.Prelude.{◌≡◌, ◌+◌, ◌++◌, OnOk, codes};
ghost use Rattle.std.specs.List.{flat_map};
ghost use Rattle.cam_diagram.specs.Stubs.{end_x, end_y, side_of, stub_end, stub_shaft, stub_tag, stub_text, stub_way};

use crate::kinds::fate_shape;
use crate::places::{Side, write_point, write_translation, x_of, y_of};
use crate::svg_arrow::write_mark;
use crate::{Captions, Stub, Stubs};
use cam_base::NoMemory;
use cam_xml::Xml;

/// The side to which a letter goes. One to its own node goes left.
pub(crate) fn side_of(stub: &Stub) -> Side
    ensures { result ≡ side_of stub.now }
{
    if stub.from.node < stub.to {
        Side::Right
    } else {
        Side::Left
    }
}

/// Where a stub ends.
fn end_x(stub: &Stub) -> u128
    ensures { result ≡ end_x (side_of stub.now) stub.now }
{
    match side_of(stub) {
        Side::Right => 66 + 120 * stub.from.node as u128,
        Side::Left => 14 + 120 * stub.from.node as u128,
    }
}

/// In which height a stub ends: those of one event end below one another.
fn end_y(stub: &Stub) -> u128
    ensures { result ≡ end_y stub.now }
{
    88 + 28 * stub.from.event as u128 + 10 * stub.above as u128
}

/// Writes the begin of a stub: its look, and the numbers of its letter and its event.
#[tactic(auto, unfolding(crate::specs::Stubs::stub_tag))]
fn write_tag(xml: &mut Xml, captions: &Captions, stub: &Stub) -> Result<(), NoMemory>
    ensures { OnOk result (xml.new ≡ xml.old ++ codes "<g"
        ++ stub_tag captions.now stub.now ++ codes ">") }
{
    xml.tag("g")?;
    write_mark(
        xml,
        captions,
        "letter unheard ",
        stub.kind,
        stub.letter,
        stub.lit,
    )?;
    xml.set_number("data-from", stub.from.event as u128)?;
    xml.content()
}

/// Writes the way of a stub, as the attribute of its path.
#[tactic(auto, unfolding(cam_xml::specs::WellFormed::attribute_text))]
fn write_way(xml: &mut Xml, stub: &Stub) -> Result<(), NoMemory>
    ensures { OnOk result (xml.new ≡ xml.old ++ stub_way stub.now) }
{
    xml.attribute("d")?;
    write_point(xml, "M", x_of(stub.from.node), y_of(stub.from.event))?;
    write_point(xml, "L", end_x(stub), end_y(stub))?;
    xml.end_attribute()
}

/// Writes the shaft of a stub.
#[tactic(auto, unfolding(crate::specs::Stubs::stub_shaft))]
fn write_shaft(xml: &mut Xml, stub: &Stub) -> Result<(), NoMemory>
    ensures { OnOk result (xml.new ≡ xml.old ++ stub_shaft stub.now) }
{
    xml.tag("path")?;
    xml.set("class", "shaft")?;
    write_way(xml, stub)?;
    xml.end_tag()
}

/// Writes the mark at the end of a stub.
#[tactic(auto, unfolding(crate::specs::Stubs::stub_end))]
fn write_end(xml: &mut Xml, stub: &Stub) -> Result<(), NoMemory>
    ensures { OnOk result (xml.new ≡ xml.old ++ stub_end stub.now) }
{
    xml.tag("path")?;
    xml.set("class", "fate")?;
    write_translation(xml, end_x(stub), end_y(stub))?;
    xml.set("d", fate_shape(stub.fate))?;
    xml.end_tag()
}

/// Writes a stub.
#[tactic(auto, unfolding(crate::specs::Stubs::stub_text))]
fn write_stub(xml: &mut Xml, captions: &Captions, stub: &Stub) -> Result<(), NoMemory>
    ensures { OnOk result (xml.new ≡ xml.old ++ stub_text captions.now stub.now) }
{
    write_tag(xml, captions, stub)?;
    write_shaft(xml, stub)?;
    write_end(xml, stub)?;
    xml.end_element("g")?;
    xml.end_line()
}

/// Writes stubs, in their order.
pub(crate) fn write_stubs(xml: &mut Xml, captions: &Captions, stubs: &Stubs) -> Result<(), NoMemory>
    ensures { OnOk result (xml.new ≡ xml.old ++ flat_map (stub_text captions.now) stubs.now) }
{
    for stub in stubs.as_slice() {
        write_stub(xml, captions, stub)?;
    }
    Ok(())
}
