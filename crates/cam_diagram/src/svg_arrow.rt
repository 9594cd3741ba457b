//! Arrows as SVG.
ghost use Rattle.std.specs.Prelude.{◌≡◌, ◌++◌, OnOk, codes};
ghost use Rattle.std.specs.List.{flat_map};
ghost use Rattle.cam_xml.specs.WellFormed.{attribute_text};
ghost use Rattle.cam_diagram.specs.Picture.{kind_class};
ghost use Rattle.cam_diagram.specs.Places.{class_of, letter_number};
ghost use Rattle.cam_diagram.specs.Marks.{arrow_tag, arrow_text, ends, mark_tag, shaft, way};

use crate::kinds::kind_class;
use crate::paths::write_path;
use crate::places::{is_letter_lit, letter_number, write_class};
use crate::{Arrow, Arrows, Captions, Kind};
use cam_base::NoMemory;
use cam_event::LetterId;
use cam_xml::Xml;

/// Writes how a letter looks: by its kind, and whether it is lit.
fn write_look(xml: &mut Xml, class: &str, kind: Kind, lit: bool) -> Result<(), NoMemory>
    ensures { OnOk result (xml.new ≡ xml.old ++ class_of class.now (kind_class kind) lit) }
{
    write_class(xml, class, kind_class(kind), lit)
}

/// Writes how a letter looks, and its number.
#[tactic(auto, unfolding(crate::specs::Marks::mark_tag))]
pub(crate) fn write_mark(
    xml: &mut Xml,
    captions: &Captions,
    class: &str,
    kind: Kind,
    letter: LetterId,
    lit: bool,
) -> Result<(), NoMemory>
    ensures { OnOk result (xml.new ≡ xml.old
        ++ mark_tag captions.now class.now kind letter lit) }
{
    write_look(xml, class, kind, lit)?;
    xml.set_number("data-letter", letter_number(captions, letter))
}

/// Writes the numbers of the events of an arrow.
#[tactic(auto, unfolding(crate::specs::Marks::ends))]
fn write_ends(xml: &mut Xml, arrow: &Arrow) -> Result<(), NoMemory>
    ensures { OnOk result (xml.new ≡ xml.old ++ ends arrow.now) }
{
    xml.set_number("data-from", arrow.from.event as u128)?;
    xml.set_number("data-to", arrow.to.event as u128)
}

/// Writes the begin of an arrow: its look, and the numbers of its letter and its events.
#[tactic(auto, unfolding(crate::specs::Marks::arrow_tag))]
fn write_tag(xml: &mut Xml, captions: &Captions, arrow: &Arrow) -> Result<(), NoMemory>
    ensures { OnOk result (xml.new ≡ xml.old ++ codes "<g"
        ++ arrow_tag captions.now arrow.now ++ codes ">") }
{
    let lit = is_letter_lit(captions, arrow.to.event);
    xml.tag("g")?;
    write_mark(xml, captions, "letter ", arrow.kind, arrow.letter, lit)?;
    write_ends(xml, arrow)?;
    xml.content()
}

/// Writes the way of an arrow, as the attribute of its path.
#[tactic(auto, unfolding(cam_xml::specs::WellFormed::attribute_text))]
fn write_way(xml: &mut Xml, arrow: &Arrow) -> Result<(), NoMemory>
    ensures { OnOk result (xml.new ≡ xml.old ++ way arrow.now) }
{
    xml.attribute("d")?;
    write_path(xml, arrow)?;
    xml.end_attribute()
}

/// Writes the shaft of an arrow.
#[tactic(auto, unfolding(crate::specs::Marks::shaft))]
fn write_shaft(xml: &mut Xml, arrow: &Arrow) -> Result<(), NoMemory>
    ensures { OnOk result (xml.new ≡ xml.old ++ shaft arrow.now) }
{
    xml.tag("path")?;
    xml.set("class", "shaft")?;
    write_way(xml, arrow)?;
    xml.end_tag()
}

/// Writes an arrow.
#[tactic(auto, unfolding(crate::specs::Marks::arrow_text))]
fn write_arrow(xml: &mut Xml, captions: &Captions, arrow: &Arrow) -> Result<(), NoMemory>
    ensures { OnOk result (xml.new ≡ xml.old ++ arrow_text captions.now arrow.now) }
{
    write_tag(xml, captions, arrow)?;
    write_shaft(xml, arrow)?;
    xml.end_element("g")?;
    xml.end_line()
}

/// Writes arrows, in their order.
pub(crate) fn write_arrows(
    xml: &mut Xml,
    captions: &Captions,
    arrows: &Arrows,
) -> Result<(), NoMemory>
    ensures { OnOk result (xml.new ≡ xml.old ++ flat_map (arrow_text captions.now) arrows.now) }
{
    for arrow in arrows.as_slice() {
        write_arrow(xml, captions, arrow)?;
    }
    Ok(())
}
