//! Where the shapes of a diagram are, in pixels, and how they are lit.
ghost use Rattle.std.specs.Prelude.{◌≡◌, ◌++◌, OnOk, codes, decimal};
ghost use Rattle.cam_xml.specs.WellFormed.{attribute_text, escaped};
ghost use Rattle.cam_diagram.specs.Places.{class_of, dim, is_letter_lit, is_lit, letter_number, numbered, point, text_tag, translation, x_of, y_of};

use crate::Captions;
use cam_base::NoMemory;
use cam_event::LetterId;
use cam_xml::Xml;

/// A side of a lane.
#[derive(Clone, Copy)]
pub(crate) enum Side {
    Right,
    Left,
}

/// Where the lane of a node is.
pub(crate) fn x_of(node: u8) -> u128
    ensures { result ≡ x_of node }
{
    40 + 120 * node as u128
}

/// Where the row of an event is.
pub(crate) fn y_of(event: u64) -> u128
    ensures { result ≡ y_of event }
{
    76 + 28 * event as u128
}

/// The number of a letter, from 1, in order of sending; 0 where its event has no caption.
pub(crate) fn letter_number(captions: &Captions, letter: LetterId) -> u128
    ensures { result ≡ letter_number captions.now letter }
{
    match captions.get(letter.event as usize) {
        Some(caption) => caption.sent_before as u128 + letter.place as u128 + 1,
        None => 0,
    }
}

/// Whether an event is lit. An event without a caption is.
pub(crate) fn is_lit(captions: &Captions, event: u64) -> bool
    ensures { result ≡ is_lit captions.now event }
{
    match captions.get(event as usize) {
        Some(caption) => caption.lit,
        None => true,
    }
}

/// Whether the letter is lit that an event received. That of an event without a caption is.
pub(crate) fn is_letter_lit(captions: &Captions, event: u64) -> bool
    ensures { result ≡ is_letter_lit captions.now event }
{
    match captions.get(event as usize) {
        Some(caption) => caption.lit_letter,
        None => true,
    }
}

/// The class of what is not lit, behind another.
#[tactic(auto, unfolding(crate::specs::Places::dim))]
fn dim(lit: bool) -> &'static str
    ensures { result.now ≡ dim lit }
{
    if lit { "" } else { " dim" }
}

/// Writes the class of a shape.
#[tactic(auto, unfolding(cam_xml::specs::WellFormed::attribute_text))]
pub(crate) fn write_class(xml: &mut Xml, class: &str, more: &str, lit: bool) -> Result<(), NoMemory>
    ensures { OnOk result (xml.new ≡ xml.old ++ class_of class.now more.now lit) }
{
    xml.attribute("class")?;
    xml.text(class)?;
    xml.text(more)?;
    xml.text(dim(lit))?;
    xml.end_attribute()
}

/// Writes a point of a path, behind the mark of its step.
#[tactic(auto, unfolding(crate::specs::Places::point))]
pub(crate) fn write_point(xml: &mut Xml, mark: &str, x: u128, y: u128) -> Result<(), NoMemory>
    ensures { OnOk result (xml.new ≡ xml.old ++ point mark.now x y) }
{
    xml.text(mark)?;
    xml.number(x)?;
    xml.text(" ")?;
    xml.number(y)
}

/// Writes an attribute whose value is a mark and a number.
#[tactic(auto, unfolding(cam_xml::specs::WellFormed::attribute_text))]
pub(crate) fn write_numbered(
    xml: &mut Xml,
    name: &str,
    mark: &str,
    number: u64,
) -> Result<(), NoMemory>
    ensures { OnOk result (xml.new ≡ xml.old ++ numbered name.now mark.now number) }
{
    xml.attribute(name)?;
    xml.text(mark)?;
    xml.number(number as u128)?;
    xml.end_attribute()
}

/// Writes where a shape is, as the attribute by which SVG moves it there.
#[tactic(auto, unfolding(cam_xml::specs::WellFormed::attribute_text))]
pub(crate) fn write_translation(xml: &mut Xml, x: u128, y: u128) -> Result<(), NoMemory>
    ensures { OnOk result (xml.new ≡ xml.old ++ translation x y) }
{
    xml.attribute("transform")?;
    write_point(xml, "translate(", x, y)?;
    xml.text(")")?;
    xml.end_attribute()
}

/// Writes where a text is.
pub(crate) fn write_place(xml: &mut Xml, x: u128, y: u128) -> Result<(), NoMemory>
    ensures { OnOk result (xml.new ≡ xml.old ++ attribute_text (codes "x") (decimal x)
        ++ attribute_text (codes "y") (decimal y)) }
{
    xml.set_number("x", x)?;
    xml.set_number("y", y)
}

/// Writes the begin of a text of this class, to which more attributes may be added.
#[tactic(auto, unfolding(crate::specs::Places::text_tag))]
pub(crate) fn write_text_start(xml: &mut Xml, class: &str, x: u128, y: u128) -> Result<(), NoMemory>
    ensures { OnOk result (xml.new ≡ xml.old ++ codes "<text" ++ text_tag class.now x y) }
{
    xml.tag("text")?;
    xml.set("class", class)?;
    write_place(xml, x, y)
}

/// Writes the begin of a text of this class.
pub(crate) fn write_text_tag(xml: &mut Xml, class: &str, x: u128, y: u128) -> Result<(), NoMemory>
    ensures { OnOk result (xml.new ≡ xml.old ++ codes "<text" ++ text_tag class.now x y
        ++ codes ">") }
{
    write_text_start(xml, class, x, y)?;
    xml.content()
}
