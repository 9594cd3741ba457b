//! The words of letters. They stand beside dots, above all lines: those of a received letter in the
//! row of the event that received it, at the side from which it came.
ghost use Rattle.std.specs.Prelude.{◌≡◌, ◌+◌, ◌*◌, ◌++◌, OnOk, codes};
ghost use Rattle.std.specs.List.{flat_map};
ghost use Rattle.cam_xml.specs.WellFormed.{element_text, escaped};
ghost use Rattle.cam_diagram.specs.Places.{letter_number};
ghost use Rattle.cam_diagram.specs.Labels.{arrow_label, arrow_side, arrow_words, arrow_words_x, fate_label, label, side_class, stub_label, stub_words, words_x};
ghost use Rattle.cam_diagram.specs.Stubs.{end_y, side_of};

use crate::kinds::{fate_word, kind_word};
use crate::places::{Side, is_letter_lit, letter_number, write_text_tag};
use crate::svg_arrow::write_mark;
use crate::svg_stub::side_of;
use crate::{Arrow, Arrows, Captions, Fate, Kind, Stub, Stubs};
use cam_base::NoMemory;
use cam_event::LetterId;
use cam_xml::Xml;

/// The class of words at a side.
#[tactic(auto, unfolding(crate::specs::Labels::side_class))]
fn side_class(side: Side) -> &'static str
    ensures { result.now ≡ side_class side }
{
    match side {
        Side::Right => "word behind",
        Side::Left => "word before",
    }
}

/// Writes the word of a letter, and its number.
#[tactic(auto, unfolding(crate::specs::Labels::label))]
fn write_label(
    xml: &mut Xml,
    captions: &Captions,
    kind: Kind,
    letter: LetterId,
) -> Result<(), NoMemory>
    ensures { OnOk result (xml.new ≡ xml.old ++ label captions.now kind letter) }
{
    xml.text(kind_word(kind))?;
    xml.text(" ")?;
    xml.number(letter_number(captions, letter))
}

/// The side from which an arrow comes. One from its own lane comes from the left.
fn arrow_side(arrow: &Arrow) -> Side
    ensures { result ≡ arrow_side arrow.now }
{
    if arrow.to.node < arrow.from.node {
        Side::Right
    } else {
        Side::Left
    }
}

/// Where the words of an arrow begin or end: beside its tip, or beside its bow where it has one.
fn arrow_words_x(arrow: &Arrow) -> u128
    ensures { result ≡ arrow_words_x arrow.now }
{
    if arrow.from.node == arrow.to.node {
        6 + 120 * arrow.to.node as u128
    } else {
        match arrow_side(arrow) {
            Side::Right => 70 + 120 * arrow.to.node as u128,
            Side::Left => 10 + 120 * arrow.to.node as u128,
        }
    }
}

/// Writes the words of an arrow.
#[tactic(auto, unfolding(crate::specs::Labels::arrow_words))]
fn write_arrow_words(xml: &mut Xml, captions: &Captions, arrow: &Arrow) -> Result<(), NoMemory>
    ensures { OnOk result (xml.new ≡ xml.old ++ arrow_words captions.now arrow.now) }
{
    let y = 81 + 28 * arrow.to.event as u128;
    write_text_tag(xml, side_class(arrow_side(arrow)), arrow_words_x(arrow), y)?;
    write_label(xml, captions, arrow.kind, arrow.letter)?;
    xml.end_element("text")
}

/// Writes the label of an arrow.
#[tactic(auto, unfolding(crate::specs::Labels::arrow_label))]
fn write_arrow_label(xml: &mut Xml, captions: &Captions, arrow: &Arrow) -> Result<(), NoMemory>
    ensures { OnOk result (xml.new ≡ xml.old ++ arrow_label captions.now arrow.now) }
{
    let lit = is_letter_lit(captions, arrow.to.event);
    xml.tag("g")?;
    write_mark(xml, captions, "label ", arrow.kind, arrow.letter, lit)?;
    xml.content()?;
    write_arrow_words(xml, captions, arrow)?;
    xml.end_element("g")?;
    xml.end_line()
}

/// Writes the labels of arrows, in their order.
pub(crate) fn write_arrow_labels(
    xml: &mut Xml,
    captions: &Captions,
    arrows: &Arrows,
) -> Result<(), NoMemory>
    ensures { OnOk result (xml.new ≡ xml.old ++ flat_map (arrow_label captions.now) arrows.now) }
{
    for arrow in arrows.as_slice() {
        write_arrow_label(xml, captions, arrow)?;
    }
    Ok(())
}

/// Where the words of a stub begin or end.
fn stub_words_x(stub: &Stub) -> u128
    ensures { result ≡ words_x (side_of stub.now) stub.now }
{
    match side_of(stub) {
        Side::Right => 74 + 120 * stub.from.node as u128,
        Side::Left => 6 + 120 * stub.from.node as u128,
    }
}

/// In which height the words of a stub are.
fn stub_words_y(stub: &Stub) -> u128
    ensures { result ≡ end_y stub.now + 4 }
{
    92 + 28 * stub.from.event as u128 + 10 * stub.above as u128
}

/// Writes the word of a letter, its number, and what became of it.
#[tactic(auto, unfolding(crate::specs::Labels::fate_label))]
fn write_fate_label(
    xml: &mut Xml,
    captions: &Captions,
    kind: Kind,
    letter: LetterId,
    fate: Fate,
) -> Result<(), NoMemory>
    ensures { OnOk result (xml.new ≡ xml.old ++ fate_label captions.now kind letter fate) }
{
    write_label(xml, captions, kind, letter)?;
    xml.text(fate_word(fate))
}

/// Writes the words of a stub: its letter, and what became of it.
#[tactic(auto, unfolding(crate::specs::Labels::stub_words))]
fn write_stub_words(xml: &mut Xml, captions: &Captions, stub: &Stub) -> Result<(), NoMemory>
    ensures { OnOk result (xml.new ≡ xml.old ++ stub_words captions.now stub.now) }
{
    write_text_tag(
        xml,
        side_class(side_of(stub)),
        stub_words_x(stub),
        stub_words_y(stub),
    )?;
    write_fate_label(xml, captions, stub.kind, stub.letter, stub.fate)?;
    xml.end_element("text")
}

/// Writes the label of a stub.
#[tactic(auto, unfolding(crate::specs::Labels::stub_label))]
fn write_stub_label(xml: &mut Xml, captions: &Captions, stub: &Stub) -> Result<(), NoMemory>
    ensures { OnOk result (xml.new ≡ xml.old ++ stub_label captions.now stub.now) }
{
    xml.tag("g")?;
    write_mark(
        xml,
        captions,
        "label unheard ",
        stub.kind,
        stub.letter,
        stub.lit,
    )?;
    xml.content()?;
    write_stub_words(xml, captions, stub)?;
    xml.end_element("g")?;
    xml.end_line()
}

/// Writes the labels of stubs, in their order.
pub(crate) fn write_stub_labels(
    xml: &mut Xml,
    captions: &Captions,
    stubs: &Stubs,
) -> Result<(), NoMemory>
    ensures { OnOk result (xml.new ≡ xml.old ++ flat_map (stub_label captions.now) stubs.now) }
{
    for stub in stubs.as_slice() {
        write_stub_label(xml, captions, stub)?;
    }
    Ok(())
}
