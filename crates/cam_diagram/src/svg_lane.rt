//! Lanes and halts as SVG.
ghost use Rattle.std.specs.Prelude.{◌≡◌, ◌+◌, ◌*◌, ◌++◌, OnOk, codes, string_bytes};
ghost use Rattle.std.specs.List.{flat_map};
ghost use Rattle.cam_xml.specs.WellFormed.{escaped};
ghost use Rattle.cam_diagram.specs.Lanes.{drop_of, halt_label, halt_lane, halt_mark, halt_words, head, kept, lane_text, lanes_text, post, posts_from, vertical};

use crate::places::{write_point, write_text_tag, write_translation, x_of};
use crate::{Halt, Halts};
use cam_base::{NoMemory, Sequence};
use cam_xml::Xml;

/// Writes the way of a path that goes down, as its attribute.
#[tactic(auto, unfolding(cam_xml::specs::WellFormed::attribute_text))]
fn write_drop(xml: &mut Xml, x: u128, from: u128, to: u128) -> Result<(), NoMemory>
    ensures { OnOk result (xml.new ≡ xml.old ++ drop_of x from to) }
{
    xml.attribute("d")?;
    write_point(xml, "M", x, from)?;
    xml.text("V")?;
    xml.number(to)?;
    xml.end_attribute()
}

/// Writes a path of this class that goes down.
#[tactic(auto, unfolding(crate::specs::Lanes::vertical))]
fn write_vertical(xml: &mut Xml, class: &str, x: u128, from: u128, to: u128) -> Result<(), NoMemory>
    ensures { OnOk result (xml.new ≡ xml.old ++ vertical class.now x from to) }
{
    xml.tag("path")?;
    xml.set("class", class)?;
    write_drop(xml, x, from, to)?;
    xml.end_tag()
}

/// Writes the name of a node over its lane.
#[tactic(auto, unfolding(crate::specs::Lanes::head))]
fn write_head(xml: &mut Xml, x: u128, node: u128) -> Result<(), NoMemory>
    ensures { OnOk result (xml.new ≡ xml.old ++ head x node) }
{
    write_text_tag(xml, "head", x, 24)?;
    xml.text("node ")?;
    xml.number(node)?;
    xml.end_element("text")
}

/// Writes which objects a node keeps.
#[tactic(auto, unfolding(crate::specs::Lanes::kept))]
fn write_kept(xml: &mut Xml, x: u128, objects: &str) -> Result<(), NoMemory>
    ensures { OnOk result (xml.new ≡ xml.old ++ kept x objects.now) }
{
    write_text_tag(xml, "kept", x, 40)?;
    xml.text(objects)?;
    xml.end_element("text")
}

/// Writes the lane of a node, of which so many are at its left.
#[tactic(auto, unfolding(crate::specs::Lanes::lane_text))]
fn write_lane(xml: &mut Xml, bottom: u128, left: u64, objects: &str) -> Result<(), NoMemory>
    ensures { OnOk result (xml.new ≡ xml.old ++ lane_text bottom left objects.now) }
{
    let x = 160 + 120 * left as u128;
    write_head(xml, x, left as u128 + 1)?;
    write_kept(xml, x, objects)?;
    write_vertical(xml, "lane", x, 48, bottom)?;
    xml.end_line()
}

/// Writes the lanes, from the first node's.
pub(crate) fn write_lanes(
    xml: &mut Xml,
    bottom: u128,
    heads: &Sequence<String>,
) -> Result<(), NoMemory>
    ensures { OnOk result (xml.new ≡ xml.old ++ lanes_text bottom 0 heads.now) }
{
    for (left, objects) in heads.as_slice().iter().enumerate() {
        write_lane(xml, bottom, left as u64, objects.as_str())?;
    }
    Ok(())
}

/// Writes the mark of a halt, beside its lane: a box with two bars.
#[tactic(auto, unfolding(crate::specs::Lanes::halt_mark))]
fn write_halt_mark(xml: &mut Xml, x: u128, y: u128) -> Result<(), NoMemory>
    ensures { OnOk result (xml.new ≡ xml.old ++ halt_mark x y) }
{
    xml.tag("path")?;
    xml.set("class", "pause")?;
    write_translation(xml, x, y)?;
    xml.set("d", "M-7 -7h14v14h-14zM-2 -4v8M2 -4v8")?;
    xml.end_tag()
}

/// Writes the words of a halt, beside its mark.
#[tactic(auto, unfolding(crate::specs::Lanes::halt_words))]
fn write_halt_words(xml: &mut Xml, x: u128, y: u128, words: &str) -> Result<(), NoMemory>
    ensures { OnOk result (xml.new ≡ xml.old ++ halt_words x y words.now) }
{
    write_text_tag(xml, "beside", x, y)?;
    xml.text(words)?;
    xml.end_element("text")
}

/// Writes the lane of a halt: it is dotted.
#[tactic(auto, unfolding(crate::specs::Lanes::halt_lane))]
fn write_halt_lane(xml: &mut Xml, halt: &Halt) -> Result<(), NoMemory>
    ensures { OnOk result (xml.new ≡ xml.old ++ halt_lane halt.now) }
{
    let x = x_of(halt.node);
    let from = 62 + 28 * halt.above as u128;
    let to = 62 + 28 * halt.until as u128;
    write_vertical(xml, "gap", x, from, to)?;
    write_vertical(xml, "halted", x, from, to)?;
    xml.end_line()
}

/// Writes the lanes of halts, in their order.
pub(crate) fn write_halt_lanes(xml: &mut Xml, halts: &Halts) -> Result<(), NoMemory>
    ensures { OnOk result (xml.new ≡ xml.old ++ flat_map halt_lane halts.now) }
{
    for halt in halts.as_slice() {
        write_halt_lane(xml, halt)?;
    }
    Ok(())
}

/// Writes the mark and the words of a halt.
#[tactic(auto, unfolding(crate::specs::Lanes::halt_label))]
fn write_halt_label(xml: &mut Xml, halt: &Halt) -> Result<(), NoMemory>
    ensures { OnOk result (xml.new ≡ xml.old ++ halt_label halt.now) }
{
    let x = x_of(halt.node);
    let y = 62 + 28 * halt.above as u128;
    write_halt_mark(xml, x + 18, y)?;
    write_halt_words(xml, x + 30, y + 4, halt.words.as_str())?;
    xml.end_line()
}

/// Writes the marks and the words of halts, in their order.
pub(crate) fn write_halt_labels(xml: &mut Xml, halts: &Halts) -> Result<(), NoMemory>
    ensures { OnOk result (xml.new ≡ xml.old ++ flat_map halt_label halts.now) }
{
    for halt in halts.as_slice() {
        write_halt_label(xml, halt)?;
    }
    Ok(())
}

/// Writes the name of a node again, on its lane.
#[tactic(auto, unfolding(crate::specs::Lanes::post))]
fn write_post(xml: &mut Xml, left: u64) -> Result<(), NoMemory>
    ensures { OnOk result (xml.new ≡ xml.old ++ post left) }
{
    write_text_tag(xml, "word post", 160 + 120 * left as u128, 424)?;
    xml.text("node ")?;
    xml.number(left as u128 + 1)?;
    xml.end_element("text")
}

/// Writes the names of all nodes again, from the first one's.
pub(crate) fn write_posts(xml: &mut Xml, heads: &Sequence<String>) -> Result<(), NoMemory>
    ensures { OnOk result (xml.new ≡ xml.old ++ posts_from 0 heads.now) }
{
    for (left, _objects) in heads.as_slice().iter().enumerate() {
        write_post(xml, left as u64)?;
    }
    Ok(())
}
