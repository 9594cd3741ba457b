//! The diagram as a document.
ghost use Rattle.std.specs.Prelude.{◌≡◌, ◌+◌, ◌*◌, ◌++◌, IfOk, OnOk, codes, decimal, length, string_bytes};
ghost use Rattle.cam_xml.specs.WellFormed.{IsDocument, attribute_text, element_text, escaped};
ghost use Rattle.cam_diagram.specs.Diagram.{column, columns, diagram, document, extent, labels, lines, looks, namespace, picture, root_tag, size, sizes, view_box};

use crate::labels::{write_arrow_labels, write_stub_labels};
use crate::looks::{write_looks, write_post_rows, write_size};
use crate::places::{write_point, write_text_tag};
use crate::shapes::{arrows_of, dots_of};
use crate::svg_arrow::write_arrows;
use crate::svg_dot::write_dots;
use crate::svg_lane::{write_halt_labels, write_halt_lanes, write_lanes};
use crate::svg_stub::write_stubs;
use crate::{Arrows, Dots, Scene};
use cam_base::NoMemory;
use cam_event::Trace;
use cam_xml::Xml;
use std::alloc::Global;

/// How large a diagram is, in pixels, and where the words of its events begin.
#[derive(Clone, Copy)]
pub(crate) struct Size {
    pub(crate) width: u128,
    pub(crate) height: u128,
    pub(crate) words: u128,
}

/// The size of the diagram of so many events.
fn size_of(scene: &Scene, events: u64) -> Size
    ensures { result ≡ size scene.now events }
{
    let words = 112 + 120 * scene.heads.len() as u128;
    Size {
        width: words + 20 + 7 * scene.widest as u128,
        height: 76 + 28 * events as u128,
        words,
    }
}

/// Writes the part of the plane that is shown.
#[tactic(auto, unfolding(cam_xml::specs::WellFormed::attribute_text))]
fn write_view_box(xml: &mut Xml, width: u128, height: u128) -> Result<(), NoMemory>
    ensures { OnOk result (xml.new ≡ xml.old ++ view_box width height) }
{
    xml.attribute("viewBox")?;
    write_point(xml, "0 0 ", width, height)?;
    xml.end_attribute()
}

/// Writes how much of the plane is shown, and how large.
#[tactic(auto, unfolding(crate::specs::Diagram::extent))]
fn write_extent(xml: &mut Xml, size: &Size) -> Result<(), NoMemory>
    ensures { OnOk result (xml.new ≡ xml.old ++ extent size.now) }
{
    write_size(xml, size.width, size.height)?;
    write_view_box(xml, size.width, size.height)
}

/// The name by which a reader knows SVG.
#[tactic(auto, unfolding(crate::specs::Diagram::namespace))]
fn namespace() -> &'static str
    ensures { result.now ≡ namespace }
{
    "http://www.w3.org/2000/svg"
}

/// Writes the begin of the document.
#[tactic(auto, unfolding(crate::specs::Diagram::root_tag))]
fn write_root_tag(xml: &mut Xml, size: &Size) -> Result<(), NoMemory>
    ensures { OnOk result (xml.new ≡ xml.old ++ codes "<svg" ++ root_tag size.now ++ codes ">") }
{
    xml.tag("svg")?;
    xml.set("xmlns", namespace())?;
    write_extent(xml, size)?;
    xml.content()
}

/// Writes what a column has, over it.
#[tactic(auto, unfolding(crate::specs::Diagram::column))]
fn write_column(xml: &mut Xml, class: &str, x: u128, words: &str) -> Result<(), NoMemory>
    ensures { OnOk result (xml.new ≡ xml.old ++ column class.now x words.now) }
{
    write_text_tag(xml, class, x, 40)?;
    xml.text(words)?;
    xml.end_element("text")
}

/// Writes over the numbers of lines and over the words of events what they are.
#[tactic(auto, unfolding(crate::specs::Diagram::columns))]
fn write_columns(xml: &mut Xml, words: u128) -> Result<(), NoMemory>
    ensures { OnOk result (xml.new ≡ xml.old ++ columns words) }
{
    write_column(xml, "line", 40, "line")?;
    write_column(xml, "column", words, "what happened")?;
    xml.end_line()
}

/// Writes lines and dots: lanes, arrows, letters that no event received, events.
#[tactic(auto, unfolding(crate::specs::Diagram::lines))]
fn write_lines(
    xml: &mut Xml,
    scene: &Scene,
    size: &Size,
    arrows: &Arrows,
    dots: &Dots,
) -> Result<(), NoMemory>
    ensures { OnOk result (xml.new ≡ xml.old ++ lines scene.now size.now arrows.now dots.now) }
{
    write_lanes(xml, size.height, &scene.heads)?;
    write_halt_lanes(xml, &scene.halts)?;
    write_arrows(xml, &scene.captions, arrows)?;
    write_stubs(xml, &scene.captions, &scene.stubs)?;
    write_dots(xml, &scene.captions, size.words, dots)
}

/// Writes the words of arrows, of letters that no event received, and of halts.
#[tactic(auto, unfolding(crate::specs::Diagram::labels))]
fn write_labels(xml: &mut Xml, scene: &Scene, size: &Size, arrows: &Arrows) -> Result<(), NoMemory>
    ensures { OnOk result (xml.new ≡ xml.old ++ labels scene.now size.now arrows.now) }
{
    write_arrow_labels(xml, &scene.captions, arrows)?;
    write_stub_labels(xml, &scene.captions, &scene.stubs)?;
    write_halt_labels(xml, &scene.halts)?;
    write_post_rows(xml, scene, size)
}

/// Writes all that is drawn, in the order in which it covers: words are above all lines.
#[tactic(auto, unfolding(crate::specs::Diagram::picture))]
fn write_picture(
    xml: &mut Xml,
    scene: &Scene,
    size: &Size,
    arrows: &Arrows,
    dots: &Dots,
) -> Result<(), NoMemory>
    ensures { OnOk result (xml.new ≡ xml.old ++ picture scene.now size.now arrows.now dots.now) }
{
    write_columns(xml, size.words)?;
    write_lines(xml, scene, size, arrows, dots)?;
    write_labels(xml, scene, size, arrows)
}

/// Writes the document.
#[tactic(auto, unfolding(crate::specs::Diagram::document))]
fn write_document(
    xml: &mut Xml,
    scene: &Scene,
    size: &Size,
    arrows: &Arrows,
    dots: &Dots,
) -> Result<(), NoMemory>
    ensures { OnOk result (xml.new ≡ xml.old ++ document scene.now size.now arrows.now dots.now) }
{
    write_root_tag(xml, size)?;
    write_looks(xml, scene.style.as_str(), size)?;
    write_picture(xml, scene, size, arrows, dots)?;
    xml.end_element("svg")?;
    xml.end_line()
}

/// The text of the diagram of a trace, in a scene.
#[tactic(auto, unfolding(crate::specs::Diagram::diagram))]
fn diagram_text(alloc: Global, scene: &Scene, trace: &Trace) -> Result<String, NoMemory>
    ensures { IfOk result (λ text. string_bytes text ≡ diagram scene.now trace.now) }
{
    let dots = dots_of(alloc, trace)?;
    let arrows = arrows_of(alloc, trace)?;
    let size = size_of(scene, trace.len() as u64);
    let mut xml = Xml::new(alloc);
    write_document(&mut xml, scene, &size, &arrows, &dots)?;
    Ok(xml.into_string())
}

/// The diagram of a trace, in a scene. It has a dot for each event, in order, in the lane of its node; an arrow to each event that received
/// a letter, from the event that sent it, and no other arrow; and it is well-formed, whatever the scene says.
pub fn draw(alloc: Global, scene: &Scene, trace: &Trace) -> Result<String, NoMemory>
    ensures drawn { IfOk result (λ text. string_bytes text ≡ diagram scene.now trace.now) }
    ensures well_formed { IfOk result (λ text. IsDocument (string_bytes text)) }
{
    let text = diagram_text(alloc, scene, trace)?;
    Ok(text)
}
