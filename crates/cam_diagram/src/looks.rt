//! The style sheet of a diagram, the shapes that others use, and its paper.
ghost use Rattle.std.specs.Prelude.{◌≡◌, ◌++◌, OnOk, codes};
ghost use Rattle.cam_xml.specs.WellFormed.{element_text, escaped};
ghost use Rattle.cam_diagram.specs.Diagram.{looks, outline, posts, posts_tag, rect, rows, rows_tag, sheet, sizes, tip, tip_place, tip_tag};

use crate::Scene;
use crate::document::Size;
use crate::svg_lane::write_posts;
use cam_base::NoMemory;
use cam_xml::Xml;

/// Writes a size, as attributes.
pub(crate) fn write_size(xml: &mut Xml, width: u128, height: u128) -> Result<(), NoMemory>
    ensures { OnOk result (xml.new ≡ xml.old ++ sizes width height) }
{
    xml.set_number("width", width)?;
    xml.set_number("height", height)
}

/// Writes the style sheet.
#[tactic(auto, unfolding(crate::specs::Diagram::sheet))]
fn write_sheet(xml: &mut Xml, style: &str) -> Result<(), NoMemory>
    ensures { OnOk result (xml.new ≡ xml.old ++ sheet style.now) }
{
    xml.tag("style")?;
    xml.content()?;
    xml.text(style)?;
    xml.end_element("style")?;
    xml.end_line()
}

/// Writes an outline of this class.
#[tactic(auto, unfolding(crate::specs::Diagram::outline))]
fn write_outline(xml: &mut Xml, class: &str, path: &str) -> Result<(), NoMemory>
    ensures { OnOk result (xml.new ≡ xml.old ++ outline class.now path.now) }
{
    xml.tag("path")?;
    xml.set("class", class)?;
    xml.set("d", path)?;
    xml.end_tag()
}

/// Writes where the tip of an arrow is: a dot's radius before the end of its shaft.
#[tactic(auto, unfolding(crate::specs::Diagram::tip_place))]
fn write_tip_place(xml: &mut Xml) -> Result<(), NoMemory>
    ensures { OnOk result (xml.new ≡ xml.old ++ tip_place) }
{
    xml.set("refX", "11")?;
    xml.set("refY", "2")?;
    xml.set("orient", "auto-start-reverse")
}

/// Writes the begin of the tip of arrows.
#[tactic(auto, unfolding(crate::specs::Diagram::tip_tag))]
fn write_tip_tag(xml: &mut Xml) -> Result<(), NoMemory>
    ensures { OnOk result (xml.new ≡ xml.old ++ codes "<marker" ++ tip_tag ++ codes ">") }
{
    xml.tag("marker")?;
    xml.set("id", "tip")?;
    write_tip_place(xml)?;
    xml.content()
}

/// Writes the tip of arrows.
#[tactic(auto, unfolding(crate::specs::Diagram::tip))]
fn write_tip(xml: &mut Xml) -> Result<(), NoMemory>
    ensures { OnOk result (xml.new ≡ xml.old ++ tip) }
{
    write_tip_tag(xml)?;
    write_outline(xml, "tip", "M0 0L5 2L0 4z")?;
    xml.end_element("marker")?;
    xml.end_line()
}

/// Writes a rectangle of this class, from this height down.
#[tactic(auto, unfolding(crate::specs::Diagram::rect))]
fn write_rect(
    xml: &mut Xml,
    class: &str,
    y: u128,
    width: u128,
    height: u128,
) -> Result<(), NoMemory>
    ensures { OnOk result (xml.new ≡ xml.old ++ rect class.now y width height) }
{
    xml.tag("rect")?;
    xml.set("class", class)?;
    xml.set_number("y", y)?;
    write_size(xml, width, height)?;
    xml.end_tag()
}

/// Writes the begin of the pattern of rows.
#[tactic(auto, unfolding(crate::specs::Diagram::rows_tag))]
fn write_rows_tag(xml: &mut Xml, width: u128) -> Result<(), NoMemory>
    ensures { OnOk result (xml.new ≡ xml.old ++ codes "<pattern" ++ rows_tag width ++ codes ">") }
{
    xml.tag("pattern")?;
    xml.set("id", "rows")?;
    xml.set("patternUnits", "userSpaceOnUse")?;
    xml.set("y", "62")?;
    write_size(xml, width, 56)?;
    xml.content()
}

/// Writes the pattern by which every other row is shaded.
#[tactic(auto, unfolding(crate::specs::Diagram::rows))]
fn write_rows(xml: &mut Xml, width: u128) -> Result<(), NoMemory>
    ensures { OnOk result (xml.new ≡ xml.old ++ rows width) }
{
    write_rows_tag(xml, width)?;
    write_rect(xml, "band", 0, width, 28)?;
    xml.end_element("pattern")?;
    xml.end_line()
}

/// Writes the style sheet, the shapes that others use, and the paper.
#[tactic(auto, unfolding(crate::specs::Diagram::looks))]
pub(crate) fn write_looks(xml: &mut Xml, style: &str, size: &Size) -> Result<(), NoMemory>
    ensures { OnOk result (xml.new ≡ xml.old ++ looks style.now size.now) }
{
    write_sheet(xml, style)?;
    write_tip(xml)?;
    write_rows(xml, size.width)?;
    write_rect(xml, "paper", 0, size.width, size.height)?;
    write_rect(xml, "rows", 62, size.width, size.height)?;
    xml.end_line()
}

/// Writes the begin of the pattern of names.
#[tactic(auto, unfolding(crate::specs::Diagram::posts_tag))]
fn write_posts_tag(xml: &mut Xml, width: u128) -> Result<(), NoMemory>
    ensures { OnOk result (xml.new ≡ xml.old ++ codes "<pattern" ++ posts_tag width ++ codes ">") }
{
    xml.tag("pattern")?;
    xml.set("id", "posts")?;
    xml.set("patternUnits", "userSpaceOnUse")?;
    xml.set("y", "482")?;
    write_size(xml, width, 840)?;
    xml.content()
}

/// Writes the names of nodes, once in thirty rows.
#[tactic(auto, unfolding(crate::specs::Diagram::posts))]
pub(crate) fn write_post_rows(xml: &mut Xml, scene: &Scene, size: &Size) -> Result<(), NoMemory>
    ensures { OnOk result (xml.new ≡ xml.old ++ posts scene.now size.now) }
{
    write_posts_tag(xml, size.width)?;
    write_posts(xml, &scene.heads)?;
    xml.end_element("pattern")?;
    write_rect(xml, "posts", 482, size.width, size.height)?;
    xml.end_line()
}
