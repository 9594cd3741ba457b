//! Dots as SVG, with the words of their events.
ghost use Rattle.std.specs.Prelude.{◌≡◌, ◌+◌, ◌++◌, OnOk, codes, slice_get, string_bytes};
ghost use Rattle.std.specs.Option.{option_copied};
ghost use Rattle.cam_xml.specs.WellFormed.{element_text, escaped};
ghost use Rattle.cam_diagram.specs.Dots.{dot_parts, words_tag, beside, beside_at, caption_at, caption_text, deeds_title, dot_number, dot_shape, dot_tag, dot_text, dots_text, line_text, number_class, words_text};

use crate::places::{
    is_lit, write_class, write_numbered, write_text_start, write_text_tag, write_translation, x_of,
    y_of,
};
use crate::signs::{sign_shape, sign_word};
use crate::{Caption, Captions, Dot, Dots};
use cam_base::NoMemory;
use cam_xml::Xml;

/// Writes what is shown when an event is pointed at.
#[tactic(auto, unfolding(crate::specs::Dots::deeds_title))]
fn write_title(xml: &mut Xml, deeds: &str) -> Result<(), NoMemory>
    ensures { OnOk result (xml.new ≡ xml.old ++ deeds_title deeds.now) }
{
    xml.tag("title")?;
    xml.content()?;
    xml.text(deeds)?;
    xml.end_element("title")
}

/// Writes the begin of the words of an event.
#[tactic(auto, unfolding(crate::specs::Dots::words_tag))]
fn write_words_tag(xml: &mut Xml, x: u128, y: u128, caption: &Caption) -> Result<(), NoMemory>
    ensures { OnOk result (xml.new ≡ xml.old ++ codes "<text" ++ words_tag x y caption.now ++ codes ">") }
{
    write_text_start(xml, "words", x, y)?;
    xml.set("data-action", caption.action.as_str())?;
    xml.content()
}

/// Writes the words of an event, in its row.
#[tactic(auto, unfolding(crate::specs::Dots::words_text))]
fn write_words(xml: &mut Xml, x: u128, y: u128, caption: &Caption) -> Result<(), NoMemory>
    ensures { OnOk result (xml.new ≡ xml.old ++ words_text x y caption.now) }
{
    write_words_tag(xml, x, y, caption)?;
    xml.text(caption.words.as_str())?;
    xml.end_element("text")
}

/// Writes what stands beside a dot.
#[tactic(auto, unfolding(crate::specs::Dots::beside))]
fn write_beside(xml: &mut Xml, x: u128, y: u128, words: &str) -> Result<(), NoMemory>
    ensures { OnOk result (xml.new ≡ xml.old ++ beside x y words.now) }
{
    write_text_tag(xml, "beside", x, y)?;
    xml.text(words)?;
    xml.end_element("text")
}

/// Writes what stands beside the dot of the event of this number, if something does.
fn write_beside_at(
    xml: &mut Xml,
    number: u64,
    dot: &Dot,
    words: &Option<String>,
) -> Result<(), NoMemory>
    ensures { OnOk result (xml.new ≡ xml.old ++ beside_at number dot.now words.now) }
{
    match words {
        Some(words) => write_beside(
            xml,
            58 + 120 * dot.node as u128,
            80 + 28 * number as u128,
            words.as_str(),
        ),
        None => Ok(()),
    }
}

/// Writes the line of the script that made an event.
#[tactic(auto, unfolding(crate::specs::Dots::line_text))]
fn write_line(xml: &mut Xml, y: u128, line: u32) -> Result<(), NoMemory>
    ensures { OnOk result (xml.new ≡ xml.old ++ line_text y line) }
{
    write_text_tag(xml, "line", 40, y)?;
    xml.number(line as u128)?;
    xml.end_element("text")
}

/// Writes the caption of the event of this number.
#[tactic(auto, unfolding(crate::specs::Dots::caption_text))]
fn write_caption(
    xml: &mut Xml,
    right: u128,
    number: u64,
    dot: &Dot,
    caption: &Caption,
) -> Result<(), NoMemory>
    ensures { OnOk result (xml.new ≡ xml.old ++ caption_text right number dot.now caption.now) }
{
    let y = 80 + 28 * number as u128;
    write_title(xml, caption.deeds.as_str())?;
    write_words(xml, right, y, caption)?;
    write_beside_at(xml, number, dot, &caption.beside)?;
    write_line(xml, y, caption.line)
}

/// Writes the caption of the event of this number, if it has one.
fn write_caption_at(
    xml: &mut Xml,
    captions: &Captions,
    right: u128,
    number: u64,
    dot: &Dot,
) -> Result<(), NoMemory>
    ensures { OnOk result (xml.new ≡ xml.old ++ caption_at captions.now right number dot.now) }
{
    match captions.get(number as usize) {
        Some(caption) => write_caption(xml, right, number, dot, caption),
        None => Ok(()),
    }
}

/// Writes the begin of a dot: its look, its name, and the number of its event.
#[tactic(auto, unfolding(crate::specs::Dots::dot_tag))]
fn write_tag(xml: &mut Xml, captions: &Captions, number: u64, dot: &Dot) -> Result<(), NoMemory>
    ensures { OnOk result (xml.new ≡ xml.old ++ codes "<g" ++ dot_tag captions.now number dot.now ++ codes ">") }
{
    xml.tag("g")?;
    write_class(xml, "event ", sign_word(dot.sign), is_lit(captions, number))?;
    write_numbered(xml, "id", "e", number)?;
    xml.set_number("data-event", number as u128)?;
    xml.content()
}

/// Writes the sign of an event.
#[tactic(auto, unfolding(crate::specs::Dots::dot_shape))]
fn write_shape(xml: &mut Xml, number: u64, dot: &Dot) -> Result<(), NoMemory>
    ensures { OnOk result (xml.new ≡ xml.old ++ dot_shape number dot.now) }
{
    xml.tag("path")?;
    xml.set("class", "sign")?;
    write_translation(xml, x_of(dot.node), y_of(number))?;
    xml.set("d", sign_shape(dot.sign))?;
    xml.end_tag()
}

/// The class of a number. One of four digits is small.
#[tactic(auto, unfolding(crate::specs::Dots::number_class))]
fn number_class(fits: bool) -> &'static str
    ensures { result.now ≡ number_class fits }
{
    if fits { "number" } else { "number small" }
}

/// Writes the number of an event, on its sign.
#[tactic(auto, unfolding(crate::specs::Dots::dot_number))]
fn write_number(xml: &mut Xml, number: u64, dot: &Dot) -> Result<(), NoMemory>
    ensures { OnOk result (xml.new ≡ xml.old ++ dot_number number dot.now) }
{
    write_text_tag(
        xml,
        number_class(number < 1000),
        x_of(dot.node),
        y_of(number) + 4,
    )?;
    xml.number(number as u128)?;
    xml.end_element("text")
}

/// Writes the parts of a dot: the caption, the sign, the number.
#[tactic(auto, unfolding(crate::specs::Dots::dot_parts))]
fn write_parts(
    xml: &mut Xml,
    captions: &Captions,
    right: u128,
    number: u64,
    dot: &Dot,
) -> Result<(), NoMemory>
    ensures { OnOk result (xml.new ≡ xml.old ++ dot_parts captions.now right number dot.now) }
{
    write_caption_at(xml, captions, right, number, dot)?;
    write_shape(xml, number, dot)?;
    write_number(xml, number, dot)
}

/// Writes the dot of the event of this number.
#[tactic(auto, unfolding(crate::specs::Dots::dot_text))]
fn write_dot(
    xml: &mut Xml,
    captions: &Captions,
    right: u128,
    number: u64,
    dot: &Dot,
) -> Result<(), NoMemory>
    ensures { OnOk result (xml.new ≡ xml.old ++ dot_text captions.now right number dot.now) }
{
    write_tag(xml, captions, number, dot)?;
    write_parts(xml, captions, right, number, dot)?;
    xml.end_element("g")?;
    xml.end_line()
}

/// Writes dots, in their order. The words of their events begin at `right`.
pub(crate) fn write_dots(
    xml: &mut Xml,
    captions: &Captions,
    right: u128,
    dots: &Dots,
) -> Result<(), NoMemory>
    ensures { OnOk result (xml.new ≡ xml.old ++ dots_text captions.now right 0 dots.now) }
{
    for (number, dot) in dots.as_slice().iter().enumerate() {
        write_dot(xml, captions, right, number as u64, dot)?;
    }
    Ok(())
}
