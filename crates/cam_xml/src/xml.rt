//! The pieces of a document.
ghost use Rattle.std.specs.Prelude.{◌≡◌, ◌++◌, ◌∷◌, [], OnOk, codes, decimal, flat_map, string_bytes};
ghost use Rattle.cam_xml.specs.WellFormed.{attribute_text, escaped};

use crate::escape::push_byte;
use cam_base::NoMemory;
use std::alloc::Global;
use std::fmt::Write;
use std::marker::Model;

/// A document as far as it was written. Contracts see its bytes.
#[derive(Debug, Drop)]
pub struct Xml {
    written: String,
}

impl Model for Xml {
    ghost use Rattle.std.specs.Prelude.{ℕ, List, string_bytes};

    ghost Value = { List ℕ };

    ghost view = { λ x. string_bytes x.written };
}

impl Xml {
    /// An empty document. It takes no memory.
    pub fn new(alloc: Global) -> Xml
        ensures { result ≡ [] }
    {
        Xml {
            written: String::new(alloc),
        }
    }

    /// The text that was written.
    pub fn into_string(self) -> String
        ensures { string_bytes result ≡ self }
    {
        self.written
    }

    /// Writes text, also in the value of an attribute. What the grammar reserves is escaped.
    #[tactic(auto, unfolding(crate::specs::WellFormed::escaped))]
    pub fn text(&mut self, text: &str) -> Result<(), NoMemory>
        ensures { OnOk result (self.new ≡ self.old ++ escaped text.now) }
    {
        for byte in text.as_bytes() {
            push_byte(*byte, &mut self.written)?;
        }
        Ok(())
    }

    /// Writes a number in decimal, as text.
    pub fn number(&mut self, number: u128) -> Result<(), NoMemory>
        ensures { OnOk result (self.new ≡ self.old ++ decimal number) }
    {
        write!(self.written, "{number}")?;
        Ok(())
    }

    /// Begins the tag of an element: `<circle`.
    pub fn tag(&mut self, name: &str) -> Result<(), NoMemory>
        ensures { OnOk result (self.new ≡ self.old ++ codes "<" ++ name.now) }
    {
        self.written.push_str("<")?;
        self.written.push_str(name)?;
        Ok(())
    }

    /// Begins an attribute: ` class="`.
    pub fn attribute(&mut self, name: &str) -> Result<(), NoMemory>
        ensures { OnOk result (self.new ≡ self.old ++ codes " " ++ name.now ++ codes "=\"") }
    {
        self.written.push_str(" ")?;
        self.written.push_str(name)?;
        self.written.push_str("=\"")?;
        Ok(())
    }

    /// Ends an attribute.
    pub fn end_attribute(&mut self) -> Result<(), NoMemory>
        ensures { OnOk result (self.new ≡ self.old ++ codes "\"") }
    {
        self.written.push_str("\"")?;
        Ok(())
    }

    /// Writes an attribute whose value is text.
    #[tactic(auto, unfolding(crate::specs::WellFormed::attribute_text))]
    pub fn set(&mut self, name: &str, value: &str) -> Result<(), NoMemory>
        ensures { OnOk result (self.new ≡ self.old ++ attribute_text name.now (escaped value.now)) }
    {
        self.attribute(name)?;
        self.text(value)?;
        self.end_attribute()
    }

    /// Writes an attribute whose value is a number.
    #[tactic(auto, unfolding(crate::specs::WellFormed::attribute_text))]
    pub fn set_number(&mut self, name: &str, value: u128) -> Result<(), NoMemory>
        ensures { OnOk result (self.new ≡ self.old ++ attribute_text name.now (decimal value)) }
    {
        self.attribute(name)?;
        self.number(value)?;
        self.end_attribute()
    }

    /// Ends a tag: what follows is the content of its element.
    pub fn content(&mut self) -> Result<(), NoMemory>
        ensures { OnOk result (self.new ≡ self.old ++ codes ">") }
    {
        self.written.push_str(">")?;
        Ok(())
    }

    /// Ends a tag whose element has no content.
    pub fn end_tag(&mut self) -> Result<(), NoMemory>
        ensures { OnOk result (self.new ≡ self.old ++ codes "/>") }
    {
        self.written.push_str("/>")?;
        Ok(())
    }

    /// Ends an element that has content: `</text>`.
    pub fn end_element(&mut self, name: &str) -> Result<(), NoMemory>
        ensures { OnOk result (self.new ≡ self.old ++ codes "</" ++ name.now ++ codes ">") }
    {
        self.written.push_str("</")?;
        self.written.push_str(name)?;
        self.written.push_str(">")?;
        Ok(())
    }

    /// Ends a line.
    pub fn end_line(&mut self) -> Result<(), NoMemory>
        ensures { OnOk result (self.new ≡ self.old ++ codes "\n") }
    {
        self.written.push_str("\n")?;
        Ok(())
    }
}
