//! What is proved of text that is written.
ghost use Rattle.cam_xml.specs.Laws.{EscapedIsText, NumbersAreText};

/// Escaped text is well-formed, whatever its bytes were, and so is each number.
pub fn text_laws()
    ensures escaped { EscapedIsText }
    ensures numbers { NumbersAreText }
{}
