//! The letters of an event, with their copies; and equal letters.
ghost use Rattle.std.specs.Prelude.{◌≡◌, ◌+◌, ℕ, IfOk, OnOk, length};
ghost use Rattle.cam_gen.specs.Storms.{Words};
ghost use Rattle.cam_gen.specs.StormDraws.{AreAt};
ghost use Rattle.cam_storm_node.specs.Copying.{copied_from};

use cam_base::{NoMemory, Sequence};
use cam_event::Letter;
use cam_gen::Copies;
use cam_node::Letters;
use cam_storm::Copied;
use std::alloc::Global;

/// An equal letter. It fails only when out of memory.
pub(crate) fn copy_letter(letter: &Letter) -> Result<Letter, NoMemory>
    ensures { IfOk result (λ copy. copy ≡ letter.now) }
{
    Ok(Letter {
        from: letter.from,
        count: letter.count,
        to: letter.to,
        have: letter.have,
        place: letter.place,
        know: letter.know.after(0)?,
        body: letter.body,
    })
}

/// An equal letter with as many copies. It fails only when out of memory.
pub(crate) fn copy_copied(copied: &Copied) -> Result<Copied, NoMemory>
    ensures { IfOk result (λ copy. copy ≡ copied.now) }
{
    Ok(Copied {
        letter: copy_letter(&copied.letter)?,
        copies: copied.copies,
    })
}

/// The letters with the copies that they draw, one after another.
pub(crate) fn with_copies(
    alloc: Global,
    copies: &mut Copies,
    letters: Letters,
) -> Result<Sequence<Copied>, NoMemory>
    ensures copied { IfOk result (λ drawn. (words : Words) (s number : ℕ)
        → AreAt words s number copies.old → drawn ≡ copied_from words s number letters) }
    ensures copies { OnOk result ((words : Words) (s number : ℕ)
        → AreAt words s number copies.old
        → AreAt words s (number + length letters) copies.new) }
{
    let mut drawn = Sequence::new(alloc);
    for letter in letters.into_vec() {
        drawn.push(Copied {
            letter,
            copies: copies.next(),
        })?;
    }
    Ok(drawn)
}
