//! `lose N`: the letter of this number is lost for good. The line is refused where it was never sent or is lost already.
ghost use Rattle.cam_script.specs.declared.Act.TheVariants as acts;
ghost use Rattle.cam_cluster.specs.Failing.{DisksGoOn};
ghost use Rattle.cam_cluster.specs.LetterLines.{IsLineBy, IsLoss};
ghost use Rattle.cam_cluster.specs.SoFar.{AreLinesOfSome};

use super::{AsLines, Lines};
use crate::LineFault;
use crate::room::{push_reserved, reserve_one};
use crate::telling::TellingLog;
use cam_event::LineRefusal;

impl<L: TellingLog> Lines<L> {
    /// Loses a letter.
    #[tactic(none)]
    pub(crate) fn lose(&mut self, line: u32, letter: u32) -> Result<(), LineFault>
        requires stand { AreLinesOfSome (⟦<Lines<L> as AsLines>⟧.fields self.old)
            (⟦<Lines<L> as AsLines>⟧.may_read self.old) }
        ensures line { IsLineBy line (acts.Lose letter) (IsLoss letter)
            (⟦<Lines<L> as AsLines>⟧.fields self.old) (⟦<Lines<L> as AsLines>⟧.may_read self.old)
            (⟦<Lines<L> as AsLines>⟧.fields self.new) (⟦<Lines<L> as AsLines>⟧.may_read self.new) result }
        ensures disks { DisksGoOn (⟦<Lines<L> as AsLines>⟧.fields self.old).works
            (⟦<Lines<L> as AsLines>⟧.fields self.new).works }
    {
        self.works.put_letters()?;
        reserve_one(&mut self.bound)?;
        if !self.works.outbox.lose(letter) {
            self.refuse(line, LineRefusal::NoLetter)?;
            return Err(LineFault::Refused(LineRefusal::NoLetter));
        }
        push_reserved(&mut self.bound, &None);
        Ok(())
    }
}
