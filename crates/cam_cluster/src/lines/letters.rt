//! The lines that hand a letter over: it is found and tested, and its bytes are read.
ghost use Rattle.std.specs.Prelude.{◌≡◌, IfOk, OnErr, Some, [], false, suc};
ghost use Rattle.cam_net.specs.Waiting.{is_halted};
ghost use Rattle.cam_cluster.specs.Coming.{HasFound, HasRead};
ghost use Rattle.cam_cluster.specs.Failing.{DisksGoOn};
ghost use Rattle.cam_cluster.specs.LetterLines.{HasLedLetter, HasTaken};
ghost use Rattle.cam_cluster.specs.SoFar.{AreLinesOfSome, KeepsLinesAsBefore};

use super::{AsLines, Lines};
use crate::LineFault;
use crate::room::{push_reserved, reserve_one};
use crate::servers::Servers;
use crate::telling::TellingLog;
use crate::works::{Coming, Put, is_halted};
use cam_base::NoMemory;
use cam_event::{Letter, LineRefusal};
use cam_type::DataType;

impl<L: TellingLog> Lines<L> {
    /// The letter of a number, for a line that hands it over. The line is refused where the letter was never sent or is lost, and
    /// where its node is halted.
    #[tactic(none)]
    pub(super) fn take_letter(&mut self, line: u32, number: u32) -> Result<Coming, LineFault>
        requires stand { AreLinesOfSome (⟦<Lines<L> as AsLines>⟧.fields self.old)
            (⟦<Lines<L> as AsLines>⟧.may_read self.old) }
        ensures taken { HasTaken line number
            (⟦<Lines<L> as AsLines>⟧.fields self.old) (⟦<Lines<L> as AsLines>⟧.may_read self.old)
            (⟦<Lines<L> as AsLines>⟧.fields self.new) (⟦<Lines<L> as AsLines>⟧.may_read self.new) result }
        ensures disks { DisksGoOn (⟦<Lines<L> as AsLines>⟧.fields self.old).works
            (⟦<Lines<L> as AsLines>⟧.fields self.new).works }
    {
        self.works.put_letters()?;
        let Some(coming) = self.works.coming(number) else {
            self.refuse(line, LineRefusal::NoLetter)?;
            return Err(LineFault::Refused(LineRefusal::NoLetter));
        };
        if is_halted(&self.works.halted, coming.place) {
            self.refuse(line, LineRefusal::Halted)?;
            return Err(LineFault::Refused(LineRefusal::Halted));
        }
        Ok(coming)
    }

    /// Hands a letter over to its node, which is not halted; the line's variable stands for nothing.
    #[tactic(none)]
    pub(super) fn lead_letter<R: DataType, Q: DataType, C: DataType>(
        &mut self,
        line: u32,
        number: u32,
        coming: &Coming,
        letter: Letter,
        servers: &mut Servers<R, Q, C>,
    ) -> Result<Put, NoMemory>
        requires stand { AreLinesOfSome (⟦<Lines<L> as AsLines>⟧.fields self.old)
            (⟦<Lines<L> as AsLines>⟧.may_read self.old) }
        requires all { self.old.works.outbox.unput ≡ [] }
        requires found { HasFound number (⟦<Lines<L> as AsLines>⟧.fields self.old).works
            (⟦<Lines<L> as AsLines>⟧.may_read self.old) (Some coming.now) }
        requires awake { is_halted self.old.works.halted (suc coming.now.place) ≡ false }
        requires read { HasRead coming.now.letter (⟦<Lines<L> as AsLines>⟧.fields self.old).works
            (⟦<Lines<L> as AsLines>⟧.may_read self.old) letter }
        ensures led { IfOk result (λ done. HasLedLetter line number
            (⟦<Lines<L> as AsLines>⟧.fields self.old) (⟦<Lines<L> as AsLines>⟧.may_read self.old) done
            (⟦<Lines<L> as AsLines>⟧.fields self.new) (⟦<Lines<L> as AsLines>⟧.may_read self.new)) }
        ensures as_before { OnErr result (KeepsLinesAsBefore
            (⟦<Lines<L> as AsLines>⟧.fields self.old) (⟦<Lines<L> as AsLines>⟧.may_read self.old)
            (⟦<Lines<L> as AsLines>⟧.fields self.new) (⟦<Lines<L> as AsLines>⟧.may_read self.new)) }
        ensures disks { DisksGoOn (⟦<Lines<L> as AsLines>⟧.fields self.old).works
            (⟦<Lines<L> as AsLines>⟧.fields self.new).works }
    {
        reserve_one(&mut self.bound)?;
        let done = self.works.hand_over(line, number, coming, letter, servers)?;
        push_reserved(&mut self.bound, &None);
        Ok(done)
    }
}
