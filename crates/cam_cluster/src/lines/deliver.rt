//! `deliver N`: the letter of this number is handed over to its node. The line is refused where it was never sent or is lost, and where
//! its node is halted.
ghost use Rattle.cam_script.specs.declared.Act.TheVariants as acts;
ghost use Rattle.cam_cluster.specs.Failing.{DisksGoOn};
ghost use Rattle.cam_cluster.specs.LetterLines.{IsDelivery, IsLineBy};
ghost use Rattle.cam_cluster.specs.SoFar.{AreLinesOfSome};

use super::{AsLines, Lines};
use crate::LineFault;
use crate::servers::Servers;
use crate::telling::TellingLog;
use crate::works::Put;
use cam_type::DataType;

impl<L: TellingLog> Lines<L> {
    /// Delivers a letter.
    #[tactic(none)]
    pub(crate) fn deliver<R: DataType, Q: DataType, C: DataType>(
        &mut self,
        line: u32,
        letter: u32,
        servers: &mut Servers<R, Q, C>,
    ) -> Result<Put, LineFault>
        requires stand { AreLinesOfSome (⟦<Lines<L> as AsLines>⟧.fields self.old)
            (⟦<Lines<L> as AsLines>⟧.may_read self.old) }
        ensures line { IsLineBy line (acts.Deliver letter) (IsDelivery letter)
            (⟦<Lines<L> as AsLines>⟧.fields self.old) (⟦<Lines<L> as AsLines>⟧.may_read self.old)
            (⟦<Lines<L> as AsLines>⟧.fields self.new) (⟦<Lines<L> as AsLines>⟧.may_read self.new) result }
        ensures disks { DisksGoOn (⟦<Lines<L> as AsLines>⟧.fields self.old).works
            (⟦<Lines<L> as AsLines>⟧.fields self.new).works }
    {
        let coming = self.take_letter(line, letter)?;
        let whole = self.works.read(letter, &coming)?;
        Ok(self.lead_letter(line, letter, &coming, whole, servers)?)
    }
}
