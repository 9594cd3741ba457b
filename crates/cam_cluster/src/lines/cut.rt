//! `cut N BYTES`: no more than so many bytes of a letter arrive. Where the letter has more, it is told as bad and leaves a mark, and is
//! not delivered; else it is delivered.
ghost use Rattle.std.specs.Prelude.{OnErr, OnOk};
ghost use Rattle.cam_script.specs.declared.Act.TheVariants as acts;
ghost use Rattle.cam_cluster.specs.Failing.{DisksGoOn};
ghost use Rattle.cam_cluster.specs.LetterLines.{HasMarkedCut, IsCut, IsLineBy};
ghost use Rattle.cam_cluster.specs.SoFar.{AreLinesOfSome, KeepsLinesAsBefore};

use super::{AsLines, Lines};
use crate::LineFault;
use crate::arrival::Arrival;
use crate::room::{push_reserved, reserve_one};
use crate::servers::Servers;
use crate::telling::TellingLog;
use crate::works::Put;
use cam_base::NoMemory;
use cam_event::{LetterFault, Mark};
use cam_type::DataType;
use cam_wire::WireFault;

/// What a line that cuts a letter comes to.
#[derive(Clone, Copy, Debug)]
pub(crate) enum CutLetter {
    /// Fewer bytes than the letter has: they have this fault, and the letter is not delivered.
    Bad(WireFault),
    /// These are all bytes of the letter, and it was delivered.
    Delivered(Put),
}

impl<L: TellingLog> Lines<L> {
    /// Delivers a letter of which no more than so many bytes arrive.
    #[tactic(none)]
    pub(crate) fn cut<R: DataType, Q: DataType, C: DataType>(
        &mut self,
        line: u32,
        letter: u32,
        bytes: u32,
        servers: &mut Servers<R, Q, C>,
    ) -> Result<CutLetter, LineFault>
        requires stand { AreLinesOfSome (⟦<Lines<L> as AsLines>⟧.fields self.old)
            (⟦<Lines<L> as AsLines>⟧.may_read self.old) }
        ensures line { IsLineBy line (acts.Cut letter bytes) (IsCut letter bytes)
            (⟦<Lines<L> as AsLines>⟧.fields self.old) (⟦<Lines<L> as AsLines>⟧.may_read self.old)
            (⟦<Lines<L> as AsLines>⟧.fields self.new) (⟦<Lines<L> as AsLines>⟧.may_read self.new) result }
        ensures disks { DisksGoOn (⟦<Lines<L> as AsLines>⟧.fields self.old).works
            (⟦<Lines<L> as AsLines>⟧.fields self.new).works }
    {
        let coming = self.take_letter(line, letter)?;
        match self.works.arrive(letter, &coming, bytes as usize)? {
            Arrival::Whole(whole) => {
                let done = self.lead_letter(line, letter, &coming, whole, servers)?;
                Ok(CutLetter::Delivered(done))
            }
            Arrival::Cut(fault) => {
                self.mark_cut(line, letter, bytes as u64)?;
                Ok(CutLetter::Bad(fault))
            }
        }
    }

    /// Only so many bytes of a letter arrived: a mark is left, and the line's variable stands for nothing.
    #[tactic(none)]
    fn mark_cut(&mut self, line: u32, letter: u32, at: u64) -> Result<(), NoMemory>
        ensures marked { OnOk result (HasMarkedCut line letter at
            (⟦<Lines<L> as AsLines>⟧.fields self.old) (⟦<Lines<L> as AsLines>⟧.may_read self.old)
            (⟦<Lines<L> as AsLines>⟧.fields self.new) (⟦<Lines<L> as AsLines>⟧.may_read self.new)) }
        ensures as_before { OnErr result (KeepsLinesAsBefore
            (⟦<Lines<L> as AsLines>⟧.fields self.old) (⟦<Lines<L> as AsLines>⟧.may_read self.old)
            (⟦<Lines<L> as AsLines>⟧.fields self.new) (⟦<Lines<L> as AsLines>⟧.may_read self.new)) }
        ensures disks { DisksGoOn (⟦<Lines<L> as AsLines>⟧.fields self.old).works
            (⟦<Lines<L> as AsLines>⟧.fields self.new).works }
    {
        reserve_one(&mut self.works.marks)?;
        reserve_one(&mut self.bound)?;
        let mark = Mark::Cut {
            line,
            letter,
            fault: LetterFault::Short,
            at,
        };
        push_reserved(&mut self.works.marks, &mark);
        push_reserved(&mut self.bound, &None);
        Ok(())
    }
}
