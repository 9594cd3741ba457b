//! `play`: rounds, in each of which the actions with a body make their next requests and the letters that wait are handed over, until
//! the first without an input. The line is never refused.
ghost use Rattle.std.specs.Prelude.{OnErr, OnOk};
ghost use Rattle.cam_cluster.specs.Failing.{DisksGoOn};
ghost use Rattle.cam_cluster.specs.Plays.{IsLineOfPlay, IsPartOfPlay, IsPlayOfSome};

use super::{AsLines, Lines};
use crate::room::{push_reserved, reserve_one};
use crate::servers::Servers;
use crate::telling::TellingLog;
use crate::workers::Workers;
use cam_base::NoMemory;
use cam_script::Bodies;
use cam_type::DataType;

impl<L: TellingLog> Lines<L> {
    /// Plays the rounds. If memory runs out some of its inputs were put, each event whole.
    #[tactic(none)]
    pub(crate) fn play<R: DataType, Q: DataType, C: DataType>(
        &mut self,
        line: u32,
        bodies: &Bodies,
        workers: &mut Workers,
        servers: &mut Servers<R, Q, C>,
    ) -> Result<(), NoMemory>
        requires play { IsPlayOfSome bodies.now (⟦<Lines<L> as AsLines>⟧.fields self.old).works
            (⟦<Lines<L> as AsLines>⟧.may_read self.old) workers.old }
        ensures line { OnOk result (IsLineOfPlay line bodies.now
            (⟦<Lines<L> as AsLines>⟧.fields self.old) (⟦<Lines<L> as AsLines>⟧.may_read self.old)
            workers.old
            (⟦<Lines<L> as AsLines>⟧.fields self.new) (⟦<Lines<L> as AsLines>⟧.may_read self.new)
            workers.new) }
        ensures part { OnErr result (IsPartOfPlay line bodies.now
            (⟦<Lines<L> as AsLines>⟧.fields self.old) (⟦<Lines<L> as AsLines>⟧.may_read self.old)
            workers.old
            (⟦<Lines<L> as AsLines>⟧.fields self.new) (⟦<Lines<L> as AsLines>⟧.may_read self.new)
            workers.new) }
        ensures disks { DisksGoOn (⟦<Lines<L> as AsLines>⟧.fields self.old).works
            (⟦<Lines<L> as AsLines>⟧.fields self.new).works }
    {
        reserve_one(&mut self.bound)?;
        self.works.play(line, bodies, workers, servers)?;
        push_reserved(&mut self.bound, &None);
        Ok(())
    }
}
