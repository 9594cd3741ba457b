//! Deliveries of the letter that waits, until none waits for a node that is not halted.
ghost use Rattle.std.specs.Prelude.{IfOk, OnErr, OnOk};
ghost use Rattle.cam_cluster.specs.Coming.{AreWorksOfSome};
ghost use Rattle.cam_cluster.specs.Drains.{HasDeliveredSome, HasDrained, HasNextDelivered};
ghost use Rattle.cam_cluster.specs.Failing.{DisksGoOn};
ghost use Rattle.cam_cluster.specs.Puts.{KeepsAsBefore};

use super::{AsWorks, Put, Works};
use crate::servers::Servers;
use crate::telling::TellingLog;
use cam_base::NoMemory;
use cam_type::DataType;

impl<L: TellingLog> Works<L> {
    /// Hands over the least letter that waits for a node that is not halted; none if none waits.
    #[tactic(none)]
    pub(crate) fn deliver_next<R: DataType, Q: DataType, C: DataType>(
        &mut self,
        line: u32,
        servers: &mut Servers<R, Q, C>,
    ) -> Result<Option<Put>, NoMemory>
        requires stand { AreWorksOfSome
            (⟦<Works<L> as AsWorks>⟧.fields self.old) (⟦<Works<L> as AsWorks>⟧.may_read self.old) }
        ensures next { IfOk result (HasNextDelivered line
            (⟦<Works<L> as AsWorks>⟧.fields self.old) (⟦<Works<L> as AsWorks>⟧.may_read self.old)
            (⟦<Works<L> as AsWorks>⟧.fields self.new) (⟦<Works<L> as AsWorks>⟧.may_read self.new)) }
        ensures as_before { OnErr result (KeepsAsBefore
            (⟦<Works<L> as AsWorks>⟧.fields self.old) (⟦<Works<L> as AsWorks>⟧.may_read self.old)
            (⟦<Works<L> as AsWorks>⟧.fields self.new) (⟦<Works<L> as AsWorks>⟧.may_read self.new)) }
        ensures disks { DisksGoOn (⟦<Works<L> as AsWorks>⟧.fields self.old)
            (⟦<Works<L> as AsWorks>⟧.fields self.new) }
    {
        self.put_letters()?;
        let Some(number) = self.outbox.net().next(&self.halted) else {
            return Ok(None);
        };
        let Some(coming) = self.coming(number) else {
            // the network has the letter that it names
            unreachable!()
        };
        let letter = self.read(number, &coming)?;
        let done = self.hand_over(line, number, &coming, letter, servers)?;
        Ok(Some(done))
    }

    /// Hands over the letters that wait, the least first, until none waits for a node that is not halted. If memory runs out some of
    /// them were handed over, each event whole.
    #[tactic(none)]
    pub(crate) fn drain<R: DataType, Q: DataType, C: DataType>(
        &mut self,
        line: u32,
        servers: &mut Servers<R, Q, C>,
    ) -> Result<(), NoMemory>
        requires stand { AreWorksOfSome
            (⟦<Works<L> as AsWorks>⟧.fields self.old) (⟦<Works<L> as AsWorks>⟧.may_read self.old) }
        ensures drained { OnOk result (HasDrained line
            (⟦<Works<L> as AsWorks>⟧.fields self.old) (⟦<Works<L> as AsWorks>⟧.may_read self.old)
            (⟦<Works<L> as AsWorks>⟧.fields self.new) (⟦<Works<L> as AsWorks>⟧.may_read self.new)) }
        ensures part { OnErr result (HasDeliveredSome line
            (⟦<Works<L> as AsWorks>⟧.fields self.old) (⟦<Works<L> as AsWorks>⟧.may_read self.old)
            (⟦<Works<L> as AsWorks>⟧.fields self.new) (⟦<Works<L> as AsWorks>⟧.may_read self.new)) }
        ensures disks { DisksGoOn (⟦<Works<L> as AsWorks>⟧.fields self.old)
            (⟦<Works<L> as AsWorks>⟧.fields self.new) }
    {
        while self.deliver_next(line, servers)?.is_some() {}
        Ok(())
    }
}
