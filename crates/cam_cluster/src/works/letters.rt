//! The letters of works: each is found by its number, read from its bytes, and handed to the node to which it was sent.
ghost use Rattle.std.specs.Prelude.{◌≡◌, [], IfOk, OnErr, OnOk, Some, false, option_map, reverse, suc};
ghost use Rattle.std.specs.List.{AllByRecursion};
ghost use Rattle.cam_event.specs.Inputs.{letter_at};
ghost use Rattle.cam_net.specs.Waiting.{is_halted};
ghost use Rattle.cam_wire.specs.Writable.{IsWritable};
ghost use Rattle.cam_cluster.specs.Coming.{AreWorksOfSome, HasArrived, HasDelivered, HasFound};
ghost use Rattle.cam_cluster.specs.Coming.{HasRead};
ghost use Rattle.cam_cluster.specs.Failing.{DisksGoOn};
ghost use Rattle.cam_cluster.specs.Puts.{KeepsAsBefore};

use super::{AsWorks, Put, Works};
use crate::arrival::{Arrival, read_arrival};
use crate::servers::Servers;
use crate::telling::TellingLog;
use cam_base::NoMemory;
use cam_event::{Event, Letter, LetterId};
use cam_node::Input;
use cam_type::DataType;

/// A letter that can be handed over, and the place of the node to which it was sent.
#[derive(Clone, Copy, Debug)]
pub(crate) struct Coming {
    pub(crate) letter: LetterId,
    pub(crate) place: usize,
}

/// The node to which these events sent a letter.
fn receiver(events: &[Event], letter: &LetterId) -> Option<u8>
    ensures { result ≡ option_map (λ mail. mail.to) (letter_at (reverse events.now) letter.now) }
{
    let event = events.get(letter.event as usize)?;
    match event.sent.get(letter.place as usize) {
        Some(sent) => Some(sent.to),
        None => None,
    }
}

impl<L: TellingLog> Works<L> {
    /// Puts the letters that are put next, so that the network has them all.
    #[tactic(none)]
    pub(crate) fn put_letters(&mut self) -> Result<(), NoMemory>
        requires writable { AllByRecursion IsWritable self.old.outbox.unput }
        ensures as_before { KeepsAsBefore
            (⟦<Works<L> as AsWorks>⟧.fields self.old) (⟦<Works<L> as AsWorks>⟧.may_read self.old)
            (⟦<Works<L> as AsWorks>⟧.fields self.new) (⟦<Works<L> as AsWorks>⟧.may_read self.new) }
        ensures all { OnOk result (self.new.outbox.unput ≡ []) }
        ensures nodes { self.new.nodes ≡ self.old.nodes }
        ensures halted { self.new.halted ≡ self.old.halted }
        ensures disks { DisksGoOn (⟦<Works<L> as AsWorks>⟧.fields self.old)
            (⟦<Works<L> as AsWorks>⟧.fields self.new) }
    {
        self.outbox.put_all()
    }

    /// The letter of a number, unless it was never sent or is lost.
    #[tactic(none)]
    pub(crate) fn coming(&self, number: u32) -> Option<Coming>
        requires all { self.now.outbox.unput ≡ [] }
        ensures found { HasFound number
            (⟦<Works<L> as AsWorks>⟧.fields self.now) (⟦<Works<L> as AsWorks>⟧.may_read self.now)
            result }
    {
        if self.outbox.net().whole(number).is_none() {
            return None;
        }
        let letter = self.events.numbered(number)?;
        let to = receiver(self.events.as_slice(), &letter)?;
        let place = (to as usize).checked_sub(1)?;
        Some(Coming { letter, place })
    }

    /// Reads a letter from its bytes, of which so many are left.
    #[tactic(none)]
    pub(crate) fn arrive(
        &self,
        number: u32,
        coming: &Coming,
        bytes: usize,
    ) -> Result<Arrival, NoMemory>
        requires all { self.now.outbox.unput ≡ [] }
        requires stand { AreWorksOfSome
            (⟦<Works<L> as AsWorks>⟧.fields self.now) (⟦<Works<L> as AsWorks>⟧.may_read self.now) }
        requires found { HasFound number
            (⟦<Works<L> as AsWorks>⟧.fields self.now) (⟦<Works<L> as AsWorks>⟧.may_read self.now)
            (Some coming.now) }
        ensures { IfOk result (HasArrived bytes coming.now.letter
            (⟦<Works<L> as AsWorks>⟧.fields self.now) (⟦<Works<L> as AsWorks>⟧.may_read self.now)) }
    {
        match self.outbox.net().cut(number, bytes) {
            Some(left) => read_arrival(self.events.allocator(), left),
            // the network has it
            None => unreachable!(),
        }
    }

    /// Reads a letter from all of its bytes.
    #[tactic(none)]
    pub(crate) fn read(&self, number: u32, coming: &Coming) -> Result<Letter, NoMemory>
        requires all { self.now.outbox.unput ≡ [] }
        requires stand { AreWorksOfSome
            (⟦<Works<L> as AsWorks>⟧.fields self.now) (⟦<Works<L> as AsWorks>⟧.may_read self.now) }
        requires found { HasFound number
            (⟦<Works<L> as AsWorks>⟧.fields self.now) (⟦<Works<L> as AsWorks>⟧.may_read self.now)
            (Some coming.now) }
        ensures { IfOk result (HasRead coming.now.letter
            (⟦<Works<L> as AsWorks>⟧.fields self.now) (⟦<Works<L> as AsWorks>⟧.may_read self.now)) }
    {
        let Some(bytes) = self.outbox.net().whole(number) else {
            // the network has it
            unreachable!()
        };
        match read_arrival(self.events.allocator(), bytes)? {
            Arrival::Whole(letter) => Ok(letter),
            // these are all bytes of a letter
            Arrival::Cut(_) => unreachable!(),
        }
    }

    /// Hands a letter to its node, which is not halted. If memory runs out the works keep what
    /// they kept; so they do where the letter goes to no node of the script.
    #[tactic(none)]
    pub(crate) fn hand_over<R: DataType, Q: DataType, C: DataType>(
        &mut self,
        line: u32,
        number: u32,
        coming: &Coming,
        letter: Letter,
        servers: &mut Servers<R, Q, C>,
    ) -> Result<Put, NoMemory>
        requires all { self.old.outbox.unput ≡ [] }
        requires stand { AreWorksOfSome
            (⟦<Works<L> as AsWorks>⟧.fields self.old) (⟦<Works<L> as AsWorks>⟧.may_read self.old) }
        requires found { HasFound number
            (⟦<Works<L> as AsWorks>⟧.fields self.old) (⟦<Works<L> as AsWorks>⟧.may_read self.old)
            (Some coming.now) }
        requires awake { is_halted self.old.halted (suc coming.now.place) ≡ false }
        requires read { HasRead coming.now.letter
            (⟦<Works<L> as AsWorks>⟧.fields self.old) (⟦<Works<L> as AsWorks>⟧.may_read self.old)
            letter }
        ensures delivered { IfOk result (λ done. HasDelivered line number
            (⟦<Works<L> as AsWorks>⟧.fields self.old) (⟦<Works<L> as AsWorks>⟧.may_read self.old) done
            (⟦<Works<L> as AsWorks>⟧.fields self.new) (⟦<Works<L> as AsWorks>⟧.may_read self.new)) }
        ensures as_before { OnErr result (KeepsAsBefore
            (⟦<Works<L> as AsWorks>⟧.fields self.old) (⟦<Works<L> as AsWorks>⟧.may_read self.old)
            (⟦<Works<L> as AsWorks>⟧.fields self.new) (⟦<Works<L> as AsWorks>⟧.may_read self.new)) }
        ensures disks { DisksGoOn (⟦<Works<L> as AsWorks>⟧.fields self.old)
            (⟦<Works<L> as AsWorks>⟧.fields self.new) }
    {
        if coming.place >= self.nodes.len() {
            return Err(NoMemory);
        }
        let input = Input::Letter(coming.letter, letter);
        let done = self.put(line, coming.place, &input, servers)?;
        self.outbox.delivered(number);
        Ok(done)
    }
}
