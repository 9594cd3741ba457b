//! The step that the node of a storm node takes for an item.
ghost use Rattle.std.specs.Prelude.{◌≡◌, ◌≤◌, ℕ, List, IfOk, OnOk, IsErrOf, IsFalse, IsTrue};
ghost use Rattle.cam_base.specs.Causes.{Rose};
ghost use Rattle.cam_journal.specs.declared.input.CoreFault.TheVariants.{DiskFault};
ghost use Rattle.cam_event.specs.ByDeltas.{Received};
ghost use Rattle.cam_node.specs.Calls.{answers, mail_of};
ghost use Rattle.cam_node.specs.Keeping.{KeepsNode};
ghost use Rattle.cam_node.specs.MayStep.{MayStep};
ghost use Rattle.cam_node.specs.Refused.{IsNotRefused};
ghost use Rattle.cam_gen.specs.Storms.{Words};
ghost use Rattle.cam_storm.specs.Own.{finish_value};
ghost use Rattle.cam_storm_node.specs.Playing.{is_busy};
ghost use Rattle.cam_storm_node.specs.Taking.{CanTake, HasPut, HasRestarted, HasTaken, IsItem, MayTake, OnlyNode};

use crate::storm_node::{AsStormNode, StormNode};
use crate::storming::Storming;
use crate::telling::TellingLog;
use crate::works::value_on;
use cam_event::LetterId;
use cam_journal::{CoreFault, CoreInput};
use cam_node::{Input, Stepped};
use cam_storm::Copied;

/// A step that the node took, with the value on the finish that it received.
#[derive(Drop)]
pub(crate) struct Taken {
    pub(crate) stepped: Stepped,
    pub(crate) finish: Option<i64>,
}

/// The value on the finish of an input, if it is one.
fn finish_of(input: &Input) -> Option<i64>
    ensures { result ≡ finish_value (mail_of input.now) }
{
    match input {
        Input::Letter(_, letter) => value_on(&letter.body),
        Input::Begin | Input::Request(_) | Input::Tell(_) | Input::Query(_) => None,
    }
}

impl<L: TellingLog, W: Storming> StormNode<L, W> {
    /// How often the disk of the node has failed.
    fn failures(&self) -> u64
        ensures { result
            ≡ L.faults_within self.now.node.log.log }
    {
        self.node.log().failures()
    }

    /// The fault of a step that failed, if the disk had failed so often before it: that of the disk
    /// if it failed since.
    fn fault_since(&self, before: u64) -> CoreFault
        ensures { result ≡ DiskFault → Rose before
            (L.faults_within self.now.node.log.log) }
    {
        if self.failures() >= before.saturating_add(1) {
            CoreFault::DiskFault
        } else {
            CoreFault::NoMemory
        }
    }

    /// Puts an input to the node.
    fn put(&mut self, input: &Input) -> Result<Taken, CoreFault>
        requires running { IsFalse self.old.node.log.halted }
        requires free { IsNotRefused (answers self.old.node.core) input.now }
        requires may { MayStep (answers self.old.node.core) input.now }
        ensures put { IfOk result (λ taken. (own : List Received)
            → KeepsNode self.old.node.objects own
            (⟦<StormNode<L, W> as AsStormNode>⟧.fields self.old).node
            (⟦<StormNode<L, W> as AsStormNode>⟧.fields self.old).entries
            → HasPut self.old.node.objects own input.now
            (⟦<StormNode<L, W> as AsStormNode>⟧.fields self.old).node
            taken.stepped.event taken.stepped.letters taken.finish
            (⟦<StormNode<L, W> as AsStormNode>⟧.fields self.new).node
            (⟦<StormNode<L, W> as AsStormNode>⟧.fields self.new).entries) }
        ensures runs { OnOk result (IsFalse self.new.node.log.halted) }
        ensures only { OnlyNode (⟦<StormNode<L, W> as AsStormNode>⟧.fields self.old)
            (⟦<StormNode<L, W> as AsStormNode>⟧.fields self.new) }
        ensures later { L.faults_within self.old.node.log.log
            ≤ L.faults_within self.new.node.log.log }
        ensures cause { IsErrOf result DiskFault
            → Rose (L.faults_within self.old.node.log.log)
            (L.faults_within self.new.node.log.log) }
    {
        let before = self.failures();
        match self.node.step(
            input,
            &mut self.register,
            &mut self.queue,
            &mut self.counter,
        ) {
            Ok(stepped) => Ok(Taken {
                stepped,
                finish: finish_of(input),
            }),
            Err(_) => Err(self.fault_since(before)),
        }
    }

    /// Restarts the node. Each log of a storm can be restarted from; if one could not, and the disk
    /// had not failed, the step would fail as if memory ran out.
    fn restart(&mut self) -> Result<Taken, CoreFault>
        requires running { IsFalse self.old.node.log.halted }
        ensures restarted { IfOk result (λ taken. (own : List Received)
            → KeepsNode self.old.node.objects own
            (⟦<StormNode<L, W> as AsStormNode>⟧.fields self.old).node
            (⟦<StormNode<L, W> as AsStormNode>⟧.fields self.old).entries
            → HasRestarted self.old.node.objects own
            (⟦<StormNode<L, W> as AsStormNode>⟧.fields self.old).node
            taken.stepped.event taken.stepped.letters taken.finish
            (⟦<StormNode<L, W> as AsStormNode>⟧.fields self.new).node
            (⟦<StormNode<L, W> as AsStormNode>⟧.fields self.new).entries) }
        ensures runs { OnOk result (IsFalse self.new.node.log.halted) }
        ensures only { OnlyNode (⟦<StormNode<L, W> as AsStormNode>⟧.fields self.old)
            (⟦<StormNode<L, W> as AsStormNode>⟧.fields self.new) }
        ensures later { L.faults_within self.old.node.log.log
            ≤ L.faults_within self.new.node.log.log }
        ensures cause { IsErrOf result DiskFault
            → Rose (L.faults_within self.old.node.log.log)
            (L.faults_within self.new.node.log.log) }
    {
        let before = self.failures();
        match self.node.restart() {
            Ok(restarted) => Ok(Taken {
                stepped: restarted.stepped,
                finish: None,
            }),
            Err(_) => Err(self.fault_since(before)),
        }
    }

    /// The node takes its step for an item with which there is something to do.
    pub(crate) fn take(&mut self, item: CoreInput<Copied>) -> Result<Taken, CoreFault>
        requires running { IsFalse self.old.node.log.halted }
        requires busy { IsTrue (is_busy (⟦<StormNode<L, W> as AsStormNode>⟧.fields self.old) item) }
        requires can { CanTake W.words item
            (⟦<StormNode<L, W> as AsStormNode>⟧.fields self.old) }
        ensures taken { IfOk result (λ taken. (words : Words) (s : ℕ) (own : List Received)
            → MayTake words s own (⟦<StormNode<L, W> as AsStormNode>⟧.fields self.old)
            → IsItem s item
            → HasTaken words s own item taken.stepped.event taken.stepped.letters taken.finish
            (⟦<StormNode<L, W> as AsStormNode>⟧.fields self.new).node
            (⟦<StormNode<L, W> as AsStormNode>⟧.fields self.new).entries) }
        ensures runs { OnOk result (IsFalse self.new.node.log.halted) }
        ensures only { OnlyNode (⟦<StormNode<L, W> as AsStormNode>⟧.fields self.old)
            (⟦<StormNode<L, W> as AsStormNode>⟧.fields self.new) }
        ensures later { L.faults_within self.old.node.log.log
            ≤ L.faults_within self.new.node.log.log }
        ensures cause { IsErrOf result DiskFault
            → Rose (L.faults_within self.old.node.log.log)
            (L.faults_within self.new.node.log.log) }
    {
        if self.events < self.tops {
            return self.put(&Input::Begin);
        }
        if self.storm.restarts_at(self.events) {
            return self.restart();
        }
        match item {
            CoreInput::Letter {
                number,
                place,
                letter,
            } => {
                let id = LetterId {
                    event: number,
                    place,
                };
                self.put(&Input::Letter(id, letter.letter))
            }
            CoreInput::Drive => {
                let Some(request) = self.next else {
                    unreachable!();
                };
                self.put(&Input::Request(request))
            }
        }
    }
}
