//! A step of a storm node.
ghost use Rattle.std.specs.Prelude.{◌≡◌, ℕ, Ok, IfOk, IsTrue};
ghost use Rattle.cam_journal.specs.Taking.{CanStep, FaultsWithCause};
ghost use Rattle.cam_storm.specs.Lawful.{SeatHistory, goes_to, lawful, sends};
ghost use Rattle.cam_storm_node.specs.Playing.{IsCore, IsPlaying, is_busy};
ghost use Rattle.cam_storm_node.specs.Taking.{IsItem};
ghost use Rattle.cam_storm_node.specs.Stepping.{HasStepped, StaysOf};

use crate::storm_node::{AsStormNode, StormNode};
use crate::storming::Storming;
use crate::telling::TellingLog;
use cam_base::NoMemory;
use cam_journal::{CoreFault, CoreInput};
use cam_storm::{Copied, Stepped};

impl<L: TellingLog, W: Storming> StormNode<L, W> {
    /// A step for an item with which there is something to do.
    fn try_step(&mut self, item: CoreInput<Copied>) -> Result<Stepped, CoreFault>
        requires busy { IsTrue (is_busy (⟦<StormNode<L, W> as AsStormNode>⟧.fields self.old) item) }
        requires can { CanStep (λ storm_node node history.
            IsCore W.words W.failures (⟦<StormNode<L, W> as AsStormNode>⟧.fields storm_node)
            node history)
            sends goes_to (lawful W.words) self.old item }
        ensures stepped { IfOk result (λ e. (s : ℕ) (history : SeatHistory)
            → IsPlaying W.words (⟦<StormNode<L, W> as AsStormNode>⟧.fields self.old) s history
            → IsItem s item
            → HasStepped W.words s history item
            (⟦<StormNode<L, W> as AsStormNode>⟧.fields self.new) (Ok e)) }
        ensures stays { StaysOf (⟦<StormNode<L, W> as AsStormNode>⟧.fields self.old)
            (⟦<StormNode<L, W> as AsStormNode>⟧.fields self.new) }
        ensures cause { FaultsWithCause (⟦<StormNode<L, W> as AsStormNode>⟧.fields self.old).faults
            (⟦<StormNode<L, W> as AsStormNode>⟧.fields self.new).faults result }
    {
        let taken = self.take(item)?;
        match self.follow(taken) {
            Ok(stepped) => Ok(stepped),
            Err(NoMemory) => Err(CoreFault::NoMemory),
        }
    }

    /// A step for an item with which there is something to do. After a fault the storm node takes
    /// no further one.
    pub(crate) fn step_on(&mut self, item: CoreInput<Copied>) -> Result<Stepped, CoreFault>
        requires busy { IsTrue (is_busy (⟦<StormNode<L, W> as AsStormNode>⟧.fields self.old) item) }
        requires can { CanStep (λ storm_node node history.
            IsCore W.words W.failures (⟦<StormNode<L, W> as AsStormNode>⟧.fields storm_node)
            node history)
            sends goes_to (lawful W.words) self.old item }
        ensures stepped { (s : ℕ) (history : SeatHistory)
            → IsPlaying W.words (⟦<StormNode<L, W> as AsStormNode>⟧.fields self.old) s history
            → IsItem s item
            → HasStepped W.words s history item
            (⟦<StormNode<L, W> as AsStormNode>⟧.fields self.new) result }
        ensures cause { FaultsWithCause (⟦<StormNode<L, W> as AsStormNode>⟧.fields self.old).faults
            (⟦<StormNode<L, W> as AsStormNode>⟧.fields self.new).faults result }
    {
        match self.try_step(item) {
            Ok(stepped) => Ok(stepped),
            Err(fault) => {
                self.lost = true;
                Err(fault)
            }
        }
    }
}
