//! A round of a play: each action with a body makes its next request, if it may go on.
ghost use Rattle.std.specs.Prelude.{IfOk, OnErr, OnOk};
ghost use Rattle.cam_cluster.specs.Failing.{DisksGoOn};
ghost use Rattle.cam_cluster.specs.Goes.{KeepsWorkersAsBefore};
ghost use Rattle.cam_cluster.specs.Puts.{KeepsAsBefore};
ghost use Rattle.cam_cluster.specs.Rounds.{AreTurnsOfSome, HasHadTurn, HaveHadSomeTurns, HaveHadTurns, IsAtNodeOfSome, IsOutlook, IsTurnOfSome};

use super::{AsWorks, Put, Works, is_halted};
use crate::servers::Servers;
use crate::telling::TellingLog;
use crate::workers::Workers;
use cam_base::NoMemory;
use cam_event::{LineRefusal, Request, Want};
use cam_names::Name;
use cam_node::Input;
use cam_script::Bodies;
use cam_type::DataType;

/// What a round may expect of an action with a body.
#[derive(Clone, Copy, Debug)]
pub(crate) enum Outlook {
    /// It makes its next request, if its body has one now.
    GoesOn,
    /// It makes none now.
    Waits,
    /// It makes none from now on.
    Over,
}

impl<L: TellingLog> Works<L> {
    /// Whether an action makes its next request in a round: it goes on where it was created at its home and has not ended, its home has
    /// not crashed since and is not halted, and it was never stopped there. It is over where it was stopped, has ended, or its home has
    /// crashed since, but where the home is halted, it may wait instead. The workers have to have taken in all.
    #[tactic(none)]
    pub(crate) fn outlook(&self, name: &Name, workers: &Workers) -> Outlook
        requires home { IsAtNodeOfSome name.now (⟦<Works<L> as AsWorks>⟧.fields self.now)
            (⟦<Works<L> as AsWorks>⟧.may_read self.now) }
        ensures { IsOutlook name.now (⟦<Works<L> as AsWorks>⟧.fields self.now)
            (⟦<Works<L> as AsWorks>⟧.may_read self.now) workers.now result }
    {
        if workers.was_stopped(name) {
            return Outlook::Over;
        }
        let place = name.home().0 as usize - 1;
        if is_halted(&self.halted, place) {
            return Outlook::Waits;
        }
        // nothing stands against a request to abort where the action runs at its home
        let aborts = Input::Request(Request {
            action: *name,
            want: Want::Abort,
        });
        match self.nodes[place].refusal(&aborts) {
            None => Outlook::GoesOn,
            Some(LineRefusal::Ended) => Outlook::Over,
            Some(_) => Outlook::Waits,
        }
    }

    /// An action has its turn in a round: it makes the next request of its body, if it may go on and makes one now. One that is over
    /// does not play on. If memory runs out, the works and the workers stand as before.
    #[tactic(none)]
    pub(crate) fn take_turn<R: DataType, Q: DataType, C: DataType>(
        &mut self,
        line: u32,
        name: &Name,
        bodies: &Bodies,
        workers: &mut Workers,
        servers: &mut Servers<R, Q, C>,
    ) -> Result<Option<Put>, NoMemory>
        requires turn { IsTurnOfSome name.now bodies.now (⟦<Works<L> as AsWorks>⟧.fields self.old)
            (⟦<Works<L> as AsWorks>⟧.may_read self.old) workers.old }
        ensures turn { IfOk result (λ done. HasHadTurn line name.now bodies.now
            (⟦<Works<L> as AsWorks>⟧.fields self.old) (⟦<Works<L> as AsWorks>⟧.may_read self.old)
            workers.old done
            (⟦<Works<L> as AsWorks>⟧.fields self.new) (⟦<Works<L> as AsWorks>⟧.may_read self.new)
            workers.new) }
        ensures as_before { OnErr result (KeepsAsBefore
            (⟦<Works<L> as AsWorks>⟧.fields self.old) (⟦<Works<L> as AsWorks>⟧.may_read self.old)
            (⟦<Works<L> as AsWorks>⟧.fields self.new) (⟦<Works<L> as AsWorks>⟧.may_read self.new)) }
        ensures workers_as_before { OnErr result (KeepsWorkersAsBefore
            (⟦<Works<L> as AsWorks>⟧.fields self.old) (⟦<Works<L> as AsWorks>⟧.may_read self.old)
            workers.old workers.new) }
        ensures disks { DisksGoOn (⟦<Works<L> as AsWorks>⟧.fields self.old)
            (⟦<Works<L> as AsWorks>⟧.fields self.new) }
    {
        workers.catch_up(self.events.as_slice())?;
        match self.outlook(name, workers) {
            Outlook::GoesOn => self.go(line, name, bodies, workers, servers),
            Outlook::Waits => Ok(None),
            Outlook::Over => {
                workers.pass_over(name);
                Ok(None)
            }
        }
    }

    /// These actions have their turns, in order. If memory runs out, the first of them had theirs.
    #[tactic(none)]
    pub(crate) fn take_turns<R: DataType, Q: DataType, C: DataType>(
        &mut self,
        line: u32,
        names: &[Name],
        bodies: &Bodies,
        workers: &mut Workers,
        servers: &mut Servers<R, Q, C>,
    ) -> Result<(), NoMemory>
        requires turns { AreTurnsOfSome names.now bodies.now
            (⟦<Works<L> as AsWorks>⟧.fields self.old) (⟦<Works<L> as AsWorks>⟧.may_read self.old)
            workers.old }
        ensures turns { OnOk result (HaveHadTurns line names.now bodies.now
            (⟦<Works<L> as AsWorks>⟧.fields self.old) (⟦<Works<L> as AsWorks>⟧.may_read self.old)
            workers.old
            (⟦<Works<L> as AsWorks>⟧.fields self.new) (⟦<Works<L> as AsWorks>⟧.may_read self.new)
            workers.new) }
        ensures part { OnErr result (HaveHadSomeTurns line names.now bodies.now
            (⟦<Works<L> as AsWorks>⟧.fields self.old) (⟦<Works<L> as AsWorks>⟧.may_read self.old)
            workers.old
            (⟦<Works<L> as AsWorks>⟧.fields self.new) (⟦<Works<L> as AsWorks>⟧.may_read self.new)
            workers.new) }
        ensures disks { DisksGoOn (⟦<Works<L> as AsWorks>⟧.fields self.old)
            (⟦<Works<L> as AsWorks>⟧.fields self.new) }
    {
        for name in names {
            self.take_turn(line, name, bodies, workers, servers)?;
        }
        Ok(())
    }
}
