//! The rounds of a play: in each, every action with a body makes its next request where it may go on, and the letters that wait are
//! handed over. Actions that are known to be over get no turn. The rounds go on until one puts no input.
ghost use Rattle.std.specs.Prelude.{◌≡◌, ◌||◌, IfOk, OnErr, OnOk, length, nat_lt};
ghost use Rattle.cam_runs.specs.HaltedPlaying.{play};
ghost use Rattle.cam_cluster.specs.Failing.{DisksGoOn};
ghost use Rattle.cam_cluster.specs.Making.{HaveMade};
ghost use Rattle.cam_cluster.specs.Plays.{HasPlayedPart, HasPlayedRound, HasPlayedSome, IsPlayOfSome, all_turns};

use super::{AsWorks, Works};
use crate::servers::Servers;
use crate::telling::TellingLog;
use crate::workers::Workers;
use cam_base::NoMemory;
use cam_script::Bodies;
use cam_type::DataType;

/// How many rounds a play has at most: the bodies of a script make at most 512 requests, the first round may hand over letters alone,
/// and each later one but the last has a request.
const MOST_ROUNDS: usize = 514;

impl<L: TellingLog> Works<L> {
    /// Whether there are more events than so many, or more marks.
    fn has_more(&self, events: usize, marks: usize) -> bool
        ensures { result ≡ (nat_lt events (length self.now.events.events.items)
            || nat_lt marks (length self.now.marks.items)) }
    {
        self.events.len() > events || self.marks.len() > marks
    }

    /// The actions that play on have their turns, in order of their names: all with a body, but for some that are over, which comes to
    /// the turns of all. If memory runs out, the first of them had theirs.
    #[tactic(none)]
    fn take_all_turns<R: DataType, Q: DataType, C: DataType>(
        &mut self,
        line: u32,
        bodies: &Bodies,
        workers: &mut Workers,
        servers: &mut Servers<R, Q, C>,
    ) -> Result<(), NoMemory>
        requires play { IsPlayOfSome bodies.now (⟦<Works<L> as AsWorks>⟧.fields self.old)
            (⟦<Works<L> as AsWorks>⟧.may_read self.old) workers.old }
        ensures turns { OnOk result (HaveMade all_turns line bodies.now
            (⟦<Works<L> as AsWorks>⟧.fields self.old) (⟦<Works<L> as AsWorks>⟧.may_read self.old)
            workers.old
            (⟦<Works<L> as AsWorks>⟧.fields self.new) (⟦<Works<L> as AsWorks>⟧.may_read self.new)
            workers.new) }
        ensures part { OnErr result (HasPlayedSome line bodies.now
            (⟦<Works<L> as AsWorks>⟧.fields self.old) (⟦<Works<L> as AsWorks>⟧.may_read self.old)
            workers.old
            (⟦<Works<L> as AsWorks>⟧.fields self.new) (⟦<Works<L> as AsWorks>⟧.may_read self.new)
            workers.new) }
        ensures disks { DisksGoOn (⟦<Works<L> as AsWorks>⟧.fields self.old)
            (⟦<Works<L> as AsWorks>⟧.fields self.new) }
    {
        workers.catch_up(self.events.as_slice())?;
        let names = workers.names()?;
        self.take_turns(line, names.as_slice(), bodies, workers, servers)
    }

    /// One round, and whether an input was put in it: each makes an event, or leaves the mark of a halt. If memory runs out, the
    /// first actions had their turns, and some letters were handed over after them.
    #[tactic(none)]
    fn play_round<R: DataType, Q: DataType, C: DataType>(
        &mut self,
        line: u32,
        bodies: &Bodies,
        workers: &mut Workers,
        servers: &mut Servers<R, Q, C>,
    ) -> Result<bool, NoMemory>
        requires play { IsPlayOfSome bodies.now (⟦<Works<L> as AsWorks>⟧.fields self.old)
            (⟦<Works<L> as AsWorks>⟧.may_read self.old) workers.old }
        ensures round { IfOk result (λ puts_one. HasPlayedRound line bodies.now
            (⟦<Works<L> as AsWorks>⟧.fields self.old) (⟦<Works<L> as AsWorks>⟧.may_read self.old)
            workers.old puts_one
            (⟦<Works<L> as AsWorks>⟧.fields self.new) (⟦<Works<L> as AsWorks>⟧.may_read self.new)
            workers.new) }
        ensures part { OnErr result (HasPlayedSome line bodies.now
            (⟦<Works<L> as AsWorks>⟧.fields self.old) (⟦<Works<L> as AsWorks>⟧.may_read self.old)
            workers.old
            (⟦<Works<L> as AsWorks>⟧.fields self.new) (⟦<Works<L> as AsWorks>⟧.may_read self.new)
            workers.new) }
        ensures disks { DisksGoOn (⟦<Works<L> as AsWorks>⟧.fields self.old)
            (⟦<Works<L> as AsWorks>⟧.fields self.new) }
    {
        let events = self.events.len();
        let marks = self.marks.len();
        self.take_all_turns(line, bodies, workers, servers)?;
        self.drain(line, servers)?;
        Ok(self.has_more(events, marks))
    }

    /// Rounds until the first without an input. If memory runs out, some rounds are whole, and a part of the next one.
    #[tactic(none)]
    pub(crate) fn play<R: DataType, Q: DataType, C: DataType>(
        &mut self,
        line: u32,
        bodies: &Bodies,
        workers: &mut Workers,
        servers: &mut Servers<R, Q, C>,
    ) -> Result<(), NoMemory>
        requires play { IsPlayOfSome bodies.now (⟦<Works<L> as AsWorks>⟧.fields self.old)
            (⟦<Works<L> as AsWorks>⟧.may_read self.old) workers.old }
        ensures played { OnOk result (HaveMade play line bodies.now
            (⟦<Works<L> as AsWorks>⟧.fields self.old) (⟦<Works<L> as AsWorks>⟧.may_read self.old)
            workers.old
            (⟦<Works<L> as AsWorks>⟧.fields self.new) (⟦<Works<L> as AsWorks>⟧.may_read self.new)
            workers.new) }
        ensures part { OnErr result (HasPlayedPart line bodies.now
            (⟦<Works<L> as AsWorks>⟧.fields self.old) (⟦<Works<L> as AsWorks>⟧.may_read self.old)
            workers.old
            (⟦<Works<L> as AsWorks>⟧.fields self.new) (⟦<Works<L> as AsWorks>⟧.may_read self.new)
            workers.new) }
        ensures disks { DisksGoOn (⟦<Works<L> as AsWorks>⟧.fields self.old)
            (⟦<Works<L> as AsWorks>⟧.fields self.new) }
    {
        for _ in 0..MOST_ROUNDS {
            let puts_one = self.play_round(line, bodies, workers, servers)?;
            if !puts_one {
                return Ok(());
            }
        }
        Ok(())
    }
}
