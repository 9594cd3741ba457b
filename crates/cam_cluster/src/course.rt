//! The course of a script: its lines so far, and the actions that work at its bodies. The next line
//! is taken, whichever kind of line it is.
ghost use Rattle.std.specs.Prelude.{◌≡◌, List};
ghost use Rattle.cam_script.specs.declared.Act.TheVariants as acts;
ghost use Rattle.cam_script.specs.declared.Statement.{Statement};
ghost use Rattle.cam_cluster.specs.Courses.{IsAtWorkLine, IsNextOfCourse, IsStartOf};
ghost use Rattle.cam_cluster.specs.Failing.{DisksGoOn};
ghost use Rattle.cam_cluster.specs.VariableLines.{IsNextOfSome};

use crate::LineFault;
use crate::lines::{AsLines, Lines};
use crate::servers::Servers;
use crate::telling::TellingLog;
use crate::workers::Workers;
use crate::works::{Restart, give_body};
use cam_base::NoMemory;
use cam_ckpt::CheckpointLog;
use cam_script::{Act, Bodies, Step};
use cam_type::DataType;
use cam_wire::WireFault;
use thiserror::Error;

/// The lines of a script so far, and the actions that work at its bodies.
#[derive(Drop)]
pub(crate) struct Course<L: CheckpointLog> {
    pub(crate) lines: Lines<L>,
    pub(crate) workers: Workers,
}

/// Why a line of a course did not do all of what it says.
#[derive(Clone, Copy, Debug, Error)]
pub(crate) enum CourseFault {
    #[error("the line was not taken")]
    Line(LineFault),
    /// A node's disk failed while it restarted, or memory ran out: the run ends there.
    #[error("a restart failed")]
    RestartFailed,
}

impl From<LineFault> for CourseFault {
    ghost use Rattle.cam_cluster.specs.declared.course.CourseFault.TheVariants.{Line};

    ghost from_gives = { λ fault e. e ≡ Line fault };

    fn from(fault: LineFault) -> CourseFault {
        CourseFault::Line(fault)
    }
}

impl From<NoMemory> for CourseFault {
    ghost use Rattle.cam_cluster.specs.declared.LineFault.TheVariants.{NoMemory as LineNoMemory};
    ghost use Rattle.cam_cluster.specs.declared.course.CourseFault.TheVariants.{Line};

    ghost from_gives = { λ _ e. e ≡ Line LineNoMemory };

    fn from(_: NoMemory) -> CourseFault {
        CourseFault::Line(LineFault::NoMemory)
    }
}

impl<L: TellingLog> Course<L> {
    /// Takes the next line of the script, by its kind. It leads on, and returns the fault of a letter that it cut short. Or it is
    /// refused, by the first test that fails. Or memory runs out, and all is as before, except that some inputs of a drain or a play may
    /// have been taken. Or a restart fails, and it is known what has failed by itself.
    #[tactic(none)]
    pub(crate) fn take<R: DataType, Q: DataType, C: DataType>(
        &mut self,
        step: &Step,
        bodies: &Bodies,
        servers: &mut Servers<R, Q, C>,
    ) -> Result<Option<WireFault>, CourseFault>
        requires next { IsNextOfCourse step.now bodies.now
            (⟦<Lines<L> as AsLines>⟧.fields self.old.lines)
            (⟦<Lines<L> as AsLines>⟧.may_read self.old.lines) self.old.workers }
        ensures line { IsAtWorkLine step.now bodies.now
            (⟦<Lines<L> as AsLines>⟧.fields self.old.lines)
            (⟦<Lines<L> as AsLines>⟧.may_read self.old.lines) self.old.workers
            (⟦<Lines<L> as AsLines>⟧.fields self.new.lines)
            (⟦<Lines<L> as AsLines>⟧.may_read self.new.lines) self.new.workers result }
        ensures disks { DisksGoOn (⟦<Lines<L> as AsLines>⟧.fields self.old.lines).works
            (⟦<Lines<L> as AsLines>⟧.fields self.new.lines).works }
    {
        match step.act {
            Act::Start { body, .. } => self.start(step, body, servers),
            Act::Go { action } => self.go(step.line, action, bodies, servers),
            Act::Restart { node } => self.restart(step.line, node),
            Act::Play => self.play(step.line, bodies, servers),
            Act::Stop { node, calls } => self.stop(step.line, node, calls),
            _ => Ok(self.lines.take(step, servers)?),
        }
    }

    /// `start`: the action that the line creates, if it creates one, is given its body.
    #[tactic(none)]
    fn start<R: DataType, Q: DataType, C: DataType>(
        &mut self,
        step: &Step,
        body: u8,
        servers: &mut Servers<R, Q, C>,
    ) -> Result<Option<WireFault>, CourseFault>
        requires start { IsStartOf body step.now.act }
        requires next { IsNextOfSome step.now.line step.now.act
            (⟦<Lines<L> as AsLines>⟧.fields self.old.lines)
            (⟦<Lines<L> as AsLines>⟧.may_read self.old.lines) }
        ensures line { (bodies : List (List Statement)) → IsAtWorkLine step.now bodies
            (⟦<Lines<L> as AsLines>⟧.fields self.old.lines)
            (⟦<Lines<L> as AsLines>⟧.may_read self.old.lines) self.old.workers
            (⟦<Lines<L> as AsLines>⟧.fields self.new.lines)
            (⟦<Lines<L> as AsLines>⟧.may_read self.new.lines) self.new.workers result }
        ensures disks { DisksGoOn (⟦<Lines<L> as AsLines>⟧.fields self.old.lines).works
            (⟦<Lines<L> as AsLines>⟧.fields self.new.lines).works }
    {
        self.workers.reserve()?;
        let bad = self.lines.take(step, servers)?;
        give_body(&mut self.workers, self.lines.newest(), Some(body));
        Ok(bad)
    }

    /// `go`: an action makes the next request of its body, if it makes one now.
    #[tactic(none)]
    fn go<R: DataType, Q: DataType, C: DataType>(
        &mut self,
        line: u32,
        action: u32,
        bodies: &Bodies,
        servers: &mut Servers<R, Q, C>,
    ) -> Result<Option<WireFault>, CourseFault>
        requires next { IsNextOfCourse (record { line = line; act = acts.Go action }) bodies.now
            (⟦<Lines<L> as AsLines>⟧.fields self.old.lines)
            (⟦<Lines<L> as AsLines>⟧.may_read self.old.lines) self.old.workers }
        ensures line { IsAtWorkLine (record { line = line; act = acts.Go action }) bodies.now
            (⟦<Lines<L> as AsLines>⟧.fields self.old.lines)
            (⟦<Lines<L> as AsLines>⟧.may_read self.old.lines) self.old.workers
            (⟦<Lines<L> as AsLines>⟧.fields self.new.lines)
            (⟦<Lines<L> as AsLines>⟧.may_read self.new.lines) self.new.workers result }
        ensures disks { DisksGoOn (⟦<Lines<L> as AsLines>⟧.fields self.old.lines).works
            (⟦<Lines<L> as AsLines>⟧.fields self.new.lines).works }
    {
        self.lines
            .go(line, action, bodies, &mut self.workers, servers)?;
        Ok(None)
    }

    /// `play`: rounds, in each of which the actions at bodies make their next requests and the letters that wait are delivered, until the
    /// first without an input.
    #[tactic(none)]
    fn play<R: DataType, Q: DataType, C: DataType>(
        &mut self,
        line: u32,
        bodies: &Bodies,
        servers: &mut Servers<R, Q, C>,
    ) -> Result<Option<WireFault>, CourseFault>
        requires next { IsNextOfCourse (record { line = line; act = acts.Play }) bodies.now
            (⟦<Lines<L> as AsLines>⟧.fields self.old.lines)
            (⟦<Lines<L> as AsLines>⟧.may_read self.old.lines) self.old.workers }
        ensures line { IsAtWorkLine (record { line = line; act = acts.Play }) bodies.now
            (⟦<Lines<L> as AsLines>⟧.fields self.old.lines)
            (⟦<Lines<L> as AsLines>⟧.may_read self.old.lines) self.old.workers
            (⟦<Lines<L> as AsLines>⟧.fields self.new.lines)
            (⟦<Lines<L> as AsLines>⟧.may_read self.new.lines) self.new.workers result }
        ensures disks { DisksGoOn (⟦<Lines<L> as AsLines>⟧.fields self.old.lines).works
            (⟦<Lines<L> as AsLines>⟧.fields self.new.lines).works }
    {
        self.lines.play(line, bodies, &mut self.workers, servers)?;
        Ok(None)
    }

    /// `stop`: the disk of a node does so many calls more.
    #[tactic(none)]
    fn stop(&mut self, line: u32, node: u8, calls: u32) -> Result<Option<WireFault>, CourseFault>
        requires next { IsNextOfSome line (acts.Stop node calls)
            (⟦<Lines<L> as AsLines>⟧.fields self.old.lines)
            (⟦<Lines<L> as AsLines>⟧.may_read self.old.lines) }
        ensures line { (bodies : List (List Statement)) → IsAtWorkLine
            (record { line = line; act = acts.Stop node calls }) bodies
            (⟦<Lines<L> as AsLines>⟧.fields self.old.lines)
            (⟦<Lines<L> as AsLines>⟧.may_read self.old.lines) self.old.workers
            (⟦<Lines<L> as AsLines>⟧.fields self.new.lines)
            (⟦<Lines<L> as AsLines>⟧.may_read self.new.lines) self.new.workers result }
        ensures disks { DisksGoOn (⟦<Lines<L> as AsLines>⟧.fields self.old.lines).works
            (⟦<Lines<L> as AsLines>⟧.fields self.new.lines).works }
    {
        self.lines.stop(line, node, calls)?;
        Ok(None)
    }

    /// `restart`: a node goes on from what its log keeps. If the log has the event at which the node had halted, that event is inserted
    /// among the others, and the actions at bodies take in all events again.
    #[tactic(none)]
    fn restart(&mut self, line: u32, node: u8) -> Result<Option<WireFault>, CourseFault>
        requires next { IsNextOfSome line (acts.Restart node)
            (⟦<Lines<L> as AsLines>⟧.fields self.old.lines)
            (⟦<Lines<L> as AsLines>⟧.may_read self.old.lines) }
        ensures line { (bodies : List (List Statement)) → IsAtWorkLine
            (record { line = line; act = acts.Restart node }) bodies
            (⟦<Lines<L> as AsLines>⟧.fields self.old.lines)
            (⟦<Lines<L> as AsLines>⟧.may_read self.old.lines) self.old.workers
            (⟦<Lines<L> as AsLines>⟧.fields self.new.lines)
            (⟦<Lines<L> as AsLines>⟧.may_read self.new.lines) self.new.workers result }
        ensures disks { DisksGoOn (⟦<Lines<L> as AsLines>⟧.fields self.old.lines).works
            (⟦<Lines<L> as AsLines>⟧.fields self.new.lines).works }
    {
        match self.lines.restart(node)? {
            Restart::Stood => Ok(None),
            Restart::Found => {
                self.workers.forget();
                Ok(None)
            }
            Restart::Failed => Err(CourseFault::RestartFailed),
        }
    }
}
