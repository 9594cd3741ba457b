//! `go A`: the action that a variable stands for makes the next request of its body, if it makes one now. The line is refused where no
//! action stands for the variable, where the action's home is halted, and where the action has ended, waits, or is not open there.
ghost use Rattle.cam_cluster.specs.Failing.{DisksGoOn};
ghost use Rattle.cam_cluster.specs.GoLines.{IsGoOfSome, IsLineOfGo};

use super::{AsLines, Lines};
use crate::LineFault;
use crate::room::{push_reserved, reserve_one};
use crate::servers::Servers;
use crate::telling::TellingLog;
use crate::workers::Workers;
use crate::works::{Put, is_halted};
use cam_event::{LineRefusal, Request, Want};
use cam_node::Input;
use cam_script::Bodies;
use cam_type::DataType;

impl<L: TellingLog> Lines<L> {
    /// An action makes the next request of its body, if it makes one now. Its home tests it as it tests a request to commit.
    #[tactic(none)]
    pub(crate) fn go<R: DataType, Q: DataType, C: DataType>(
        &mut self,
        line: u32,
        action: u32,
        bodies: &Bodies,
        workers: &mut Workers,
        servers: &mut Servers<R, Q, C>,
    ) -> Result<Option<Put>, LineFault>
        requires go { IsGoOfSome line action bodies.now (⟦<Lines<L> as AsLines>⟧.fields self.old)
            (⟦<Lines<L> as AsLines>⟧.may_read self.old) workers.old }
        ensures line { IsLineOfGo line action bodies.now
            (⟦<Lines<L> as AsLines>⟧.fields self.old) (⟦<Lines<L> as AsLines>⟧.may_read self.old)
            workers.old
            (⟦<Lines<L> as AsLines>⟧.fields self.new) (⟦<Lines<L> as AsLines>⟧.may_read self.new)
            workers.new result }
        ensures disks { DisksGoOn (⟦<Lines<L> as AsLines>⟧.fields self.old).works
            (⟦<Lines<L> as AsLines>⟧.fields self.new).works }
    {
        let Some(name) = self.action_of(action) else {
            return Err(self.refused(line, LineRefusal::Unbound));
        };
        let place = name.home().0 as usize - 1;
        if is_halted(&self.works.halted, place) {
            return Err(self.refused(line, LineRefusal::Halted));
        }
        let tested = Input::Request(Request {
            action: name,
            want: Want::Commit(0),
        });
        if let Some(refusal) = self.works.nodes[place].refusal(&tested) {
            return Err(self.refused(line, refusal));
        }
        reserve_one(&mut self.bound)?;
        let done = self.works.go(line, &name, bodies, workers, servers)?;
        push_reserved(&mut self.bound, &None);
        Ok(done)
    }
}
