//! The next request of an action by its body, put to its home; and the body of the child for which it asks.
ghost use Rattle.std.specs.Prelude.{◌≡◌, ◌<◌, IfOk, None, OnErr, Some, vec_capacity, vec_len};
ghost use Rattle.cam_names.specs.declared.name.Name.{Name as NameFields};
ghost use Rattle.cam_runs.specs.HaltedPlaying.{given_body};
ghost use Rattle.cam_runs.specs.Playing.{body_number};
ghost use Rattle.cam_runs.specs.Standing.{Standing};
ghost use Rattle.cam_cluster.specs.Failing.{DisksGoOn};
ghost use Rattle.cam_cluster.specs.Goes.{GoesOfSome, HasGone, KeepsWorkersAsBefore};
ghost use Rattle.cam_cluster.specs.Puts.{KeepsAsBefore};
ghost use Rattle.cam_cluster.specs.Workers.{AreWorkers};

use super::{AsWorks, Put, Works};
use crate::lines::bound_after;
use crate::servers::Servers;
use crate::telling::TellingLog;
use crate::workers::{Intention, Workers};
use cam_base::NoMemory;
use cam_body::Next;
use cam_event::{Request, Want};
use cam_names::Name;
use cam_node::Input;
use cam_script::Bodies;
use cam_type::DataType;

/// Gives the body to the action, where there are both. There has to be room.
pub(crate) fn give_body(workers: &mut Workers, action: Option<Name>, body: Option<u8>)
    requires { vec_len workers.old.given < vec_capacity workers.old.given }
    ensures { (st : Standing)
        → ((a : NameFields) → action ≡ Some a → body_number st.running.bodies a ≡ None)
        → AreWorkers st workers.old → AreWorkers (given_body body action st) workers.new }
{
    if let Some(name) = action {
        if let Some(body) = body {
            workers.give(&name, body);
        }
    }
}

impl<L: TellingLog> Works<L> {
    /// An action makes the next request of its body, if it makes one now. If memory runs out, the works and the workers stand as
    /// before.
    #[tactic(none)]
    pub(crate) fn go<R: DataType, Q: DataType, C: DataType>(
        &mut self,
        line: u32,
        name: &Name,
        bodies: &Bodies,
        workers: &mut Workers,
        servers: &mut Servers<R, Q, C>,
    ) -> Result<Option<Put>, NoMemory>
        requires goes { GoesOfSome name.now bodies.now (⟦<Works<L> as AsWorks>⟧.fields self.old)
            (⟦<Works<L> as AsWorks>⟧.may_read self.old) workers.old }
        ensures gone { IfOk result (λ done. HasGone line name.now bodies.now
            (⟦<Works<L> as AsWorks>⟧.fields self.old) (⟦<Works<L> as AsWorks>⟧.may_read self.old)
            workers.old done
            (⟦<Works<L> as AsWorks>⟧.fields self.new) (⟦<Works<L> as AsWorks>⟧.may_read self.new)
            workers.new) }
        ensures as_before { OnErr result (KeepsAsBefore
            (⟦<Works<L> as AsWorks>⟧.fields self.old) (⟦<Works<L> as AsWorks>⟧.may_read self.old)
            (⟦<Works<L> as AsWorks>⟧.fields self.new) (⟦<Works<L> as AsWorks>⟧.may_read self.new)) }
        ensures workers_as_before { OnErr result (KeepsWorkersAsBefore
            (⟦<Works<L> as AsWorks>⟧.fields self.old) (⟦<Works<L> as AsWorks>⟧.may_read self.old)
            workers.old workers.new) }
        ensures disks { DisksGoOn (⟦<Works<L> as AsWorks>⟧.fields self.old)
            (⟦<Works<L> as AsWorks>⟧.fields self.new) }
    {
        workers.catch_up(self.events.as_slice())?;
        workers.reserve()?;
        let Intention { next, child } = workers.intention(name, bodies);
        match next {
            Next::Request(want) => {
                let input = Input::Request(Request {
                    action: *name,
                    want,
                });
                let place = name.home().0 as usize - 1;
                let done = self.put(line, place, &input, servers)?;
                let asked = bound_after(done, &input, self.events.as_slice());
                give_body(workers, asked, child);
                Ok(Some(done))
            }
            Next::Wait | Next::Over => Ok(None),
        }
    }
}
