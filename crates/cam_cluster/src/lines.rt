//! The lines of a script so far: the works, and the action that the variable of each line means. A line of one input gives it to its
//! node; a refused line leaves its mark.
ghost use Rattle.std.specs.Prelude.{◌≡◌, ◌<◌, ◌++◌, ◌∷◌, [], IfOk, IfSome, IsErrOf, IsFalse, IsTrue, OnErr, OnOk, length, reverse, slice_get};
ghost use Rattle.std.specs.List.{AllByRecursion};
ghost use Rattle.cam_event.specs.declared.Deed.{Deed};
ghost use Rattle.cam_runs.specs.Requests.{asked_in, created_in, newest_deeds};
ghost use Rattle.cam_node.specs.MayStep.{MayStep};
ghost use Rattle.cam_node.specs.Refused.{IsNotRefused};
ghost use Rattle.cam_node.specs.Calls.{answers};
ghost use Rattle.cam_wire.specs.Writable.{IsWritable};
ghost use Rattle.cam_cluster.specs.Failing.{DisksGoOn};
ghost use Rattle.cam_cluster.specs.SoFar.{HasLed, HasRefused, IsBinding, KeepsLinesAsBefore, bound_by};

mod begin;
mod cut;
mod deliver;
mod drain;
mod go;
mod letters;
mod lose;
mod new;
mod one_input;
mod play;
mod query;
mod requests;
mod restart;
mod start;
mod stop;
mod take;
mod tell;

use crate::room::{push_reserved, reserve_one};
use crate::servers::Servers;
use crate::telling::TellingLog;
use crate::works::{AsWorks, Put, Works};
use cam_base::NoMemory;
use cam_ckpt::CheckpointLog;
use cam_event::{Deed, Deeds, Event, LineRefusal, Mark};
use cam_log::EntryLog;
use cam_names::Name;
use cam_node::Input;
use cam_type::DataType;

/// The works of a cluster, and for each line so far the action that its variable means.
#[derive(Drop)]
pub(crate) struct Lines<L: CheckpointLog> {
    pub(crate) works: Works<L>,
    pub(crate) bound: Vec<Option<Name>>,
}

/// What contracts see of lines.
pub(crate) trait AsLines {
    ghost use Rattle.std.specs.Prelude.{ℕ};
    ghost use Rattle.cam_node.specs.Log.{Logged};
    ghost use Rattle.cam_cluster.specs.SoFar.{LinesFields};

    ghost fields: { Self → LinesFields };

    ghost may_read: { Self → ℕ → Logged → Type 0 };
}

impl<L: CheckpointLog> AsLines for Lines<L> {
    ghost use Rattle.std.specs.Prelude.{map};
    ghost use Rattle.cam_node.specs.Calls.{answers};
    ghost use Rattle.cam_node.specs.Opened.{MayRead};
    ghost use Rattle.cam_cluster.specs.Works.{MayReadAt};

    ghost fields = { λ lines. record {
      works = ⟦<Works<L> as AsWorks>⟧.fields lines.works;
      bound = lines.bound.items;
    } };

    ghost may_read = { λ lines. ⟦<Works<L> as AsWorks>⟧.may_read lines.works };
}

/// The action that these deeds create first.
fn created(deeds: &Deeds) -> Option<Name>
    ensures { result ≡ created_in deeds.now }
{
    match deeds.get(0) {
        Some(Deed::Create { action }) => Some(*action),
        _ => None,
    }
}

/// The child for which these deeds ask first.
fn asked(deeds: &Deeds) -> Option<Name>
    ensures { result ≡ asked_in deeds.now }
{
    match deeds.get(0) {
        Some(Deed::Ask { child, .. }) => Some(*child),
        _ => None,
    }
}

/// What a line binds its variable to, by what its input made.
fn bound_by(input: &Input, deeds: &Deeds) -> Option<Name>
    ensures { result ≡ bound_by input.now deeds.now }
{
    match input {
        Input::Begin => created(deeds),
        Input::Request(_) => asked(deeds),
        Input::Letter(_, _) | Input::Tell(_) | Input::Query(_) => None,
    }
}

/// What a line binds its variable to, by the newest of these events.
fn bound_by_newest(input: &Input, events: &[Event]) -> Option<Name>
    ensures { result ≡ bound_by input.now (newest_deeds (reverse events.now)) }
{
    match events.last() {
        Some(event) => bound_by(input, &event.deeds),
        None => None,
    }
}

/// What a line binds its variable to, by how its input ended.
pub(crate) fn bound_after(done: Put, input: &Input, events: &[Event]) -> Option<Name>
    ensures { IsBinding input.now events.now done result }
{
    match done {
        Put::Stood => bound_by_newest(input, events),
        Put::Halted => None,
    }
}

impl<L: TellingLog> Lines<L> {
    /// Gives the input of a line to the node at a place, which does not refuse it, and binds the line's variable. If memory runs out,
    /// the lines are as before.
    #[tactic(none)]
    pub(crate) fn lead<R: DataType, Q: DataType, C: DataType>(
        &mut self,
        line: u32,
        place: usize,
        input: &Input,
        servers: &mut Servers<R, Q, C>,
    ) -> Result<Put, NoMemory>
        requires place { place < 8 }
        requires may { IfSome (slice_get self.old.works.nodes.items place) (λ node.
            IsFalse node.log.halted × IsNotRefused (answers node.core) input.now
            × MayStep (answers node.core) input.now) }
        requires there { place < length self.old.works.nodes.items }
        requires writable { AllByRecursion IsWritable self.old.works.outbox.unput }
        ensures led { IfOk result (λ done. HasLed line place input.now
            (⟦<Lines<L> as AsLines>⟧.fields self.old) (⟦<Lines<L> as AsLines>⟧.may_read self.old) done
            (⟦<Lines<L> as AsLines>⟧.fields self.new) (⟦<Lines<L> as AsLines>⟧.may_read self.new)) }
        ensures as_before { OnErr result (KeepsLinesAsBefore
            (⟦<Lines<L> as AsLines>⟧.fields self.old) (⟦<Lines<L> as AsLines>⟧.may_read self.old)
            (⟦<Lines<L> as AsLines>⟧.fields self.new) (⟦<Lines<L> as AsLines>⟧.may_read self.new)) }
        ensures disks { DisksGoOn (⟦<Lines<L> as AsLines>⟧.fields self.old).works
            (⟦<Lines<L> as AsLines>⟧.fields self.new).works }
    {
        reserve_one(&mut self.bound)?;
        let done = self.works.put(line, place, input, servers)?;
        let binds = bound_after(done, input, self.works.events.as_slice());
        push_reserved(&mut self.bound, &binds);
        Ok(done)
    }

    /// The line is refused by this test: it leaves a mark, and its variable means nothing.
    #[tactic(none)]
    pub(crate) fn refuse(&mut self, line: u32, refusal: LineRefusal) -> Result<(), NoMemory>
        ensures refused { OnOk result (HasRefused line refusal
            (⟦<Lines<L> as AsLines>⟧.fields self.old) (⟦<Lines<L> as AsLines>⟧.may_read self.old)
            (⟦<Lines<L> as AsLines>⟧.fields self.new) (⟦<Lines<L> as AsLines>⟧.may_read self.new)) }
        ensures as_before { OnErr result (KeepsLinesAsBefore
            (⟦<Lines<L> as AsLines>⟧.fields self.old) (⟦<Lines<L> as AsLines>⟧.may_read self.old)
            (⟦<Lines<L> as AsLines>⟧.fields self.new) (⟦<Lines<L> as AsLines>⟧.may_read self.new)) }
        ensures disks { DisksGoOn (⟦<Lines<L> as AsLines>⟧.fields self.old).works
            (⟦<Lines<L> as AsLines>⟧.fields self.new).works }
    {
        reserve_one(&mut self.works.marks)?;
        reserve_one(&mut self.bound)?;
        push_reserved(&mut self.works.marks, &Mark::Refused { line, refusal });
        push_reserved(&mut self.bound, &None);
        Ok(())
    }
}
