//! A node restarts: its disk does all calls again, and it goes on from what its log keeps.
ghost use Rattle.std.specs.Prelude.{◌≡◌, ◌+◌, ◌≤◌, ◌<◌, ◌++◌, ◌∷◌, [], IfOk, IfSome, IsFalse, IsTrue, OnErr, OnOk, None, if◌then◌else◌, eqb, filter, length, not, set, slice_get, false, vec_capacity, vec_len};
ghost use Rattle.std.specs.List.{AllByRecursion};
ghost use Rattle.cam_node.specs.Calls.{answers};
ghost use Rattle.cam_node.specs.Found.{FindsBy, HasRestarted};
ghost use Rattle.cam_node.specs.Opened.{MayRead};
ghost use Rattle.cam_wire.specs.Writable.{IsWritable};
ghost use Rattle.cam_cluster.specs.OpenHalts.{events_found, halts_found, marks_found, open_halt_of};
ghost use Rattle.cam_cluster.specs.Failing.{DisksGoOn};
ghost use Rattle.cam_cluster.specs.Puts.{KeepsAsBefore};
ghost use Rattle.cam_cluster.specs.Restarts.{HasFoundByStop, HasRestartedAs};

use super::found::mark_taken;
use super::undecided::{close, newest_of, take_found};
use super::{AsWorks, Works, is_halted};
use crate::telling::TellingLog;
use cam_base::NoMemory;
use cam_ckpt::CheckpointLog;
use cam_event::{Event, SentList};
use cam_log::{EntryLog, StopLog};
use cam_node::{Node, NodeFault, Restarted, Stepped};

/// How a restart of a node ended.
#[derive(Clone, Copy, Debug)]
pub(crate) enum Restart {
    /// It stands, and what the node had halted at was not taken.
    Stood,
    /// It stands, and the log has the event at which the node had halted: the event stands at its place.
    Found,
    /// It failed: the node's disk has failed, or memory ran out, and the node is halted. The run ends there: of what else the works
    /// keep then nothing is said.
    Failed,
}

/// The event that a restart found of the halt before it: none if the node was not halted.
fn of_halted(was_halted: bool, found: Option<Event>) -> Option<Event>
    ensures { result ≡ (if was_halted then found else None) }
{
    if was_halted { found } else { None }
}

/// Lets a node's disk do all calls again, and restarts the node.
#[tactic(none)]
fn restart_cleared<L: CheckpointLog + StopLog>(node: &mut Node<L>) -> Result<Restarted, NodeFault>
    ensures restarted { IfOk result (λ restarted. HasRestarted node.old.objects
        node.old.core.number (L.tells node.old.log.log)
        (MayRead (L.opens_since node.old.log.log) (L.moment node.old.log.log))
        (answers node.old.core) node.old.halted_at
        (answers node.new.core) (L.listed node.new.log.log) restarted) }
    ensures letters { IfOk result (λ restarted. restarted.stepped.letters ≡ []) }
    ensures runs { OnOk result (IsFalse node.new.log.halted) }
    ensures goes_on { OnOk result (node.new.halted_at ≡ None) }
    ensures found { IsTrue (L.tells node.old.log.log) → IfOk result (λ restarted.
        FindsBy node.old.objects node.old.core.number (answers node.old.core) node.old.halted_at
        (L.reads node.old.log.log) restarted.found) }
    ensures passes { L.passes node.new.log.log ≡ None }
    ensures faults_within { L.faults_within node.old.log.log ≤ L.faults_within node.new.log.log }
    ensures tells { L.tells node.new.log.log ≡ L.tells node.old.log.log }
    ensures objects { node.new.objects ≡ node.old.objects }
{
    node.clear();
    node.restart()
}

impl<L: TellingLog> Works<L> {
    /// Restarts the node at a place, halted or not.
    ///
    /// Where its disk tells what it holds, and the restart stands: the node is not halted, and its event is added to the events. If the
    /// log has the event at which the node had halted, that stands at its place before, and the mark of the halt says that it was
    /// taken. If memory runs out before the node restarts all is as it was, but that letters of the event before may have been put.
    #[tactic(none)]
    pub(crate) fn restart(&mut self, place: usize) -> Result<Restart, NoMemory>
        requires place { place < 8 }
        requires there { place < length self.old.nodes.items }
        requires writable { AllByRecursion IsWritable self.old.outbox.unput }
        ensures restarted { IfOk result (λ done. IfSome (slice_get self.old.nodes.items place)
            (λ node. IsTrue (L.tells node.log.log) → HasRestartedAs place
            (⟦<Works<L> as AsWorks>⟧.fields self.old) (⟦<Works<L> as AsWorks>⟧.may_read self.old) done
            (⟦<Works<L> as AsWorks>⟧.fields self.new) (⟦<Works<L> as AsWorks>⟧.may_read self.new))) }
        // It finds the event exactly if a stop let three calls pass.
        ensures by_stop { IfOk result (HasFoundByStop place
            (⟦<Works<L> as AsWorks>⟧.fields self.old) (⟦<Works<L> as AsWorks>⟧.may_read self.old)) }
        ensures disks { DisksGoOn (⟦<Works<L> as AsWorks>⟧.fields self.old)
            (⟦<Works<L> as AsWorks>⟧.fields self.new) }
        ensures as_before { OnErr result (KeepsAsBefore
            (⟦<Works<L> as AsWorks>⟧.fields self.old) (⟦<Works<L> as AsWorks>⟧.may_read self.old)
            (⟦<Works<L> as AsWorks>⟧.fields self.new) (⟦<Works<L> as AsWorks>⟧.may_read self.new)) }
    {
        self.make_room()?;
        let was_halted = is_halted(&self.halted, place);
        let before = self.nodes[place].log().failures();
        match restart_cleared(&mut self.nodes[place]) {
            Ok(restarted) => {
                self.failed = self.failed_since(place, before);
                match of_halted(was_halted, restarted.found.event) {
                    Some(event) => {
                        self.put_in(place, event);
                        self.go_on(place, restarted.stepped);
                        Ok(Restart::Found)
                    }
                    None => {
                        self.go_on(place, restarted.stepped);
                        Ok(Restart::Stood)
                    }
                }
            }
            Err(_) => {
                self.failed = self.failed_since(place, before);
                // its disk does all calls: if none of them failed, memory ran out
                self.failed = self.failed.after_restart(place);
                self.halted[place] = true;
                Ok(Restart::Failed)
            }
        }
    }

    /// The event at which the node at a place had halted stands at its place.
    fn put_in(&mut self, place: usize, event: Event)
        requires place { place < 8 }
        requires room { (vec_len self.old.events.events + 1 < vec_capacity self.old.events.events)
            × (vec_len self.old.events.counts + 1 < vec_capacity self.old.events.counts) }
        ensures nodes { self.new.nodes ≡ self.old.nodes }
        ensures halted { self.new.halted ≡ self.old.halted }
        ensures failed { self.new.failed ≡ self.old.failed }
        ensures undecided { self.new.undecided.items ≡ halts_found (place + 1)
            (open_halt_of (place + 1) self.old.undecided.items) self.old.undecided.items }
        ensures events { self.new.events.events.items ≡ events_found
            (open_halt_of (place + 1) self.old.undecided.items) event self.old.events.events.items }
        ensures marks { self.new.marks.items ≡ marks_found (place + 1)
            (open_halt_of (place + 1) self.old.undecided.items) self.old.marks.items }
        ensures outbox { self.new.outbox ≡ self.old.outbox }
        ensures still_room { (vec_len self.new.events.events < vec_capacity self.new.events.events)
            × (vec_len self.new.events.counts < vec_capacity self.new.events.counts) }
    {
        let node = place as u8 + 1;
        if let Some(halt) = newest_of(&self.undecided, node) {
            let taken = Event {
                node: event.node,
                got: halt.got,
                deeds: event.deeds,
                sent: SentList::new(self.events.allocator()),
                note: event.note,
            };
            self.events.insert(halt.before, taken);
            take_found(&mut self.undecided, node, halt.before);
            mark_taken(&mut self.marks, node);
        }
    }

    /// The restart of the node at a place stands: the node is not halted, and no halt of it is undecided.
    fn go_on(&mut self, place: usize, stepped: Stepped)
        requires place { place < 8 }
        requires room { (vec_len self.old.events.events < vec_capacity self.old.events.events)
            × (vec_len self.old.events.counts < vec_capacity self.old.events.counts) }
        requires none { self.old.outbox.unput ≡ [] }
        ensures nodes { self.new.nodes ≡ self.old.nodes }
        ensures halted { self.new.halted ≡ set self.old.halted place false }
        ensures failed { self.new.failed ≡ self.old.failed }
        ensures undecided { self.new.undecided.items
            ≡ filter (λ halt. not (eqb halt.node (place + 1))) self.old.undecided.items }
        ensures events { self.new.events.events.items
            ≡ self.old.events.events.items ++ stepped.event ∷ [] }
        ensures marks { self.new.marks ≡ self.old.marks }
        ensures outbox { self.new.outbox ≡ record { net = self.old.outbox.net; unput = stepped.letters } }
    {
        self.stand(stepped);
        self.halted[place] = false;
        close(&mut self.undecided, place as u8 + 1);
    }
}
