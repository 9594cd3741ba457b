//! The nodes of a cluster, the letters between them, and what they did. An input goes to one node: its event is added to the events
//! and its letters are put next, or the node halts.
ghost use Rattle.std.specs.Prelude.{◌≡◌, ◌+◌, ◌≤◌, ◌<◌, ◌++◌, ◌∷◌, [], IfOk, IfSome, IsFalse, OnErr, OnOk, length, set, slice_get, suc, true, false, vec_capacity, vec_len};
ghost use Rattle.cam_event.specs.declared.Mark.TheVariants as marks;
ghost use Rattle.std.specs.List.{AllByRecursion};
ghost use Rattle.cam_net.specs.Outbox.{HasPutSome};
ghost use Rattle.cam_net.specs.Waiting.{is_halted};
ghost use Rattle.cam_node.specs.MayStep.{MayStep};
ghost use Rattle.cam_node.specs.Refused.{IsNotRefused};
ghost use Rattle.cam_node.specs.Calls.{answers};
ghost use Rattle.cam_wire.specs.Writable.{IsWritable};
ghost use Rattle.cam_cluster.specs.Failing.{DisksGoOn, IsAfterHalt};
ghost use Rattle.cam_cluster.specs.Puts.{HasPut, KeepsAsBefore, letter_of};

mod drain;
mod failing;
mod found;
mod go;
mod letters;
mod new;
mod numbered;
mod play;
mod restart;
mod round;
mod stop;
mod undecided;

use crate::founding::AsPart;
use crate::room::{push_reserved, reserve_one};
use crate::servers::Servers;
use crate::telling::TellingLog;
use cam_base::NoMemory;
use cam_ckpt::CheckpointLog;
use cam_event::{LetterId, Mark};
use cam_log::EntryLog;
use cam_net::Outbox;
use cam_node::{Input, Node, NodeFault, Stepped};
use cam_type::DataType;
pub(crate) use failing::Failed;
pub(crate) use go::give_body;
pub(crate) use letters::Coming;
pub(crate) use numbered::NumberedEvents;
pub(crate) use restart::Restart;
pub(crate) use undecided::OpenHalt;
use undecided::open;

/// How an input of a node ended.
#[derive(Clone, Copy, Debug)]
pub(crate) enum Put {
    /// Its event is in the run.
    Stood,
    /// The node halted. What its disk has of the event is read when it restarts.
    Halted,
}

/// The nodes in order, the letters between them, which of the eight nodes are halted, and the events and marks so far.
#[derive(Drop)]
pub(crate) struct Works<L: CheckpointLog> {
    pub(crate) nodes: Vec<Node<L>>,
    pub(crate) outbox: Outbox,
    pub(crate) halted: [bool; 8],
    /// What has failed by itself.
    pub(crate) failed: Failed,
    /// The halts whose nodes have not restarted, so that nobody knows whether they are taken; the newest first.
    pub(crate) undecided: Vec<OpenHalt>,
    pub(crate) events: NumberedEvents,
    pub(crate) marks: Vec<Mark>,
}

/// What contracts see of works.
pub(crate) trait AsWorks {
    ghost use Rattle.std.specs.Prelude.{ℕ};
    ghost use Rattle.cam_node.specs.Log.{Logged};
    ghost use Rattle.cam_cluster.specs.Works.{WorksFields};

    ghost fields: { Self → WorksFields };

    ghost may_read: { Self → ℕ → Logged → Type 0 };
}

impl<L: CheckpointLog> AsWorks for Works<L> {
    ghost use Rattle.std.specs.Prelude.{map};
    ghost use Rattle.cam_node.specs.Opened.{MayRead};
    ghost use Rattle.cam_cluster.specs.Works.{MayReadAt};

    ghost fields = { λ works. record {
      nodes = map ⟦<Node<L> as AsPart>⟧.part works.nodes.items;
      outbox = works.outbox;
      halted = works.halted;
      failed = works.failed;
      undecided = works.undecided.items;
      events = works.events.events.items;
      marks = works.marks.items;
    } };

    ghost may_read = { λ works. MayReadAt (λ node. L.tells node.log.log)
        (λ node. MayRead (L.opens_since node.log.log) (L.moment node.log.log)) works.nodes.items };
}

/// Whether the node at a place is halted.
pub(crate) fn is_halted(halted: &[bool], place: usize) -> bool
    ensures { result ≡ is_halted halted.now (suc place) }
{
    halted.get(place).copied().unwrap_or(false)
}

/// The letter that a node receives in an input.
fn received_in(input: &Input) -> Option<LetterId>
    ensures { result ≡ letter_of input.now }
{
    match input {
        Input::Letter(letter, _) => Some(*letter),
        Input::Begin | Input::Request(_) | Input::Tell(_) | Input::Query(_) => None,
    }
}

impl<L: TellingLog> Works<L> {
    /// Gives an input to the node at a place, which does not refuse it.
    ///
    /// Its event is added and its letters are put next; or the node halted, which leaves a mark. If memory runs out before that,
    /// nothing changes, except that pending letters may already be on the network.
    #[tactic(none)]
    pub(crate) fn put<R: DataType, Q: DataType, C: DataType>(
        &mut self,
        line: u32,
        place: usize,
        input: &Input,
        servers: &mut Servers<R, Q, C>,
    ) -> Result<Put, NoMemory>
        requires place { place < 8 }
        requires may { IfSome (slice_get self.old.nodes.items place) (λ node. IsFalse node.log.halted
            × IsNotRefused (answers node.core) input.now × MayStep (answers node.core) input.now) }
        requires there { place < length self.old.nodes.items }
        requires writable { AllByRecursion IsWritable self.old.outbox.unput }
        ensures put { IfOk result (λ done. HasPut line place input.now
            (⟦<Works<L> as AsWorks>⟧.fields self.old) (⟦<Works<L> as AsWorks>⟧.may_read self.old) done
            (⟦<Works<L> as AsWorks>⟧.fields self.new) (⟦<Works<L> as AsWorks>⟧.may_read self.new)) }
        ensures as_before { OnErr result (KeepsAsBefore
            (⟦<Works<L> as AsWorks>⟧.fields self.old) (⟦<Works<L> as AsWorks>⟧.may_read self.old)
            (⟦<Works<L> as AsWorks>⟧.fields self.new) (⟦<Works<L> as AsWorks>⟧.may_read self.new)) }
        ensures disks { DisksGoOn (⟦<Works<L> as AsWorks>⟧.fields self.old)
            (⟦<Works<L> as AsWorks>⟧.fields self.new) }
        ensures net { length self.old.outbox.net ≤ length self.new.outbox.net }
    {
        self.make_room()?;
        let before = self.nodes[place].log().failures();
        match self.nodes[place].step(
            input,
            &mut servers.register,
            &mut servers.queue,
            &mut servers.counter,
        ) {
            Ok(stepped) => {
                self.failed = self.failed_since(place, before);
                self.stand(stepped);
                Ok(Put::Stood)
            }
            Err(fault) => {
                self.failed = self.failed_since(place, before);
                if !self.nodes[place].is_halted() {
                    return Err(NoMemory);
                }
                self.halt(line, place, received_in(input), fault);
                Ok(Put::Halted)
            }
        }
    }

    /// Puts the letters that are put next, and makes room for two events, a halt and a mark.
    fn make_room(&mut self) -> Result<(), NoMemory>
        requires { AllByRecursion IsWritable self.old.outbox.unput }
        ensures nodes { self.new.nodes ≡ self.old.nodes }
        ensures halted { self.new.halted ≡ self.old.halted }
        ensures failed { self.new.failed ≡ self.old.failed }
        ensures undecided { self.new.undecided.items ≡ self.old.undecided.items }
        ensures events { self.new.events.events.items ≡ self.old.events.events.items }
        ensures marks { self.new.marks.items ≡ self.old.marks.items }
        ensures some { HasPutSome self.old.outbox self.new.outbox }
        ensures all { OnOk result (self.new.outbox.unput ≡ []) }
        ensures few { OnOk result (length self.new.events.events.items + 2 < 1000000000) }
        ensures event_room { OnOk result (
            (vec_len self.new.events.events + 1 < vec_capacity self.new.events.events)
            × (vec_len self.new.events.counts + 1 < vec_capacity self.new.events.counts)) }
        ensures halt_room { OnOk result
            (vec_len self.new.undecided < vec_capacity self.new.undecided) }
        ensures mark_room { OnOk result (vec_len self.new.marks < vec_capacity self.new.marks) }
    {
        self.outbox.put_all()?;
        if self.events.len() >= 999_999_998 {
            return Err(NoMemory);
        }
        self.events.reserve_two()?;
        reserve_one(&mut self.undecided)?;
        reserve_one(&mut self.marks)?;
        Ok(())
    }

    /// The event is added, and its letters are put next.
    fn stand(&mut self, stepped: Stepped)
        requires room { (vec_len self.old.events.events < vec_capacity self.old.events.events)
            × (vec_len self.old.events.counts < vec_capacity self.old.events.counts) }
        requires none { self.old.outbox.unput ≡ [] }
        ensures nodes { self.new.nodes ≡ self.old.nodes }
        ensures halted { self.new.halted ≡ self.old.halted }
        ensures failed { self.new.failed ≡ self.old.failed }
        ensures undecided { self.new.undecided ≡ self.old.undecided }
        ensures events { self.new.events.events.items ≡ self.old.events.events.items ++ stepped.event ∷ [] }
        ensures marks { self.new.marks ≡ self.old.marks }
        ensures outbox { self.new.outbox ≡ record { net = self.old.outbox.net; unput = stepped.letters } }
    {
        self.events.push(stepped.event);
        self.outbox.send(stepped.letters);
    }

    /// The node at a place is halted in a step in which it received this letter. No event of the step is added; the node's log may have it.
    fn halt(&mut self, line: u32, place: usize, got: Option<LetterId>, fault: NodeFault)
        requires place { place < 8 }
        requires room { vec_len self.old.marks < vec_capacity self.old.marks }
        requires halt_room { vec_len self.old.undecided < vec_capacity self.old.undecided }
        ensures nodes { self.new.nodes ≡ self.old.nodes }
        ensures halted { self.new.halted ≡ set self.old.halted place true }
        ensures failed { IsAfterHalt fault self.old.failed self.new.failed }
        ensures undecided { self.new.undecided.items ≡ record {
          node = place + 1;
          before = length self.old.events.events.items;
          got = got;
        } ∷ self.old.undecided.items }
        ensures events { self.new.events ≡ self.old.events }
        ensures marks { self.new.marks.items ≡ self.old.marks.items ++ marks.Halted line (place + 1) false ∷ [] }
        ensures outbox { self.new.outbox ≡ self.old.outbox }
    {
        let node = place as u8 + 1;
        self.halted[place] = true;
        self.failed = self.failed.after_halt(fault);
        let halt = OpenHalt {
            node,
            before: self.events.len(),
            got,
        };
        open(&mut self.undecided, halt);
        let mark = Mark::Halted {
            line,
            node,
            taken: false,
        };
        push_reserved(&mut self.marks, &mark);
    }
}
