//! A node of a storm with the bodies of its actions.
ghost use Rattle.std.specs.Prelude.{◌≡◌, ◌≤◌, ◌||◌, [], ℕ, List, IfErr, IfOk, IsFalse, Ok as Opens};
ghost use Rattle.cam_base.specs.Causes.{Rose};
ghost use Rattle.cam_ckpt.specs.Reading.{read_ckpt};
ghost use Rattle.cam_log.specs.Moments.{Opened};
ghost use Rattle.cam_node.specs.Calls.{answers};
ghost use Rattle.cam_node.specs.Keeping.{KeepsNode};
ghost use Rattle.cam_node.specs.declared.fault.NodeFault.TheVariants.{DiskFault};
ghost use Rattle.cam_gen.specs.Storms.{objects_of};
ghost use Rattle.cam_storm_node.specs.Receipts.{times_in};
ghost use Rattle.cam_storm_node.specs.Playing.{IsCore, is_over};

use crate::receipts::Receipts;
use crate::storming::Storming;
use crate::telling::TellingLog;
use crate::works::Works;
use cam_base::NoMemory;
use cam_ckpt::{CheckpointLog, Ckpt};
use cam_disk::{StopDisk, TellingDisk};
use cam_event::Request;
use cam_gen::{Copies, Storm};
use cam_log::EntryLog;
use cam_node::{FormatRefused, Node, NodeFault};
use cam_type::{CounterServer, QueueServer, RegisterServer};
use std::alloc::Global;
use std::marker::PhantomData;

/// A node, 1 to 4, of the storm that `W` names, with its bodies.
#[derive(Drop)]
pub struct StormNode<L: CheckpointLog, W: Storming> {
    pub(crate) alloc: Global,
    pub(crate) storm: Storm,
    pub(crate) node: Node<L>,
    pub(crate) register: RegisterServer,
    pub(crate) queue: QueueServer,
    pub(crate) counter: CounterServer,
    /// How many events it has made.
    pub(crate) events: u64,
    /// How many of them create its top actions, as its first ones.
    pub(crate) tops: u64,
    pub(crate) copies: Copies,
    pub(crate) works: Works,
    /// The request of the least-named action that has one.
    pub(crate) next: Option<Request>,
    pub(crate) receipts: Receipts,
    /// A step has failed: it takes no further one.
    pub(crate) lost: bool,
    of: PhantomData<W>,
}

/// A storm node whose node is over a disk.
pub type DiskStormNode<D, W> = StormNode<Ckpt<StopDisk<D>>, W>;

/// What contracts see of a storm node.
pub trait AsStormNode {
    ghost use Rattle.cam_storm_node.specs.Playing.{StormNodeFields};

    ghost fields: { Self → StormNodeFields };
}

impl<L: CheckpointLog, W: Storming> AsStormNode for StormNode<L, W> {
    ghost use Rattle.cam_node.specs.Calls.{answers};

    ghost fields = { λ storm_node. record {
      storm = storm_node.storm;
      node = answers storm_node.node.core;
      objects = storm_node.node.objects;
      entries = L.listed storm_node.node.log.log;
      halted = storm_node.node.log.halted;
      faults = L.faults_within storm_node.node.log.log;
      lost = storm_node.lost;
      events = storm_node.events;
      tops = storm_node.tops;
      copies = storm_node.copies;
      works = storm_node.works;
      next = storm_node.next;
      receipts = storm_node.receipts;
    } };
}

impl<D: TellingDisk, W: Storming> DiskStormNode<D, W> {
    /// A node, 1 to 4, to which nothing has happened, over a disk that it formats. If the disk
    /// fails or memory runs out, the disk is handed back.
    pub fn new(
        alloc: Global,
        storm: &Storm,
        number: u8,
        disk: D,
    ) -> Result<DiskStormNode<D, W>, FormatRefused<D>>
        requires number { (1 ≤ number) × (number ≤ 4) }
        requires few { storm.now.actions ≤ 64 }
        requires words { storm.now ≡ W.words }
        requires floor { W.failures number ≤ D.faults disk }
        ensures core { IfOk result (λ storm_node. IsCore W.words W.failures
            (⟦<DiskStormNode<D, W> as AsStormNode>⟧.fields storm_node) number []) }
        ensures later { IfOk result (λ storm_node. D.faults disk
            ≤ (⟦<DiskStormNode<D, W> as AsStormNode>⟧.fields storm_node).faults) }
        ensures back { IfErr result (λ refused. D.faults disk ≤ D.faults refused.disk) }
        ensures cause { IfErr result (λ refused. refused.fault ≡ DiskFault
            → Rose (D.faults disk) (D.faults refused.disk)) }
    {
        let node = formatted(alloc, storm, number, disk)?;
        Ok(StormNode {
            alloc,
            storm: *storm,
            node,
            register: RegisterServer::new(),
            queue: QueueServer::new(alloc),
            counter: CounterServer::new(),
            events: 0,
            tops: storm.tops_of(number),
            copies: Copies::new(storm, number),
            works: Works::new(alloc, storm),
            next: None,
            receipts: Receipts::new(alloc),
            lost: false,
            of: PhantomData,
        })
    }

    /// The disk of the node, as it is. While the node is not halted, whatever a crash may leave of
    /// it opens as the entries of its log.
    pub fn into_disk(self) -> D
        ensures faults { D.faults result
            ≡ (⟦<DiskStormNode<D, W> as AsStormNode>⟧.fields self).faults }
        ensures rest { IsFalse (⟦<DiskStormNode<D, W> as AsStormNode>⟧.fields self).halted
            → (image : List ℕ) → D.left_since result (D.moment result) image
            → read_ckpt image
            ≡ Opens (⟦<DiskStormNode<D, W> as AsStormNode>⟧.fields self).entries }
    {
        self.into_node().into_disk().into_inner()
    }
}

/// The node of this number, 1 to 8, of a storm, to which nothing has happened, over a disk that it
/// formats.
fn formatted<D: TellingDisk>(
    alloc: Global,
    storm: &Storm,
    number: u8,
    disk: D,
) -> Result<Node<Ckpt<StopDisk<D>>>, FormatRefused<D>>
    requires { (1 ≤ number) × (number ≤ 8) }
    ensures keeps { IfOk result (λ node. KeepsNode (objects_of storm.now) [] (answers node.core)
        (⟦<Ckpt<StopDisk<D>> as EntryLog>⟧.listed node.log.log)) }
    ensures number { IfOk result (λ node. (answers node.core).number ≡ number) }
    ensures objects { IfOk result (λ node. node.objects ≡ objects_of storm.now) }
    ensures later { IfOk result (λ node. D.faults disk
        ≤ ⟦<Ckpt<StopDisk<D>> as EntryLog>⟧.faults_within node.log.log) }
    ensures back { IfErr result (λ refused. D.faults disk ≤ D.faults refused.disk) }
    ensures cause { IfErr result (λ refused. refused.fault ≡ DiskFault
        → Rose (D.faults disk) (D.faults refused.disk)) }
{
    let objects = match storm.objects(alloc) {
        Ok(objects) => objects,
        Err(NoMemory) => {
            return Err(FormatRefused {
                fault: NodeFault::NoMemory,
                disk,
            });
        }
    };
    match Node::format(alloc, number, objects, StopDisk::new(disk)) {
        Ok(node) => Ok(node),
        Err(refused) => Err(FormatRefused {
            fault: refused.fault,
            disk: refused.disk.into_inner(),
        }),
    }
}

impl<L: TellingLog, W: Storming> StormNode<L, W> {
    /// Whether it takes no further step: its node halted, or a step failed.
    pub fn is_halted(&self) -> bool
        ensures { result ≡ is_over (⟦<StormNode<L, W> as AsStormNode>⟧.fields self.now) }
    {
        self.lost || self.node.is_halted()
    }

    /// The node. While it is not halted, whatever its log may open as now is its entries.
    fn into_node(self) -> Node<L>
        ensures node { result ≡ self.node }
        ensures rest { IsFalse (⟦<StormNode<L, W> as AsStormNode>⟧.fields self).halted
            → (opened : Opened) → L.opens_since result.log.log (L.moment result.log.log) opened
            → opened ≡ Opens (⟦<StormNode<L, W> as AsStormNode>⟧.fields self).entries }
    {
        self.node
    }

    /// How often it has received the letter that an event of this number sent at this place.
    pub fn times_received(&self, number: u64, place: u32) -> u8
        ensures { result ≡ times_in self.now.receipts number place }
    {
        self.receipts.times(number, place)
    }
}
