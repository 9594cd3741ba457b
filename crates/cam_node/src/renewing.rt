//! The restart of a node: it reads its log again, and goes on from what that keeps.
ghost use Rattle.std.specs.Prelude.{◌≡◌, ◌≤◌, [], None, IsTrue, IsFalse, IfOk, IfSome, OnOk, OnErr, IsErrOf};
ghost use Rattle.cam_base.specs.Causes.{Rose};
ghost use Rattle.cam_ckpt.specs.Opening.{HasNextNumber, next_number};
ghost use Rattle.cam_locks.specs.Restored.{CanRestore};
ghost use Rattle.cam_log.specs.Moments.{Grows};
ghost use Rattle.cam_node.specs.declared.fault.NodeFault.TheVariants.{DiskFault};
ghost use Rattle.cam_node.specs.Calls.{answers};
ghost use Rattle.cam_node.specs.Found.{found_by, FindsBy, HasRestarted};
ghost use Rattle.cam_node.specs.Keeping.{IsRestartHalt};
ghost use Rattle.cam_node.specs.Log.{Logged};
ghost use Rattle.cam_node.specs.Opened.{HasOneEntry, MayRead, OpensRestarted};
ghost use Rattle.cam_node.specs.Renewed.{IsRenewed, crash_of};
ghost use Rattle.cam_node.specs.RestartLaws.{IsOfHistory};

use crate::fault::NodeFault;
use crate::found::{Found, Restarted};
use crate::knowing::Knowing;
use crate::node::Node;
use crate::restart::Reread;
use crate::room::one;
use crate::state::Core;
use crate::{Letters, Stepped};
use cam_base::NoMemory;
use cam_ckpt::CheckpointLog;
use cam_commit::Families;
use cam_event::{Deed, Event, Note, SentList};
use cam_locks::LockTable;
use cam_recman::Recovered;
use cam_server::Server;
use cam_tranman::Homed;
use cam_type::Objects;
use std::alloc::Global;

impl Core {
    /// The node, 1 to 8, that a restart makes of what its log keeps.
    fn renewed(
        alloc: Global,
        number: u8,
        objects: &Objects,
        kept: Recovered,
    ) -> Result<Core, NoMemory>
        requires number { (1 ≤ number) × (number ≤ 8) }
        requires count { (1 ≤ kept.count) × (kept.count ≤ 1000000000) }
        requires held { CanRestore objects.now number kept.held }
        ensures { IfOk result (λ core. IsRenewed objects.now number kept (answers core)) }
    {
        let table = LockTable::restore(alloc, objects, number, &kept.held, &kept.know)?;
        let families = Families::of(alloc, kept.held.as_slice())?;
        Ok(Core {
            alloc,
            number,
            count: kept.count,
            knowing: Knowing::of(kept.know),
            actions: Homed::new(alloc, number, kept.count),
            families,
            server: Server::new(alloc, table, kept.count),
        })
    }

    /// The event of a restart.
    fn crashed(&self) -> Result<Stepped, NoMemory>
        ensures event { IfOk result (λ stepped. stepped.event ≡ crash_of self.now.number) }
        ensures letters { IfOk result (λ stepped. stepped.letters ≡ []) }
    {
        let deeds = one(self.alloc, &Deed::Crash { site: self.number })?;
        Ok(Stepped {
            event: Event {
                node: self.number,
                got: None,
                deeds,
                sent: SentList::new(self.alloc),
                note: Note::Plain,
            },
            letters: Letters::new(self.alloc),
        })
    }

    /// Becomes the node that a restart makes of what its log keeps, and returns what the restart found.
    /// It fails only if memory runs out; then nothing has changed.
    fn renew(
        &mut self,
        objects: &Objects,
        halted_at: &mut Option<Event>,
        reread: Reread,
    ) -> Result<Restarted, NoMemory>
        requires number { (1 ≤ self.old.number) × (self.old.number ≤ 8) }
        requires count { (1 ≤ reread.kept.count) × (reread.kept.count ≤ 1000000000) }
        requires held { CanRestore objects.now self.old.number reread.kept.held }
        ensures renewed { OnOk result (IsRenewed objects.now self.old.number reread.kept
            (answers self.new)) }
        ensures event { IfOk result (λ restarted.
            restarted.stepped.event ≡ crash_of self.old.number) }
        ensures letters { IfOk result (λ restarted. restarted.stepped.letters ≡ []) }
        ensures found { IfOk result (λ restarted. restarted.found
            ≡ found_by (answers self.old) halted_at.old reread) }
        ensures goes_on { OnOk result (halted_at.new ≡ None) }
        ensures still { OnErr result (halted_at.new ≡ halted_at.old) }
        ensures core { OnErr result (self.new ≡ self.old) }
        ensures number { self.new.number ≡ self.old.number }
    {
        let stepped = self.crashed()?;
        let has_event = self.has_halted_at(halted_at, &reread);
        let restarts = (reread.kept.count - 1).saturating_sub(self.count);
        *self = Core::renewed(self.alloc, self.number, objects, reread.kept)?;
        let found = Found::of(halted_at.take(), has_event, restarts);
        Ok(Restarted { stepped, found })
    }
}

impl<L: CheckpointLog> Node<L> {
    /// Restarts the node, halted or not. It reads its log again, replaces the list by one entry of all
    /// that is kept with the raised count, and goes on from that. If the list has the last number, the
    /// raised count is appended instead. The event is the restart; no letter is sent. The result says
    /// whether the log has what was taken of the event at which the node had halted, and how many
    /// failed restarts had reached the log.
    ///
    /// `DiskFault` comes if what was read cannot be restarted: a count that is the last, an operation
    /// that is not on an object of the node or does not fit it, an index that is there twice or is
    /// above 499,999,999, a family that is secured twice, a commit that depends on a count above the
    /// known one of its node. A disk that does not tell what it holds is spoiled then. In what a
    /// history's log holds, only the count and the indices may be so. If nothing but such logs can be
    /// read and numbers are left, `DiskFault` comes only if the disk's count of faults rose. After an
    /// error the node is halted, and may be restarted again.
    pub fn restart(&mut self) -> Result<Restarted, NodeFault>
        ensures restarted { IfOk result (λ restarted. HasRestarted self.old.objects
            self.old.core.number (L.tells self.old.log.log)
            (MayRead (L.opens_since self.old.log.log) (L.moment self.old.log.log))
            (answers self.old.core) self.old.halted_at
            (answers self.new.core) (L.listed self.new.log.log) restarted) }
        // If the disk tells, by what the log reads when it begins: the event is found if that has it,
        // and not found if that has the history before and the event adds to it.
        ensures found { IsTrue (L.tells self.old.log.log) → IfOk result (λ restarted.
            FindsBy self.old.objects self.old.core.number (answers self.old.core)
            self.old.halted_at (L.reads self.old.log.log) restarted.found) }
        ensures letters { IfOk result (λ restarted. restarted.stepped.letters ≡ []) }
        // If the disk tells, the log lists one entry then, unless the list that was read has the last
        // number.
        ensures replaced { IsTrue (L.tells self.old.log.log) → OnOk result
            (IfSome (L.disk_generation self.old.log.log) (λ number.
            HasOneEntry number (L.listed self.new.log.log))) }
        // Of any disk it lists one, unless its list has the last number then.
        ensures one_entry { OnOk result
            (HasOneEntry (L.generation self.new.log.log) (L.listed self.new.log.log)) }
        // If the disk tells, the list has the number after that of the list which was read; if the
        // node was not halted, that is the one after its own.
        ensures disk_generation { IsTrue (L.tells self.old.log.log) → OnOk result
            (HasNextNumber (L.disk_generation self.old.log.log) (L.generation self.new.log.log)) }
        ensures generation { IsTrue (L.tells self.old.log.log) → IsFalse self.old.log.halted
            → OnOk result (L.generation self.new.log.log
            ≡ next_number (L.generation self.old.log.log)) }
        ensures runs { OnOk result (IsFalse self.new.log.halted) }
        ensures goes_on { OnOk result (self.new.halted_at ≡ None) }
        ensures halted { OnErr result (IsTrue self.new.log.halted) }
        // The event and what the node knows with it are kept for the next restart.
        ensures still { OnErr result (self.new.halted_at ≡ self.old.halted_at) }
        ensures core { OnErr result (self.new.core ≡ self.old.core) }
        ensures failed { IsTrue (L.tells self.old.log.log) → OnErr result
            (IsRestartHalt self.old.objects self.old.core.number
            (MayRead (L.opens_since self.old.log.log) (L.moment self.old.log.log))
            (MayRead (L.opens_since self.new.log.log) (L.moment self.new.log.log))) }
        // A crash during the call leaves what it could leave before, or what the restart of one of
        // those leaves: the old list or the one entry, unless the list has the last number.
        ensures any_moment { IsTrue (L.tells self.old.log.log)
            → Grows (L.moment self.old.log.log) (L.moment self.new.log.log)
            (L.opens_since self.old.log.log) (L.opens_since self.new.log.log)
            (OpensRestarted self.old.objects self.old.core.number
            (L.disk_generation self.old.log.log)
            (L.opens_since self.old.log.log (L.moment self.old.log.log))) }
        ensures tells { L.tells self.new.log.log ≡ L.tells self.old.log.log }
        ensures unbounded { L.passes self.old.log.log ≡ None → L.passes self.new.log.log ≡ None }
        ensures later { L.faults self.old.log.log ≤ L.faults self.new.log.log }
        ensures faults_within { L.faults_within self.old.log.log ≤ L.faults_within self.new.log.log }
        // The premise: whatever may be read is the log of a history in which numbers are left.
        ensures disk_fault { ((logged : Logged) → IsTrue (L.tells self.old.log.log)
            → MayRead (L.opens_since self.old.log.log) (L.moment self.old.log.log) logged
            → IsOfHistory self.old.objects self.old.core.number logged)
            → IsErrOf result DiskFault
            → Rose (L.faults self.old.log.log) (L.faults self.new.log.log) }
        ensures number { self.new.core.number ≡ self.old.core.number }
        ensures objects { self.new.objects ≡ self.old.objects }
    {
        let reread = self.log.restart(&self.objects, self.core.number)?;
        match self.core.renew(&self.objects, &mut self.halted_at, reread) {
            Ok(restarted) => Ok(restarted),
            Err(NoMemory) => {
                self.log.halt();
                Err(NodeFault::NoMemory)
            }
        }
    }
}
