//! A node without its disk, to which nothing has happened; and how it forgets what a step that failed
//! has learnt.
ghost use Rattle.std.specs.Prelude.{◌≡◌, ◌≤◌, [], IfOk, OnOk};
ghost use Rattle.cam_names.specs.Dependencies.{AreCounts};
ghost use Rattle.cam_node.specs.Calls.{answers};
ghost use Rattle.cam_node.specs.Represents.{Represents};

use crate::knowing::Knowing;
use crate::state::Core;
use cam_base::NoMemory;
use cam_commit::Families;
use cam_locks::LockTable;
use cam_server::Server;
use cam_tranman::Homed;
use cam_type::Objects;
use std::alloc::Global;

impl Core {
    /// A node, 1 to 8, over these objects, to which nothing has happened.
    pub(crate) fn new(alloc: Global, number: u8, objects: &Objects) -> Result<Core, NoMemory>
        requires { (1 ≤ number) × (number ≤ 8) }
        ensures number { IfOk result (λ core. core.number ≡ number) }
        ensures represents { IfOk result (λ core. Represents objects.now [] (answers core)) }
        ensures next { IfOk result (λ core. (answers core).server.table.site.next ≡ 0) }
    {
        let table = LockTable::new(alloc, objects, number)?;
        Ok(Core {
            alloc,
            number,
            count: 1,
            knowing: Knowing::new(alloc),
            actions: Homed::new(alloc, number, 1),
            families: Families::new(alloc),
            server: Server::new(alloc, table, 1),
        })
    }

    /// The number of the node.
    pub(crate) fn number(&self) -> u8
        ensures { result ≡ (answers self.now).number }
    {
        self.number
    }

    /// Forgets what was learnt in a step that failed. What is answered stays the same, whether there was memory or not.
    pub(crate) fn settle(&mut self) -> Result<(), NoMemory>
        ensures same { answers self.new ≡ answers self.old }
        ensures ok { OnOk result (self.new.knowing.known ≡ self.new.knowing.stands) }
        ensures counts { OnOk result (AreCounts 1 self.new.knowing.known.counts) }
    {
        self.knowing.settle(self.alloc)?;
        // Only for the proof: these are eight counts.
        let know = self.knowing.know();
        let _counts = know.counts();
        Ok(())
    }
}
