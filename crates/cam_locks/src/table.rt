//! The lock table.
ghost use Rattle.std.specs.Prelude.{◌≡◌, ℕ, ◌≤◌, ◌+◌, length, IsTrue, IfOk, OnOk, OnErr};
ghost use Rattle.cam_names.specs.declared.name.Name.{Name as NameValue};
ghost use Rattle.cam_type.specs.declared.Op.{Op as OpValue};
ghost use Rattle.cam_type.specs.Table.{kind_of};
ghost use Rattle.cam_locks.specs.Site.{is_here, fits_here, IndicesRise, Site as SiteValue};
ghost use Rattle.cam_type.specs.Objects.{site_of, start_of};
ghost use Rattle.cam_locks.specs.Moss.{settled};
ghost use Rattle.cam_locks.specs.Calls.{new_site, grant, after_grant, with_commit, with_abort, held, has_family, left_by, with_operation};
ghost use Rattle.cam_locks.specs.Served.{served};
ghost use Rattle.cam_locks.specs.Secured.{IsWellFormed, SecuredCanBeRestored};

use crate::kept::Kept;
use crate::names::Names;
use crate::operations::{copy_objects, fits_here, is_here, kind_of};
use crate::{Grant, LiveOp, by_list, by_object};
use cam_base::NoMemory;
use cam_know::Know;
use cam_names::Name;
use cam_type::{DataType, Held, Kind, Objects, Op, State, site_of};
use std::alloc::Global;
use std::marker::Model;

/// Nested locks on the objects of one site. Seen as the site's live operations in order, the outcomes that the site was informed of, and
/// the next index; beside them stands for how many more outcomes there is room.
#[derive(Drop)]
pub struct LockTable {
    pub(crate) node: u8,
    pub(crate) kept: Kept,
    pub(crate) aborted: Names,
}

impl Model for LockTable {
    ghost use Rattle.std.specs.Prelude.{min};
    ghost use Rattle.cam_locks.specs.Site.{TableView, AreFit};
    ghost use Rattle.cam_locks.specs.Granted.{IsKept};

    ghost Value = { TableView };

    ghost view = { λ t. record {
      site = record {
        objects = t.kept.objects;
        node = t.node;
        live = t.kept.live.ops;
        committed = t.kept.committed.names;
        aborted = t.aborted.names;
        next = t.kept.live.next;
      };
      spare = min t.kept.committed.spare t.aborted.spare;
    } };

    ghost invariant = { λ t. IsKept t.kept × AreFit t.kept.objects t.node t.kept.live.ops };
}

impl LockTable {
    /// The table of a node, with no operations.
    pub fn new(alloc: Global, objects: &Objects, node: u8) -> Result<LockTable, NoMemory>
        ensures { IfOk result (λ table. table.site ≡ new_site objects.now node) }
    {
        LockTable::informed(alloc, objects, node, &[])
    }

    /// Does an operation of an action on an object, unless a live operation conflicts: then the lift of the first one is named, and
    /// nothing changes. The handed-in server does it, at the value that it is given to hold, and holds the state after it then; a
    /// server that wants memory leaves the table as it was. It requires a server of the object's kind ([`LockTable::kind`]),
    /// what [`LockTable::takes`] accepts, and a next index of at most 999,999,999. The rule stands in `specs/Moss.antt`: Moss,
    /// *Nested Transactions*, 1985.
    pub fn try_lock_and_apply<T: DataType>(
        &mut self,
        name: &Name,
        object: u8,
        op: &Op,
        server: &mut T,
    ) -> Result<Grant, NoMemory>
        requires fits { IsTrue (fits_here self.old.site.objects self.old.site.node object op.now) }
        requires index { self.old.site.next ≤ 999999999 }
        requires kind { T.kind server.old ≡ kind_of (start_of self.old.site.objects object) }
        ensures grant { IfOk result (λ granted. granted
            ≡ grant self.old.site name.now object op.now) }
        ensures ok { OnOk result (self.new.site
            ≡ after_grant self.old.site name.now object op.now) }
        ensures err { OnErr result (self.new.site ≡ self.old.site) }
        ensures spare { self.new.spare ≡ self.old.spare }
        ensures served { OnOk result (T.held server.new
            ≡ served self.old.site name.now object op.now (T.held server.old)) }
        ensures kind_stays { T.kind server.new ≡ T.kind server.old }
    {
        let operation = LiveOp {
            index: self.kept.live.next(),
            action: *name,
            object,
            op: *op,
        };
        self.kept.grant(&operation, server)
    }

    /// Takes back the operation that was done last, where nothing has come since: all is as if it had not been done. Of its object nothing is
    /// kept from now on. It takes no memory.
    pub fn take_back(&mut self)
        ensures site { (before : SiteValue) (a : NameValue) (x : ℕ) (op : OpValue)
            → self.old.site ≡ with_operation before a x op → self.new.site ≡ before }
        ensures spare { self.new.spare ≡ self.old.spare }
    {
        self.kept.take_back();
    }

    /// Whether the object stands at the table's node and the op fits it.
    pub fn takes(&self, object: u8, op: &Op) -> bool
        ensures { result ≡ fits_here self.now.site.objects self.now.site.node object op.now }
    {
        fits_here(&self.kept.objects, self.node, object, op)
    }

    /// The kind of an object, which is that of its servers.
    pub fn kind(&self, object: u8) -> Kind
        ensures { result ≡ kind_of (start_of self.now.site.objects object) }
    {
        kind_of(&self.kept.objects, object)
    }

    /// The node where an object stands, and 0 where it is not declared.
    pub fn site_of(&self, object: u8) -> u8
        ensures { result ≡ site_of self.now.site.objects object }
    {
        site_of(&self.kept.objects, object)
    }

    /// How many objects are declared.
    pub fn object_count(&self) -> usize
        ensures { result ≡ length self.now.site.objects }
    {
        self.kept.objects.len()
    }

    /// Whether the object stands at the table's node.
    pub fn has_object(&self, object: u8) -> bool
        ensures { result ≡ is_here self.now.site.objects self.now.site.node object }
    {
        is_here(&self.kept.objects, self.node, object)
    }

    /// Makes room for this many more outcomes. Nothing else changes.
    pub fn reserve(&mut self, outcomes: u64) -> Result<(), NoMemory>
        ensures site { self.new.site ≡ self.old.site }
        ensures ok { OnOk result (outcomes ≤ self.new.spare) }
        ensures kept { self.old.spare ≤ self.new.spare }
    {
        self.kept.committed.reserve(outcomes as usize)?;
        self.aborted.reserve(outcomes as usize)
    }

    /// The site was informed of the commit of an action. It requires a spare of 1 ([`LockTable::reserve`]), and takes no memory.
    pub fn commit(&mut self, name: &Name)
        requires { 1 ≤ self.old.spare }
        ensures site { self.new.site ≡ with_commit self.old.site name.now }
        ensures spare { self.old.spare ≤ self.new.spare + 1 }
    {
        self.kept.committed.put(name);
    }

    /// The site was informed of the abort of an action: the operations of the action and of all below it are dropped. It requires a spare
    /// of 1 ([`LockTable::reserve`]), and takes no memory.
    pub fn abort(&mut self, name: &Name)
        requires { 1 ≤ self.old.spare }
        ensures site { self.new.site ≡ with_abort self.old.site name.now }
        ensures spare { self.old.spare ≤ self.new.spare + 1 }
    {
        self.aborted.put(name);
        self.kept.abort(name);
    }

    /// An equal table, but for its room.
    pub fn copy(&self) -> Result<LockTable, NoMemory>
        ensures { IfOk result (λ copy. copy.site ≡ self.now.site) }
    {
        let kept = Kept {
            objects: copy_objects(self.kept.live.allocator(), &self.kept.objects)?,
            committed: self.kept.committed.copy()?,
            live: self.kept.live.copy()?,
            locks: by_object::copy(&self.kept.locks)?,
        };
        Ok(LockTable {
            node: self.node,
            kept,
            aborted: self.aborted.copy()?,
        })
    }

    /// What is to be secured of a family: all its live operations in order, reads included. The locks stay. What is secured of several
    /// families at one moment can be restored together; [`crate::secured_along_a_run`] says so of the moments between two restarts. `count`
    /// is the node's count that is put beside them.
    pub fn secure(&self, family: &Name, count: u32) -> Result<Held, NoMemory>
        ensures held { IfOk result (λ secured. secured ≡ held self.now.site family.now count) }
        ensures well_formed { IsWellFormed self.now.site }
        ensures restorable { SecuredCanBeRestored self.now.site }
    {
        let live = self.kept.live.of_family(family)?;
        let ops = by_list::held(self.kept.live.allocator(), live.as_slice(), family)?;
        Ok(Held {
            family: *family,
            count,
            ops,
        })
    }

    /// What is to be secured of a family once the site is informed of these outcomes, which it is not yet: its live operations of which no
    /// ancestor's abort is among them.
    pub fn secure_after(&self, news: &Know, family: &Name, count: u32) -> Result<Held, NoMemory>
        ensures held { IfOk result (λ secured.
            secured ≡ held (left_by news.now self.now.site) family.now count) }
        ensures well_formed { IsWellFormed self.now.site }
    {
        let alloc = self.kept.live.allocator();
        let live = self.kept.live.of_family(family)?;
        let left = by_list::left(alloc, live.as_slice(), news)?;
        let ops = by_list::held(alloc, left.as_slice(), family)?;
        Ok(Held {
            family: *family,
            count,
            ops,
        })
    }

    /// Whether a live operation of the family stands here.
    pub fn has_family(&self, family: &Name) -> bool
        ensures { result ≡ has_family self.now.site family.now }
    {
        self.kept.live.has_family(family)
    }

    /// The value of an object that is handed up past the top. It requires what [`LockTable::has_object`] accepts.
    pub fn value(&self, object: u8) -> Result<State, NoMemory>
        requires { IsTrue (is_here self.now.site.objects self.now.site.node object) }
        ensures { IfOk result (λ state. state ≡ settled self.now.site object) }
    {
        self.kept.settled(object)
    }

    /// The index of the next operation, which is above those of all live ones.
    pub fn next_index(&self) -> u32
        ensures value { result ≡ self.now.site.next }
        ensures order { IndicesRise 0 self.now.site.live self.now.site.next }
    {
        self.kept.live.next()
    }
}
