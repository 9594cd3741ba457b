//! What is kept of a site: its lock table tells who stands in the way of a call, and what it answers.
ghost use Rattle.std.specs.Prelude.{◌≡◌, ◌∷◌, ◌++◌, [], false, find, if◌then◌else◌, Bool, ℕ, List, Some, IsTrue, IfOk, OnOk};
ghost use Rattle.std.specs.List.{list_any};
ghost use Rattle.cam_names.specs.Names.{ancestors, family};
ghost use Rattle.cam_type.specs.declared.ObjectDecl.{ObjectDecl};
ghost use Rattle.cam_type.specs.declared.Answer.{Answer as AnswerValue};
ghost use Rattle.cam_type.specs.Table.{answer_of};
ghost use Rattle.cam_locks.specs.Site.{fits_here};
ghost use Rattle.cam_locks.specs.Calls.{grant, grant_by, after_grant, with_commit, with_abort};
ghost use Rattle.cam_event.specs.declared.Deed.{Deed};
ghost use Rattle.cam_event.specs.declared.Deed.TheVariants.{Inform, Crash};
ghost use Rattle.cam_event.specs.History.{informed, secured_at, call_of};
ghost use Rattle.cam_event.specs.Live.{site_of, holder, value};
ghost use Rattle.cam_live.specs.Ledger.{Keeps, addressed};
ghost use Rattle.cam_plain.specs.Sites.{IsUntouched, KeepsSite, AfterAttempt, with_abort_of, crashed_family, crashed_families};

use cam_base::{NoMemory, Sequence};
use cam_live::{AddressedCall, Ledger};
use cam_locks::{Grant, LockTable};
use cam_names::Name;
use cam_type::{CounterServer, Kind, Objects, QueueServer, RegisterServer};
use std::alloc::Global;

/// Names in order.
type Names = Sequence<Name>;

/// What is kept of a site.
#[derive(Drop)]
pub(crate) struct Site {
    locks: LockTable,
    /// The families of the operations that were performed here since the last crash.
    families: Names,
}

impl Site {
    /// A site where nothing was performed, and that was informed of no commit.
    pub(crate) fn new(alloc: Global, objects: &Objects, node: u8) -> Result<Site, NoMemory>
        ensures { IfOk result (λ site. (L : List Deed) → IsUntouched objects.now L node
            → KeepsSite objects.now L node site) }
    {
        let locks = LockTable::new(alloc, objects, node)?;
        let families = Names::new(alloc);
        Ok(Site { locks, families })
    }

    /// Has the operation of a call done here, unless a live one conflicts. Where the site was informed of the abort of an ancestor, the
    /// operation is done and dropped.
    pub(crate) fn attempt(
        &mut self,
        alloc: Global,
        ledger: &Ledger,
        site: u8,
        action: &Name,
        call: &AddressedCall,
    ) -> Result<Grant, NoMemory>
        requires { IsTrue (fits_here self.old.locks.site.objects self.old.locks.site.node
            call.now.object call.now.op) }
        ensures value { IfOk result (λ granted. (objects : List ObjectDecl) (L : List Deed)
            → KeepsSite objects L site self.old → site_of objects call.now.object ≡ site
            → granted ≡ grant_by (holder objects L action.now call.now.object call.now.op)
            (answer_of (value objects L call.now.object) call.now.op)) }
        ensures kept { OnOk result ((objects : List ObjectDecl) (L : List Deed) (n : ℕ)
            (answer : AnswerValue)
            → Keeps objects L ledger.now → KeepsSite objects L site self.old
            → site_of objects call.now.object ≡ site
            → call_of L action.now n ≡ addressed (Some call.now)
            → AfterAttempt objects L site action.now n answer
            (holder objects L action.now call.now.object call.now.op) self.new) }
    {
        // A name has a part.
        prove!(action.depth() > 0);
        match grant(alloc, &mut self.locks, action, call)? {
            Grant::Done(answer) => {
                self.families.push_copy(&action.family())?;
                drop_aborted(&mut self.locks, ledger, site, action)?;
                Ok(Grant::Done(answer))
            }
            Grant::Conflict(holder) => Ok(Grant::Conflict(holder)),
        }
    }

    /// The site is informed of an outcome.
    pub(crate) fn inform(&mut self, name: &Name, committed: bool) -> Result<(), NoMemory>
        ensures { OnOk result ((objects : List ObjectDecl) (L : List Deed) (s : ℕ)
            → KeepsSite objects L s self.old
            → KeepsSite objects (Inform s name.now committed ∷ L) s self.new) }
    {
        if committed {
            commit(&mut self.locks, name)
        } else {
            abort(&mut self.locks, name)
        }
    }

    /// The site crashes: what is of families that are not secured here goes.
    pub(crate) fn crash(&mut self, alloc: Global, ledger: &Ledger, site: u8) -> Result<(), NoMemory>
        ensures { OnOk result ((objects : List ObjectDecl) (L : List Deed)
            → Keeps objects L ledger.now
            → KeepsSite objects L site self.old
            → KeepsSite objects (Crash site ∷ L) site self.new) }
    {
        crash_families(&mut self.locks, ledger, site, &self.families)?;
        self.families = Names::new(alloc);
        Ok(())
    }
}

/// Does the operation of a call, unless a live one conflicts. No memory holds so many operations that an index could be too great.
fn grant(
    alloc: Global,
    locks: &mut LockTable,
    action: &Name,
    call: &AddressedCall,
) -> Result<Grant, NoMemory>
    requires { IsTrue (fits_here locks.old.site.objects locks.old.site.node
        call.now.object call.now.op) }
    ensures value { IfOk result (λ granted.
        granted ≡ grant locks.old.site action.now call.now.object call.now.op) }
    ensures site { OnOk result (locks.new.site
        ≡ after_grant locks.old.site action.now call.now.object call.now.op) }
{
    if locks.next_index() > 999_999_999 {
        return Err(NoMemory);
    }
    let (object, op) = (call.object, &call.op);
    match locks.kind(object) {
        Kind::Register => locks.try_lock_and_apply(action, object, op, &mut RegisterServer::new()),
        Kind::Queue => locks.try_lock_and_apply(action, object, op, &mut QueueServer::new(alloc)),
        Kind::Counter => locks.try_lock_and_apply(action, object, op, &mut CounterServer::new()),
    }
}

/// The site is informed of a commit.
fn commit(locks: &mut LockTable, name: &Name) -> Result<(), NoMemory>
    ensures { OnOk result (locks.new.site ≡ with_commit locks.old.site name.now) }
{
    locks.reserve(1)?;
    locks.commit(name);
    Ok(())
}

/// The operations of an action and of all below it are dropped.
fn abort(locks: &mut LockTable, name: &Name) -> Result<(), NoMemory>
    ensures { OnOk result (locks.new.site ≡ with_abort locks.old.site name.now) }
{
    locks.reserve(1)?;
    locks.abort(name);
    Ok(())
}

/// The first ancestor of the action of whose abort the site was informed.
fn aborted_ancestor(ledger: &Ledger, site: u8, action: &Name) -> Option<Name>
    ensures { (objects : List ObjectDecl) (L : List Deed) → Keeps objects L ledger.now
        → result ≡ find (λ u. informed L site u false) (ancestors action.now) }
{
    // A name has a part.
    prove!(action.depth() > 0);
    let own = own_abort(ledger, site, action);
    match action.parent() {
        Some(parent) => match aborted_ancestor(ledger, site, &parent) {
            Some(aborted) => Some(aborted),
            None => own,
        },
        None => own,
    }
}

/// Whether the site was informed of the abort of an ancestor of the action.
pub(crate) fn has_lost(ledger: &Ledger, site: u8, action: &Name) -> bool
    ensures { (objects : List ObjectDecl) (L : List Deed) → Keeps objects L ledger.now
        → result ≡ list_any (λ u. informed L site u false) (ancestors action.now) }
{
    aborted_ancestor(ledger, site, action).is_some()
}

/// The action, where the site was informed of its abort.
fn own_abort(ledger: &Ledger, site: u8, action: &Name) -> Option<Name>
    ensures { (objects : List ObjectDecl) (L : List Deed) → Keeps objects L ledger.now
        → result ≡ (if informed L site action.now false then Some action.now else None) }
{
    if ledger.has_abort(site, action) {
        Some(*action)
    } else {
        None
    }
}

/// Drops an operation of the action that was just done, where the site was informed of the abort of an ancestor.
fn drop_aborted(
    locks: &mut LockTable,
    ledger: &Ledger,
    site: u8,
    action: &Name,
) -> Result<(), NoMemory>
    ensures { OnOk result ((objects : List ObjectDecl) (L : List Deed) → Keeps objects L ledger.now
        → locks.new.site
        ≡ with_abort_of (find (λ u. informed L site u false) (ancestors action.now))
        locks.old.site) }
{
    match aborted_ancestor(ledger, site, action) {
        Some(aborted) => abort(locks, &aborted),
        None => Ok(()),
    }
}

/// At a crash of the site the operations of these families are dropped, but for those that are secured here.
fn crash_families(
    locks: &mut LockTable,
    ledger: &Ledger,
    site: u8,
    families: &Names,
) -> Result<(), NoMemory>
    ensures { OnOk result ((objects : List ObjectDecl) (L : List Deed) → Keeps objects L ledger.now
        → locks.new.site ≡ crashed_families L site families.now locks.old.site) }
{
    for family in families.as_slice() {
        crash_family(locks, ledger, site, family)?;
    }
    Ok(())
}

/// At a crash of the site the operations of a family are dropped, unless it is secured here.
fn crash_family(
    locks: &mut LockTable,
    ledger: &Ledger,
    site: u8,
    family: &Name,
) -> Result<(), NoMemory>
    ensures { OnOk result ((objects : List ObjectDecl) (L : List Deed) → Keeps objects L ledger.now
        → locks.new.site ≡ crashed_family L site family.now locks.old.site) }
{
    if is_secured(ledger, site, family) {
        return Ok(());
    }
    abort(locks, family)
}

/// Whether the family was secured at the site.
pub(crate) fn is_secured(ledger: &Ledger, site: u8, family: &Name) -> bool
    ensures { (objects : List ObjectDecl) (L : List Deed) → Keeps objects L ledger.now
        → result ≡ secured_at L family.now site }
{
    ledger.first_secured(site, family).is_some()
}
