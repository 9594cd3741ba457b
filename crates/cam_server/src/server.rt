//! The server of a site: its lock table, and the replies that were given, in tables of hashes.
ghost use Rattle.std.specs.Prelude.{◌≡◌, ◌+◌, ◌≤◌, [], ◌∷◌, false, length, None, IsTrue, IsOk};
ghost use Rattle.std.specs.Prelude.{IfOk, OnOk, OnErr};
ghost use Rattle.std.specs.List.{list_any};
ghost use Rattle.cam_names.specs.Names.{ancestors};
ghost use Rattle.cam_type.specs.Table.{kind_of};
ghost use Rattle.cam_type.specs.Objects.{start_of};
ghost use Rattle.cam_know.specs.Known.{knows_commit};
ghost use Rattle.cam_locks.specs.Site.{fits_here};
ghost use Rattle.cam_locks.specs.Calls.{grant, after_grant};
ghost use Rattle.cam_locks.specs.Moss.{value};
ghost use Rattle.cam_locks.specs.Served.{served};
ghost use Rattle.cam_server.specs.Calls.{answers, reply_in, call, granted, tested_by, performed_by};
ghost use Rattle.cam_server.specs.Calls.{is_served, reply_of, held_after, held_by};
ghost use Rattle.cam_server.specs.declared.server.CallName.{CallName as CallValue};
ghost use Rattle.cam_server.specs.Calls.{AfterPerformed, IsInformedOf, IsInformedOfAll, AreSame};
ghost use Rattle.cam_server.specs.Calls.{IsNew, IsNoted, informed_of};

use crate::Performed;
use cam_base::NoMemory;
use cam_event::Reply;
use cam_know::{Know, Outcome};
use cam_locks::{Grant, LockTable};
use cam_names::{Deps, Name};
use cam_orphan::orphan;
use cam_type::{Answer, DataType, Op};
use std::alloc::Global;
use std::collections::HashMap;
use std::slice;

/// A call: whose it is, and which of the action's calls.
#[derive(Clone, Copy, PartialEq, Eq, Hash)]
pub(crate) struct CallName {
    pub(crate) action: Name,
    pub(crate) number: u32,
}

/// What a node serves: the lock table of its site, and the replies to calls that were performed or
/// bounced in its present incarnation.
#[derive(Drop)]
pub struct Server {
    count: u32,
    pub(crate) table: LockTable,
    /// The answers of the calls that were performed.
    pub(crate) performed: HashMap<CallName, Answer>,
    /// Who stood in the way of the calls that were bounced.
    pub(crate) bounced: HashMap<CallName, Name>,
}

impl Server {
    /// With this table of the site, at this count of the node: nothing is served yet. It takes no
    /// memory.
    pub fn new(alloc: Global, table: LockTable, count: u32) -> Server
        ensures new { IsNew count table.site (answers result) }
        ensures spare { (answers result).table.spare ≡ table.spare }
    {
        Server {
            count,
            table,
            performed: HashMap::new(alloc),
            bounced: HashMap::new(alloc),
        }
    }

    /// The lock table of the site.
    pub fn table(&self) -> &LockTable
        ensures { result.now ≡ (answers self.now).table }
    {
        &self.table
    }

    /// Makes room for this many more outcomes. What is answered stays the same.
    pub fn reserve(&mut self, outcomes: u64) -> Result<(), NoMemory>
        ensures same { AreSame (answers self.old) (answers self.new) }
        ensures ok { OnOk result (outcomes ≤ (answers self.new).table.spare) }
        ensures kept { (answers self.old).table.spare ≤ (answers self.new).table.spare }
    {
        self.table.reserve(outcomes)
    }

    /// The reply that this call was given, if it was performed or bounced in this incarnation.
    fn reply(&self, call: &CallName) -> Option<Reply>
        ensures { result ≡ (answers self.now).kept_reply call.now.action call.now.number }
    {
        if let Some(answer) = self.performed.get(call) {
            return Some(Reply::Done(*answer));
        }
        self.bounced.get(call).map(|holder| Reply::Busy(*holder))
    }

    /// What comes of a call before the lock table is asked, addressed to the site at `count`; `visited` has the pairs that its action has visited.
    /// The first of four tests that holds decides, in the order of [`Performed`]: another count, a known commit of an ancestor, a call that was
    /// answered before, an orphan. None if the lock table decides.
    pub fn tested(
        &self,
        know: &Know,
        action: &Name,
        number: u32,
        count: u32,
        visited: &Deps,
    ) -> Option<Performed>
        ensures { result ≡ tested_by know.now (answers self.now)
            action.now number count visited.now }
    {
        if count != self.count {
            return Some(Performed::Missed);
        }
        if is_ended(know, action) {
            return Some(Performed::Ended);
        }
        let call = CallName {
            action: *action,
            number,
        };
        if let Some(reply) = self.reply(&call) {
            return Some(Performed::Again(reply));
        }
        if let Some(reason) = orphan(know, action, visited) {
            return Some(Performed::Orphan(reason));
        }
        None
    }

    /// A call comes to its site: of an action, under a number, on an object, addressed to the site
    /// at `count`; `visited` has the pairs that its action has visited. The first test that holds
    /// decides, in the order of [`Performed`]: another count, a known commit of an ancestor, a call
    /// that was answered before, an orphan, a lock in the way; else it is performed. The handed-in
    /// server does it, as in [`LockTable::try_lock_and_apply`], whose wants are those of this call.
    /// What the letter brought is known, and the server was informed of it. Want of memory changes
    /// nothing but the handed-in server; a call that does not come as far as the lock table wants
    /// none. The rule stands in `docs/RULES.md`.
    pub fn perform<T: DataType>(
        &mut self,
        know: &Know,
        action: &Name,
        number: u32,
        object: u8,
        op: &Op,
        count: u32,
        visited: &Deps,
        server: &mut T,
    ) -> Result<Performed, NoMemory>
        requires fits { IsTrue
            (fits_here self.old.table.site.objects self.old.table.site.node object op.now) }
        requires index { self.old.table.site.next ≤ 999999999 }
        requires kind { T.kind server.old
            ≡ kind_of (start_of self.old.table.site.objects object) }
        ensures value { IfOk result (λ done. done ≡ performed_by know.now (answers self.old)
            (call action.now number object op.now count visited.now)) }
        ensures new { IfOk result (λ done.
            AfterPerformed (call action.now number object op.now count visited.now)
            done (answers self.old) (answers self.new)) }
        ensures err { OnErr result (AreSame (answers self.old) (answers self.new)) }
        ensures unserved { is_served (performed_by know.now (answers self.old)
            (call action.now number object op.now count visited.now)) ≡ false → IsOk result }
        ensures spare { (answers self.new).table.spare ≡ (answers self.old).table.spare }
        ensures served { IfOk result (λ done. T.held server.new
            ≡ held_after done (call action.now number object op.now count visited.now)
            (answers self.old) (T.held server.old)) }
        // After a call that was performed that is the value of the object.
        ensures holds { IfOk result (λ done. T.held server.new
            ≡ held_by done (value (answers self.new).table.site object) (T.held server.old)) }
        ensures kind_stays { T.kind server.new ≡ T.kind server.old }
    {
        if let Some(done) = self.tested(know, action, number, count, visited) {
            return Ok(done);
        }
        let call = CallName {
            action: *action,
            number,
        };
        self.serve(&call, object, op, server)
    }

    /// The site is informed of these outcomes. It requires a spare of their number
    /// ([`Server::reserve`]), and takes no memory.
    pub fn informed(&mut self, news: &Know)
        requires { length news.now.outcomes ≤ (answers self.old).table.spare }
        ensures informed { IsInformedOf news.now (answers self.old) (answers self.new) }
        ensures spare { (answers self.old).table.spare
            ≤ (answers self.new).table.spare + length news.now.outcomes }
    {
        self.inform_all(news.outcomes());
    }

    /// The site is informed of an outcome that the node has decided. It requires a spare of 1, and
    /// takes no memory.
    pub fn decided(&mut self, outcome: &Outcome)
        requires { 1 ≤ (answers self.old).table.spare }
        ensures informed { IsInformedOfAll (outcome.now ∷ []) (answers self.old)
            (answers self.new) }
        ensures spare { (answers self.old).table.spare ≤ (answers self.new).table.spare + 1 }
    {
        self.inform_all(slice::from_ref(outcome));
    }

    /// An equal server, but for its room.
    pub fn copy(&self) -> Result<Server, NoMemory>
        ensures { IfOk result (λ copy. AreSame (answers self.now) (answers copy)) }
    {
        Ok(Server {
            count: self.count,
            table: self.table.copy()?,
            performed: self.performed.clone()?,
            bounced: self.bounced.clone()?,
        })
    }

    fn inform_all(&mut self, outcomes: &[Outcome])
        requires { length outcomes.now ≤ self.old.table.spare }
        ensures informed { IsInformedOfAll outcomes.now (answers self.old) (answers self.new) }
        ensures spare { self.old.table.spare ≤ self.new.table.spare + length outcomes.now }
    {
        for outcome in outcomes {
            self.inform(outcome);
        }
    }

    fn inform(&mut self, outcome: &Outcome)
        requires { 1 ≤ self.old.table.spare }
        ensures count { self.new.count ≡ self.old.count }
        ensures site { self.new.table.site ≡ informed_of outcome.now self.old.table.site }
        ensures spare { self.old.table.spare ≤ self.new.table.spare + 1 }
        ensures replies { (c : CallValue) → reply_in self.new c ≡ reply_in self.old c }
    {
        match outcome {
            Outcome::Aborted(name) => self.table.abort(name),
            Outcome::Committed(name, _) => self.table.commit(name),
        }
    }

    /// A call that was not answered before comes to the lock table. Room for the reply is made
    /// first, so that nothing fails after a grant.
    fn serve<T: DataType>(
        &mut self,
        call: &CallName,
        object: u8,
        op: &Op,
        server: &mut T,
    ) -> Result<Performed, NoMemory>
        requires fits { IsTrue
            (fits_here self.old.table.site.objects self.old.table.site.node object op.now) }
        requires index { self.old.table.site.next ≤ 999999999 }
        requires kind { T.kind server.old
            ≡ kind_of (start_of self.old.table.site.objects object) }
        requires fresh { reply_in self.old call.now ≡ None }
        ensures value { IfOk result (λ done.
            done ≡ granted (grant self.old.table.site call.now.action object op.now)) }
        ensures count { self.new.count ≡ self.old.count }
        ensures site { OnOk result (self.new.table.site
            ≡ after_grant self.old.table.site call.now.action object op.now) }
        ensures replies { IfOk result (λ done. IsNoted call.now (reply_of done) self.old self.new) }
        ensures err { OnErr result (AreSame (answers self.old) (answers self.new)) }
        ensures spare { self.new.table.spare ≡ self.old.table.spare }
        ensures served { OnOk result (T.held server.new
            ≡ served self.old.table.site call.now.action object op.now (T.held server.old)) }
        ensures holds { IfOk result (λ done. T.held server.new
            ≡ held_by done (value self.new.table.site object) (T.held server.old)) }
        ensures kind_stays { T.kind server.new ≡ T.kind server.old }
    {
        self.performed.reserve(1)?;
        self.bounced.reserve(1)?;
        let grant = self
            .table
            .try_lock_and_apply(&call.action, object, op, server)?;
        Ok(self.note(call, &grant))
    }

    /// Notes the reply to a call that was not answered before. There is room, so it takes no
    /// memory.
    fn note(&mut self, call: &CallName, grant: &Grant) -> Performed
        requires fresh { reply_in self.old call.now ≡ None }
        requires room { 1 ≤ (answers self.old).room }
        ensures value { result ≡ granted grant.now }
        ensures count { self.new.count ≡ self.old.count }
        ensures table { self.new.table ≡ self.old.table }
        ensures replies { IsNoted call.now (reply_of (granted grant.now)) self.old self.new }
    {
        match grant {
            Grant::Done(answer) => {
                let _ = self.performed.insert(*call, *answer);
                Performed::Done(*answer)
            }
            Grant::Conflict(holder) => {
                let _ = self.bounced.insert(*call, *holder);
                Performed::Busy(*holder)
            }
        }
    }
}

/// Whether the commit of an ancestor of the action is known.
fn is_ended(know: &Know, action: &Name) -> bool
    ensures { result ≡ list_any (knows_commit know.now) (ancestors action.now) }
{
    match action.parent() {
        None => know.is_committed(action),
        Some(parent) => know.is_committed(action) || is_ended(know, &parent),
    }
}
