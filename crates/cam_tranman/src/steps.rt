//! The steps of actions at their home, each one change of what is kept. A step that may want memory
//! leaves all as it was if there is none; where there is room ([`Homed::reserve`]) it requires
//! none.
ghost use Rattle.std.specs.Prelude.{◌≡◌, ◌≤◌, ◌<◌, true, Some, None, OnOk, OnErr, IsOk, IfOk};
ghost use Rattle.cam_names.specs.Names.{home_node, home_count};
ghost use Rattle.cam_event.specs.declared.Want.TheVariants as wants;
ghost use Rattle.cam_tranman.specs.Actions.{created, asks, calls};
ghost use Rattle.cam_tranman.specs.Tables.{answers};
ghost use Rattle.cam_tranman.specs.Calls.{AreSame, IsFree, next_top, next_child, next_call};
ghost use Rattle.cam_tranman.specs.Calls.{started_by, taken_by, decides_by, begun, begun_child};
ghost use Rattle.cam_tranman.specs.Calls.{after_start, asked, called, finished, got, seen_of};
ghost use Rattle.cam_tranman.specs.Calls.{taken_at, after_taken, decided};

use crate::action::Action;
use crate::deps::{at, union};
use crate::homed::Homed;
use crate::tables::{call_in, close_call, end_in, keep, kept_in, open_call, parent_gains, see_in};
use crate::{OpenCall, Started, Taken};
use cam_base::NoMemory;
use cam_event::{Reply, Seen};
use cam_names::{Deps, Name, Part};
use cam_type::Op;

impl Homed {
    /// Begins the next top action: its name. Fewer than 1,000,000,000 were begun.
    pub fn begin(&mut self) -> Result<Name, NoMemory>
        requires { (answers self.old).tops < 1000000000 }
        ensures name { IfOk result (λ name. name ≡ next_top (answers self.old)) }
        ensures ok { OnOk result (AreSame (begun (answers self.old)) (answers self.new)) }
        ensures err { OnErr result (AreSame (answers self.old) (answers self.new)) }
        ensures room { 1 ≤ (answers self.old).room → IsOk result }
    {
        self.reserve()?;
        let name = Name::top(Part {
            node: self.node,
            count: self.count,
            number: self.tops + 1,
        });
        self.tops += 1;
        self.create(&name, &Deps::none());
        Ok(name)
    }

    /// A child whose home is this node, at its present count, is created here, with what its parent
    /// depended on when it asked for it. One that was created before stays as it is, and needs no
    /// memory.
    pub fn start(&mut self, child: &Name, deps: &Deps) -> Result<Started, NoMemory>
        requires { (home_node child.now ≡ (answers self.old).node)
            × (home_count child.now ≡ (answers self.old).count) }
        ensures value { IfOk result (λ started. started ≡ started_by (answers self.old) child.now) }
        ensures ok { OnOk result (AreSame (after_start child.now deps.now (answers self.old))
            (answers self.new)) }
        ensures err { OnErr result (AreSame (answers self.old) (answers self.new)) }
        ensures room { 1 ≤ (answers self.old).room → IsOk result }
        ensures known { created (answers self.old) child.now ≡ true → IsOk result }
    {
        if kept_in(&self.actions, child).is_some() {
            return Ok(Started::Known);
        }
        self.reserve()?;
        self.create(child, deps);
        Ok(Started::New)
    }

    /// An action asks for a child at a node, 1 to 8, whose known count is 1 to 1,000,000,000: the
    /// child's name. It has asked for fewer than 1,000,000,000.
    pub fn ask(&mut self, action: &Name, node: u8, count: u32) -> Result<Name, NoMemory>
        requires node { (1 ≤ node) × (node ≤ 8) }
        requires count { (1 ≤ count) × (count ≤ 1000000000) }
        requires free { IsFree (answers self.old) action.now (wants.Ask node) }
        requires number { asks (answers self.old) action.now < 1000000000 }
        ensures name { IfOk result (λ name. name
            ≡ next_child (answers self.old) action.now node count) }
        ensures ok { OnOk result (AreSame (asked action.now
            (next_child (answers self.old) action.now node count) (answers self.old))
            (answers self.new)) }
        ensures err { OnErr result (AreSame (answers self.old) (answers self.new)) }
        ensures room { 1 ≤ (answers self.old).room → IsOk result }
    {
        self.reserve()?;
        let kept = kept_in(&self.actions, action).unwrap();
        let child = action
            .child(Part {
                node,
                count,
                number: kept.asks + 1,
            })
            .unwrap();
        keep(&mut self.actions, action, &kept.with_ask());
        self.children.insert(&child);
        Ok(child)
    }

    /// An action calls an object of a node, 1 to 8, whose known count is 1 to 1,000,000,000: the
    /// call's number. It has made fewer than 1,000,000,000.
    pub fn call(
        &mut self,
        action: &Name,
        object: u8,
        op: &Op,
        site: u8,
        count: u32,
    ) -> Result<u32, NoMemory>
        requires site { (1 ≤ site) × (site ≤ 8) }
        requires count { (1 ≤ count) × (count ≤ 1000000000) }
        requires free { IsFree (answers self.old) action.now (wants.Call object op.now) }
        requires number { calls (answers self.old) action.now < 1000000000 }
        ensures value { IfOk result (λ number. number ≡ next_call (answers self.old) action.now) }
        ensures ok { IfOk result (λ number. AreSame
            (called action.now (record {
              number = number;
              object = object;
              op = op.now;
              site = site;
              count = count;
            }) (answers self.old)) (answers self.new)) }
        ensures err { OnErr result (AreSame (answers self.old) (answers self.new)) }
        ensures room { 1 ≤ (answers self.old).room → IsOk result }
    {
        self.reserve()?;
        let kept = kept_in(&self.actions, action).unwrap();
        let number = kept.calls + 1;
        keep(&mut self.actions, action, &kept.with_call());
        let call = OpenCall {
            number,
            object,
            op: *op,
            site,
            count,
        };
        open_call(&mut self.calls, action, &call);
        Ok(number)
    }
}

impl Homed {
    /// The answer to a call of an action comes, where the count of the call's site is known as
    /// `known`. It takes no memory.
    pub fn answer(&mut self, action: &Name, number: u32, reply: &Reply, known: u32) -> Taken
        ensures value { result ≡ taken_by (answers self.old) action.now number reply.now known }
        ensures new { AreSame (after_taken action.now result (answers self.old))
            (answers self.new) }
    {
        if !self.awaits(action, number) {
            return Taken::Late;
        }
        let Some(call) = call_in(&self.calls, action) else {
            return Taken::Late;
        };
        match taken_at(&call, reply, known) {
            Taken::Got(seen) => {
                self.see(action, &call, &seen);
                Taken::Got(seen)
            }
            Taken::Late => Taken::Late,
        }
    }

    /// An action has asked to commit. It takes no memory.
    pub fn finish(&mut self, action: &Name, value: i64)
        requires { IsFree (answers self.old) action.now (wants.Commit value) }
        ensures { AreSame (finished action.now (answers self.old)) (answers self.new) }
    {
        self.end(action);
    }

    /// An action has asked to abort. It takes no memory.
    pub fn quit(&mut self, action: &Name)
        requires { IsFree (answers self.old) action.now wants.Abort }
        ensures { AreSame (finished action.now (answers self.old)) (answers self.new) }
    {
        self.end(action);
    }

    /// A child that is to be decided commits, and depends on these, or aborts. It takes no memory.
    pub fn decide(&mut self, child: &Name, commit: &Option<Deps>)
        requires { decides_by (answers self.old) child.now ≡ true }
        ensures { AreSame (decided child.now commit.now (answers self.old)) (answers self.new) }
    {
        match commit {
            Some(deps) => self.commit_child(child, deps),
            None => self.close_child(child),
        }
    }

    /// An action gives up a child. It takes no memory.
    pub fn give_up(&mut self, action: &Name, child: &Name)
        requires { IsFree (answers self.old) action.now (wants.GiveUp child.now) }
        ensures { AreSame (decided child.now None (answers self.old)) (answers self.new) }
    {
        self.close_child(child);
    }

    /// A child is open no longer.
    fn close_child(&mut self, child: &Name)
        ensures { AreSame (decided child.now None (answers self.old)) (answers self.new) }
    {
        self.children.remove(child);
    }

    /// A child commits, and depends on these.
    fn commit_child(&mut self, child: &Name, deps: &Deps)
        ensures { AreSame (decided child.now (Some deps.now) (answers self.old))
            (answers self.new) }
    {
        parent_gains(&mut self.actions, child, deps);
        self.children.remove(child);
    }

    /// An action comes here new, with these dependencies and its home. There is room for it.
    fn create(&mut self, action: &Name, deps: &Deps)
        requires home { (home_node action.now ≡ (answers self.old).node)
            × (home_count action.now ≡ (answers self.old).count) }
        requires room { 1 ≤ (answers self.old).room }
        ensures { AreSame (begun_child action.now deps.now (answers self.old)) (answers self.new) }
    {
        let deps = union(deps, &at(self.node, self.count));
        keep(&mut self.actions, action, &Action::fresh(&deps));
    }

    /// An action has ended.
    fn end(&mut self, action: &Name)
        ensures { AreSame (finished action.now (answers self.old)) (answers self.new) }
    {
        end_in(&mut self.actions, action);
    }

    /// An action sees this of its open call.
    fn see(&mut self, action: &Name, call: &OpenCall, seen: &Seen)
        requires { (answers self.old).call action.now ≡ Some call.now }
        ensures { AreSame (got action.now seen.now (answers self.old)) (answers self.new) }
    {
        see_in(&mut self.actions, action, call, seen);
        close_call(&mut self.calls, action);
    }
}

/// What an action sees of a reply to its open call: it is gone where its site has crashed since it
/// was addressed.
pub(crate) fn taken_at(call: &OpenCall, reply: &Reply, known: u32) -> Taken
    ensures { result ≡ taken_at (Some call.now) reply.now known }
{
    if call.count < known {
        Taken::Got(Seen::Gone)
    } else {
        seen_of(reply)
    }
}

fn seen_of(reply: &Reply) -> Taken
    ensures { result ≡ seen_of reply.now }
{
    match reply {
        Reply::Done(answer) => Taken::Got(Seen::Done(*answer)),
        Reply::Busy(holder) => Taken::Got(Seen::Busy(*holder)),
        Reply::Missed | Reply::Refused => Taken::Late,
    }
}
