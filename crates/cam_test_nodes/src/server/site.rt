//! A site that serves a register and a queue, and steps that are played at it.
use cam_base::NoMemory;
use cam_know::{Know, Outcome, Reason};
use cam_locks::{LockTable, may_restore};
use cam_names::{Deps, Name};
use cam_server::{Performed, Server};
use cam_type::{
    DataType, HeldList, Items, ObjectDecl, Objects, Op, QueueServer, RegisterServer, State,
};
use std::alloc::Global;
use std::test::Fail;

/// The places of the objects.
const REGISTER: u8 = 0;

const QUEUE: u8 = 1;

/// A call as it comes to its site, with what its action has visited.
#[derive(Clone, Copy)]
pub(super) struct Call {
    pub(super) action: Name,
    pub(super) number: u32,
    pub(super) op: Op,
    pub(super) count: u32,
    pub(super) visited: Deps,
}

/// What happens at a site.
#[derive(Clone, Copy)]
pub(super) enum Step {
    /// A call comes, and is answered so.
    Called(Call, Performed),
    /// A letter tells an outcome.
    Told(Outcome),
    /// The node decides it.
    Decided(Outcome),
    /// The server is replaced by a copy.
    Copied,
    /// A letter tells that this node has restarted, and its count.
    Restarted(u8, u32),
    /// The node secures a family.
    Secured(Name),
    /// The node itself restarts, at this count.
    Crashed(u32),
}

/// Its action's call of this number, which comes at the count 1.
pub(super) fn called(action: &Name, number: u32, op: Op, answer: Performed) -> Step {
    addressed(action, number, op, 1, answer)
}

/// Its action's call of this number, which comes at this count.
pub(super) fn addressed(action: &Name, number: u32, op: Op, count: u32, answer: Performed) -> Step {
    let call = Call {
        action: *action,
        number,
        op,
        count,
        visited: Deps::none().with(1, 1),
    };
    Step::Called(call, answer)
}

/// The answer to an orphan that has visited a node at the count `old`, where `new` is known.
pub(super) fn crash_orphan(node: u8, old: u32, new: u32) -> Performed {
    Performed::Orphan(Reason::Crash { node, old, new })
}

/// A node that serves a register and a queue, at its count 1.
#[derive(Drop)]
struct Site {
    objects: Objects,
    node: u8,
    held: HeldList,
    know: Know,
    server: Server,
    holders: Holders,
}

/// What holds the state of an object while it is called.
#[derive(Drop)]
struct Holders {
    register: RegisterServer,
    queue: QueueServer,
}

impl Holders {
    /// What holds the state of an object while none is called.
    fn new(alloc: Global) -> Holders {
        Holders {
            register: RegisterServer::new(),
            queue: QueueServer::new(alloc),
        }
    }
}

impl Site {
    /// The node of these objects, which knows nothing and has secured nothing.
    fn new(alloc: Global, node: u8, objects: Objects, server: Server) -> Site {
        Site {
            objects,
            node,
            held: HeldList::new(alloc),
            know: Know::new(alloc),
            server,
            holders: Holders::new(alloc),
        }
    }

    /// What the call is answered. None where no call may come so.
    fn call(&mut self, call: &Call) -> Result<Option<Performed>, NoMemory> {
        match call.op {
            Op::Put(_) | Op::Take | Op::Size => {
                let holder = &mut self.holders.queue;
                ask(&mut self.server, &self.know, call, QUEUE, holder)
            }
            _ => {
                let holder = &mut self.holders.register;
                ask(&mut self.server, &self.know, call, REGISTER, holder)
            }
        }
    }

    fn decide(&mut self, outcome: &Outcome) -> Result<(), Fail> {
        self.know.add(outcome)?;
        self.server.reserve(1)?;
        self.server.decided(outcome);
        Ok(())
    }

    fn secure(&mut self, family: &Name) -> Result<(), Fail> {
        let held = self.server.table().secure(family, 1)?;
        self.held.push(held)?;
        Ok(())
    }

    /// The node restarts, at this count: what it knows and what it has secured stay.
    fn crash(&mut self, alloc: Global, count: u32) -> Result<(), Fail> {
        let server = self.restarted(alloc, count)?;
        self.server = server;
        Ok(())
    }

    /// The server after a restart, at this count.
    fn restarted(&self, alloc: Global, count: u32) -> Result<Server, Fail> {
        let table = self.restored(alloc)?;
        Ok(Server::new(alloc, table, count))
    }

    /// The locks of what was secured.
    fn restored(&self, alloc: Global) -> Result<LockTable, Fail> {
        if !may_restore(alloc, &self.objects, self.node, &self.held)? {
            return Err(Fail::new("what was secured cannot be restored"));
        }
        let table = LockTable::restore(alloc, &self.objects, self.node, &self.held, &self.know)?;
        Ok(table)
    }

    /// A letter tells that this node, 1 to 8, has restarted, and its count, at most 1,000,000,000.
    fn hear_of_restart(&mut self, node: u8, count: u32) -> Result<(), Fail> {
        if node == 0 || node > 8 || count > 1_000_000_000 {
            return Err(Fail::new("no node has this number or this count"));
        }
        self.know.raise(node, count);
        Ok(())
    }

    fn copy_server(&mut self) -> Result<(), Fail> {
        let copy = self.server.copy()?;
        self.server = copy;
        Ok(())
    }

    /// The first of these steps, one after the other, whose call is answered otherwise.
    fn first_other(&mut self, alloc: Global, steps: &[Step]) -> Result<Option<Other>, Fail> {
        for (place, step) in steps.iter().enumerate() {
            if let Step::Called(call, expected) = step {
                let answer = self.call(call)?;
                if answer != Some(*expected) {
                    return Ok(Some(Other { place, answer }));
                }
            } else {
                self.change(alloc, step)?;
            }
        }
        Ok(None)
    }

    /// What happens at the site besides calls.
    fn change(&mut self, alloc: Global, step: &Step) -> Result<(), Fail> {
        match step {
            Step::Called(_, _) => Err(Fail::new("a call is no change")),
            Step::Told(outcome) => self.tell(alloc, outcome),
            Step::Decided(outcome) => self.decide(outcome),
            Step::Copied => self.copy_server(),
            Step::Restarted(node, count) => self.hear_of_restart(*node, *count),
            Step::Secured(family) => self.secure(family),
            Step::Crashed(count) => self.crash(alloc, *count),
        }
    }

    /// The outcome is learnt, and the site is informed of it.
    fn tell(&mut self, alloc: Global, outcome: &Outcome) -> Result<(), Fail> {
        let mut news = Know::new(alloc);
        news.add(outcome)?;
        self.learn(&news)
    }

    fn learn(&mut self, news: &Know) -> Result<(), Fail> {
        self.know.join(news)?;
        self.server.reserve(news.len())?;
        self.server.informed(news);
        Ok(())
    }
}

fn ask<T: DataType>(
    server: &mut Server,
    know: &Know,
    call: &Call,
    object: u8,
    holder: &mut T,
) -> Result<Option<Performed>, NoMemory> {
    let table = server.table();
    let may_come = table.takes(object, &call.op) && table.next_index() <= 999_999_999;
    if !may_come || table.kind(object) != holder.kind() {
        return Ok(None);
    }
    let answer = server.perform(
        know,
        &call.action,
        call.number,
        object,
        &call.op,
        call.count,
        &call.visited,
        holder,
    )?;
    Ok(Some(answer))
}

/// A step whose call was answered otherwise.
#[derive(Clone, Copy, Debug, PartialEq)]
pub(super) struct Other {
    place: usize,
    answer: Option<Performed>,
}

/// The register, which begins with this value, and the queue, which begins empty: both of this node.
fn two_objects(alloc: Global, node: u8, value: i64) -> Result<Objects, NoMemory> {
    let mut objects = Objects::new(alloc);
    objects.push(ObjectDecl {
        node,
        start: State::Register(value),
    })?;
    objects.push(ObjectDecl {
        node,
        start: State::Queue(Items::new(alloc)),
    })?;
    Ok(objects)
}

/// The server of a node at its count 1, to which no call has come.
fn new_server(alloc: Global, node: u8, objects: &Objects) -> Result<Server, NoMemory> {
    let table = LockTable::new(alloc, objects, node)?;
    Ok(Server::new(alloc, table, 1))
}

/// The first of these steps, one after the other at a node whose register begins with this value, whose call is answered otherwise.
pub(super) fn first_other(
    alloc: Global,
    node: u8,
    value: i64,
    steps: &[Step],
) -> Result<Option<Other>, Fail> {
    let objects = two_objects(alloc, node, value)?;
    let server = new_server(alloc, node, &objects)?;
    let mut site = Site::new(alloc, node, objects, server);
    site.first_other(alloc, steps)
}
