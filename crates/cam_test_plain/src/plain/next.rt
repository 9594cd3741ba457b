//! Deeds that are tried after some others: most are what an action or a site may do next, and the rest are not far from it.

use super::before::{Asked, Before};
use cam_base::NoMemory;
use cam_event::{Deed, Deeds, Seen};
use cam_names::{Name, Part};
use cam_samples::Draw;
use cam_type::{Answer, Op, site_of};
use std::alloc::Global;

/// The deeds so far, and the actions that they name.
#[derive(Clone, Copy)]
pub(super) struct Next<'a> {
    pub(super) before: Before<'a>,
    pub(super) names: &'a [Name],
}

impl Next<'_> {
    /// Adds what is tried now, of a kind that is drawn: a deed, or nothing where no action was named.
    pub(super) fn add(
        &self,
        alloc: Global,
        draw: &mut Draw,
        tried: &mut Deeds,
    ) -> Result<(), NoMemory> {
        let kind = draw.below(24);
        if kind == 0 {
            return self.add_top(draw, tried);
        }
        let Some(action) = self.name(draw) else {
            return Ok(());
        };
        match kind {
            1 => self.add_ask(draw, &action, tried),
            2..=5 => self.add_call(draw, &action, tried),
            6..=9 => self.add_reply(alloc, draw, &action, tried),
            10..=13 => self.add_got(draw, &action, tried),
            14 | 15 => self.add_inform(draw, &action, tried),
            16..=18 => self.add_secure(draw, &action, tried),
            19 if draw.below(6) == 0 => tried.push_copy(&Deed::Crash { site: node(draw) }),
            _ => self.add_end(draw, &action, tried),
        }
    }

    /// One of the last actions that were named.
    fn name(&self, draw: &mut Draw) -> Option<Name> {
        self.names.iter().rev().nth(draw.below(6) as usize).copied()
    }

    /// A part of a name at a node, mostly at the node's count.
    fn part(&self, draw: &mut Draw, node: u8, number: u32) -> Option<Part> {
        let count = near(draw, self.before.count(node));
        Part::new(node, count, number)
    }

    fn add_top(&self, draw: &mut Draw, tried: &mut Deeds) -> Result<(), NoMemory> {
        let node = node(draw);
        let number = near(draw, self.before.next_top(node, self.before.count(node)));
        match self.part(draw, node, number) {
            Some(part) => tried.push_copy(&Deed::Create {
                action: Name::top(part),
            }),
            None => Ok(()),
        }
    }

    /// The name of a child of an action, mostly the next one.
    fn child(&self, draw: &mut Draw, parent: &Name) -> Option<Name> {
        let number = near(draw, self.before.next_child(parent));
        let node = node(draw);
        parent.child(self.part(draw, node, number)?)
    }

    fn add_ask(&self, draw: &mut Draw, action: &Name, tried: &mut Deeds) -> Result<(), NoMemory> {
        match self.child(draw, action) {
            Some(child) => tried.push_copy(&Deed::Ask {
                action: *action,
                child,
            }),
            None => Ok(()),
        }
    }

    fn add_call(&self, draw: &mut Draw, action: &Name, tried: &mut Deeds) -> Result<(), NoMemory> {
        let object = draw.below(3);
        tried.push_copy(&Deed::Call {
            action: *action,
            number: near(draw, self.before.next_call(action)),
            object,
            op: op(draw, object),
            count: near(
                draw,
                self.before.count(site_of(self.before.objects, object)),
            ),
        })
    }

    /// The number of the open call of an action, or now and then of another one.
    fn open(&self, draw: &mut Draw, action: &Name) -> u32 {
        near(draw, self.before.open_call(action).unwrap_or(1))
    }

    /// A reply to a call: mostly that which its site gives.
    fn add_reply(
        &self,
        alloc: Global,
        draw: &mut Draw,
        action: &Name,
        tried: &mut Deeds,
    ) -> Result<(), NoMemory> {
        let number = self.open(draw, action);
        match self.before.arriving(action, number) {
            Some(call) if draw.below(5) > 0 => {
                self.add_right_reply(alloc, action, number, &call, tried)
            }
            _ => self.add_some_reply(draw, action, number, tried),
        }
    }

    fn add_right_reply(
        &self,
        alloc: Global,
        action: &Name,
        number: u32,
        call: &Asked,
        tried: &mut Deeds,
    ) -> Result<(), NoMemory> {
        match self.before.holder(alloc, action, call)? {
            Some(holder) => tried.push_copy(&Deed::Bounce {
                action: *action,
                number,
                holder,
            }),
            None => {
                let answer = self.before.answer(alloc, call)?;
                tried.push_copy(&Deed::Perform {
                    action: *action,
                    number,
                    answer,
                })
            }
        }
    }

    /// A reply that is seldom right.
    fn add_some_reply(
        &self,
        draw: &mut Draw,
        action: &Name,
        number: u32,
        tried: &mut Deeds,
    ) -> Result<(), NoMemory> {
        if draw.below(2) == 0 {
            return tried.push_copy(&Deed::Bounce {
                action: *action,
                number,
                holder: action.family(),
            });
        }
        tried.push_copy(&Deed::Perform {
            action: *action,
            number,
            answer: Answer::Value(draw.below(3) as i64),
        })
    }

    fn add_got(&self, draw: &mut Draw, action: &Name, tried: &mut Deeds) -> Result<(), NoMemory> {
        let number = self.open(draw, action);
        let seen = if draw.below(5) == 0 {
            Seen::Done(Answer::Ok)
        } else {
            self.seen(action, number)
        };
        tried.push_copy(&Deed::Got {
            action: *action,
            number,
            seen,
        })
    }

    /// What became of a call, and that it is gone where there was no reply.
    fn seen(&self, caller: &Name, call: u32) -> Seen {
        let mut seen = Seen::Gone;
        for deed in self.before.deeds {
            match deed {
                Deed::Perform {
                    action,
                    number,
                    answer,
                } if action == caller && *number == call => seen = Seen::Done(*answer),
                Deed::Bounce {
                    action,
                    number,
                    holder,
                } if action == caller && *number == call => seen = Seen::Busy(*holder),
                _ => {}
            }
        }
        seen
    }

    fn add_inform(&self, draw: &mut Draw, name: &Name, tried: &mut Deeds) -> Result<(), NoMemory> {
        let has_committed = self.before.has(&Deed::Commit { action: *name });
        tried.push_copy(&Deed::Inform {
            site: node(draw),
            name: *name,
            committed: if draw.below(5) == 0 {
                !has_committed
            } else {
                has_committed
            },
        })
    }

    fn add_secure(&self, draw: &mut Draw, name: &Name, tried: &mut Deeds) -> Result<(), NoMemory> {
        let site = node(draw);
        tried.push_copy(&Deed::Secure {
            family: name.family(),
            site,
            count: near(draw, self.before.count(site)),
        })
    }

    /// The beginning of an action, what it asks for at its end, or its end.
    fn add_end(&self, draw: &mut Draw, name: &Name, tried: &mut Deeds) -> Result<(), NoMemory> {
        let action = *name;
        let is_usual = draw.below(3) > 0;
        if is_usual && !self.before.has(&Deed::Create { action }) {
            return tried.push_copy(&Deed::Create { action });
        }
        if is_usual && self.before.asked_commit(&action) {
            return tried.push_copy(&Deed::Commit { action });
        }
        tried.push_copy(&match draw.below(10) {
            0 => Deed::AskAbort { action },
            1 => Deed::Abort { action },
            2 => Deed::Commit { action },
            3 => Deed::Create { action },
            _ => Deed::AskCommit { action, value: 7 },
        })
    }
}

/// One of the two nodes.
fn node(draw: &mut Draw) -> u8 {
    1 + draw.below(2)
}

/// This number, and now and then another.
fn near(draw: &mut Draw, number: u32) -> u32 {
    if draw.below(8) == 0 {
        1 + draw.below(3) as u32
    } else {
        number
    }
}

/// An operation, mostly one that the object has.
fn op(draw: &mut Draw, object: u8) -> Op {
    let value = draw.below(3) as i64;
    match (object, draw.below(4)) {
        (_, 0) => Op::Read,
        (0, _) => Op::Write(value),
        (1, 1) => Op::Take,
        (1, _) => Op::Put(value),
        _ => Op::Add(value),
    }
}
