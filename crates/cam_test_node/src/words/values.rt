//! What deeds and letters speak of: operations and their answers, notes, and what an action depends on.
use super::Telling;
use cam_base::NoMemory;
use cam_event::{Note, Reply, Seen};
use cam_know::Reason;
use cam_names::{Deps, Name};
use cam_type::{Answer, Op};

impl Telling {
    pub(super) fn op(&mut self, op: &Op) -> Result<(), NoMemory> {
        match op {
            Op::Read => self.word("read"),
            Op::Write(value) => self.valued("write", *value),
            Op::Swap(value) => self.valued("swap", *value),
            Op::Size => self.word("size"),
            Op::Put(value) => self.valued("put", *value),
            Op::Take => self.word("take"),
            Op::Add(value) => self.valued("add", *value),
        }
    }

    pub(super) fn answer(&mut self, answer: &Answer) -> Result<(), NoMemory> {
        match answer {
            Answer::Ok => self.word("ok"),
            Answer::Value(value) => self.valued("value", *value),
            Answer::Empty => self.word("empty"),
        }
    }

    fn reason(&mut self, reason: &Reason) -> Result<(), NoMemory> {
        match reason {
            Reason::Abort(ancestor) => self.named("abort", ancestor),
            Reason::Crash { node, old, new } => {
                self.valued("crash", i64::from(*node))?;
                self.number(i64::from(*old))?;
                self.number(i64::from(*new))
            }
        }
    }

    pub(super) fn note(&mut self, note: &Note) -> Result<(), NoMemory> {
        match note {
            Note::Stopped(action, reason) => {
                self.named("stopped", action)?;
                self.reason(reason)
            }
            Note::Preparing(action) => self.named("preparing", action),
            Note::Plain => self.word("plain"),
            Note::Missed => self.word("missed"),
            Note::Again => self.word("again"),
            Note::Ended => self.word("ended"),
            Note::Late => self.word("late"),
            Note::Voted => self.word("voted"),
        }
    }

    pub(super) fn seen(&mut self, seen: &Seen) -> Result<(), NoMemory> {
        match seen {
            Seen::Done(answer) => self.answer(answer),
            Seen::Busy(holder) => self.named("busy", holder),
            Seen::Gone => self.word("gone"),
        }
    }

    pub(super) fn reply(&mut self, reply: &Reply) -> Result<(), NoMemory> {
        match reply {
            Reply::Done(answer) => self.answer(answer),
            Reply::Busy(holder) => self.named("busy", holder),
            Reply::Missed => self.word("missed"),
            Reply::Refused => self.word("refused"),
        }
    }

    /// The nodes on which an action depends, each with its count.
    pub(super) fn deps(&mut self, deps: &Deps) -> Result<(), NoMemory> {
        self.word("deps")?;
        for node in 1..=8u8 {
            let count = deps.count_of(node);
            if count > 0 {
                self.pair(node, count)?;
            }
        }
        Ok(())
    }

    /// A call: its action and number, the object, what is asked of it, and the count that is addressed.
    pub(super) fn call(
        &mut self,
        action: &Name,
        number: u32,
        object: u8,
        op: &Op,
        count: u32,
    ) -> Result<(), NoMemory> {
        self.numbered("call", action, i64::from(number))?;
        self.number(i64::from(object))?;
        self.op(op)?;
        self.valued("at", i64::from(count))
    }
}
