//! Inputs of node 1, read from lines of words.
mod bodies;

use cam_event::{Body, Letter, LetterId, Reply, Request, Want};
use cam_know::{Know, Outcome};
use cam_names::{Deps, Name};
use cam_node::Input;
use cam_type::{Answer, Op};
use std::alloc::Global;
use std::test::Fail;

/// What a line has done to a node.
#[derive(Drop)]
pub(crate) enum Line {
    /// `stop 3`: its disk does three calls more.
    Stop(u32),
    /// `clear`: its disk goes on.
    Clear,
    /// `restart`
    Restart,
    /// `told 2`: it tells a node what it knows, letter and all.
    Told(u8),
    /// It gets an input.
    Put(Input),
}

impl Line {
    pub(crate) fn read(alloc: Global, line: &str) -> Result<Line, Fail> {
        Words::of(line).line(alloc)
    }
}

/// The words of a line that are not read yet. One blank stands between two.
#[derive(Drop)]
struct Words<'a> {
    rest: &'a str,
}

impl<'a> Words<'a> {
    fn of(line: &'a str) -> Words<'a> {
        Words { rest: line }
    }

    /// The next word; the empty text where there is none.
    fn word(&mut self) -> &'a str {
        match self.rest.split_once(' ') {
            Some((word, rest)) => {
                self.rest = rest;
                word
            }
            None => {
                let word = self.rest;
                self.rest = "";
                word
            }
        }
    }

    fn name(&mut self) -> Result<Name, Fail> {
        Ok(Name::parse(self.word())?)
    }

    fn number(&mut self) -> Result<u32, Fail> {
        Ok(self.word().parse::<u32>()?)
    }

    /// A node, or an object.
    fn small(&mut self) -> Result<u8, Fail> {
        Ok(self.word().parse::<u8>()?)
    }

    fn value(&mut self) -> Result<i64, Fail> {
        Ok(self.word().parse::<i64>()?)
    }

    fn place(&mut self) -> Result<u64, Fail> {
        Ok(self.word().parse::<u64>()?)
    }

    /// This word has to be the next.
    fn expect(&mut self, word: &str) -> Result<(), Fail> {
        if self.word() == word {
            Ok(())
        } else {
            Err(Fail::new("another word stands there"))
        }
    }

    /// An operation: `read`, `write 7`.
    fn op(&mut self) -> Result<Op, Fail> {
        Ok(match self.word() {
            "read" => Op::Read,
            "write" => Op::Write(self.value()?),
            "swap" => Op::Swap(self.value()?),
            "add" => Op::Add(self.value()?),
            "take" => Op::Take,
            _ => return Err(Fail::new("no operation is called so")),
        })
    }

    fn reply(&mut self) -> Result<Reply, Fail> {
        Ok(match self.word() {
            "ok" => Reply::Done(Answer::Ok),
            "value" => Reply::Done(Answer::Value(self.value()?)),
            "busy" => Reply::Busy(self.name()?),
            "missed" => Reply::Missed,
            "refused" => Reply::Refused,
            _ => return Err(Fail::new("no reply is called so")),
        })
    }

    /// The rest of the line: `deps 1:1 2:1`.
    fn deps(&mut self) -> Result<Deps, Fail> {
        self.expect("deps")?;
        let mut deps = Deps::none();
        for pair in self.rest.split(" ") {
            deps = with_pair(&deps, pair)?;
        }
        Ok(deps)
    }
}

/// These, and one more: `2:1`, a node and its count.
fn with_pair(deps: &Deps, pair: &str) -> Result<Deps, Fail> {
    let Some((node, count)) = pair.split_once(':') else {
        return Err(Fail::new("no pair of a node and a count"));
    };
    with(deps, node.parse::<u8>()?, count.parse::<u32>()?)
}

fn with(deps: &Deps, node: u8, count: u32) -> Result<Deps, Fail> {
    if node == 0 || node > 8 || count == 0 || count > 1_000_000_000 || deps.count_of(node) != 0 {
        return Err(Fail::new("a node or a count is not in its range"));
    }
    Ok(deps.with(node, count))
}

impl Words<'_> {
    fn line(&mut self, alloc: Global) -> Result<Line, Fail> {
        Ok(match self.word() {
            "stop" => Line::Stop(self.number()?),
            "clear" => Line::Clear,
            "restart" => Line::Restart,
            "told" => Line::Told(self.small()?),
            first => Line::Put(self.input(alloc, first)?),
        })
    }

    /// The input whose line begins so: `begin`; a request (`ask 1.1.1 2`); a letter (`from 2 news`); `tell 2`, `query 1.1.1`.
    fn input(&mut self, alloc: Global, first: &str) -> Result<Input, Fail> {
        match first {
            "begin" => Ok(Input::Begin),
            "from" => self.arrival(alloc),
            "tell" => Ok(Input::Tell(self.small()?)),
            "query" => Ok(Input::Query(self.name()?)),
            want => self.request(want),
        }
    }

    /// A letter that comes, as the first of event 0.
    fn arrival(&mut self, alloc: Global) -> Result<Input, Fail> {
        let letter = self.letter(alloc)?;
        Ok(Input::Letter(LetterId { event: 0, place: 0 }, letter))
    }

    /// What an action wants, by the word that stands before the action.
    fn request(&mut self, want: &str) -> Result<Input, Fail> {
        let action = self.name()?;
        let want = self.want(want)?;
        Ok(Input::Request(Request { action, want }))
    }

    fn want(&mut self, first: &str) -> Result<Want, Fail> {
        Ok(match first {
            "ask" => Want::Ask(self.small()?),
            "call" => Want::Call(self.small()?, self.op()?),
            "commit" => Want::Commit(self.value()?),
            "abort" => Want::Abort,
            "giveup" => Want::GiveUp(self.name()?),
            _ => return Err(Fail::new("no input begins so")),
        })
    }

    /// A letter to node 1, at the first count of its sender: the sender, what the letter brings, and what it says.
    fn letter(&mut self, alloc: Global) -> Result<Letter, Fail> {
        let mut letter = news(alloc, self.small()?);
        let body = self.brought_and_body(&mut letter)?;
        letter.body = body;
        Ok(letter)
    }

    /// What a letter says, after what it brings.
    fn brought_and_body(&mut self, letter: &mut Letter) -> Result<Body, Fail> {
        let mut first = self.word();
        for _ in 0..8 {
            if !self.bring(letter, first)? {
                break;
            }
            first = self.word();
        }
        self.body(first)
    }

    /// Reads what a letter brings that begins with this word: outcomes (`aborted 2.1.1`; `committed 2.1.1`), counts (`knows 2 2`) and places
    /// (`have 2`, `place 5`). False, and nothing is read, where no such thing begins so.
    fn bring(&mut self, letter: &mut Letter, first: &str) -> Result<bool, Fail> {
        match first {
            "aborted" => self.aborted(&mut letter.know)?,
            "committed" => self.committed(&mut letter.know)?,
            "knows" => self.knows(&mut letter.know)?,
            "have" => letter.have = self.place()?,
            "place" => letter.place = self.place()?,
            _ => return Ok(false),
        }
        Ok(true)
    }

    fn aborted(&mut self, know: &mut Know) -> Result<(), Fail> {
        let name = self.name()?;
        know.add(&Outcome::Aborted(name))?;
        Ok(())
    }

    /// The action depends on node 2 at its count 1.
    fn committed(&mut self, know: &mut Know) -> Result<(), Fail> {
        let name = self.name()?;
        let deps = Deps::none().with(2, 1);
        know.add(&Outcome::Committed(name, deps))?;
        Ok(())
    }

    fn knows(&mut self, know: &mut Know) -> Result<(), Fail> {
        let node = self.small()?;
        let count = self.number()?;
        if node == 0 || node > 8 || count > 1_000_000_000 {
            return Err(Fail::new("a node or a count is not in its range"));
        }
        know.raise(node, count);
        Ok(())
    }
}

/// A letter of news to node 1, at the first count of its sender, which brings nothing.
fn news(alloc: Global, from: u8) -> Letter {
    Letter {
        from,
        count: 1,
        to: 1,
        have: 0,
        place: 0,
        know: Know::new(alloc),
        body: Body::News,
    }
}
