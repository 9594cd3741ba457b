//! What letters say, read from words.
use super::Words;
use cam_event::Body;
use cam_names::Name;
use std::test::Fail;

impl Words<'_> {
    /// What a letter says.
    pub(super) fn body(&mut self, kind: &str) -> Result<Body, Fail> {
        match kind {
            "start" => self.start(),
            "call" => self.call(),
            "answer" => self.answer(),
            "finish" => self.finish(),
            _ => self.family_body(kind),
        }
    }

    /// `2.1.1/1.1.1 deps 2:1`
    fn start(&mut self) -> Result<Body, Fail> {
        Ok(Body::Start {
            child: self.name()?,
            deps: self.deps()?,
        })
    }

    /// `1.1.1 1 value 3`
    fn answer(&mut self) -> Result<Body, Fail> {
        Ok(Body::Answer {
            action: self.name()?,
            number: self.number()?,
            reply: self.reply()?,
        })
    }

    /// `1.1.1/2.1.1 9 deps 1:1 2:1`
    fn finish(&mut self) -> Result<Body, Fail> {
        Ok(Body::Finish {
            action: self.name()?,
            value: self.value()?,
            deps: self.deps()?,
        })
    }

    /// `2.1.1 1 0 write 7 at 1 deps 2:1`
    fn call(&mut self) -> Result<Body, Fail> {
        let action = self.name()?;
        let number = self.number()?;
        self.asked(action, number)
    }

    /// The rest of a call after its action and its number: the object, what is asked of it, the count that is addressed, and what the action
    /// depends on.
    fn asked(&mut self, action: Name, number: u32) -> Result<Body, Fail> {
        let object = self.small()?;
        let op = self.op()?;
        self.expect("at")?;
        Ok(Body::Call {
            action,
            number,
            object,
            op,
            count: self.number()?,
            deps: self.deps()?,
        })
    }

    /// What the letters of families in commit say, and those by which actions end.
    fn family_body(&mut self, kind: &str) -> Result<Body, Fail> {
        match kind {
            "quit" => Ok(Body::Quit {
                action: self.name()?,
            }),
            "prepare" => self.prepare(),
            "vote" => self.vote(),
            "query" => Ok(Body::Query {
                family: self.name()?,
            }),
            "news" => Ok(Body::News),
            _ => Err(Fail::new("no letter is called so")),
        }
    }

    /// `2.1.1 1`
    fn prepare(&mut self) -> Result<Body, Fail> {
        Ok(Body::Prepare {
            family: self.name()?,
            count: self.number()?,
        })
    }

    /// `1.1.1 1 yes`
    fn vote(&mut self) -> Result<Body, Fail> {
        Ok(Body::Vote {
            family: self.name()?,
            count: self.number()?,
            yes: self.is_yes()?,
        })
    }

    /// `yes` or `no`
    fn is_yes(&mut self) -> Result<bool, Fail> {
        match self.word() {
            "yes" => Ok(true),
            "no" => Ok(false),
            _ => Err(Fail::new("a vote is yes or no")),
        }
    }
}
