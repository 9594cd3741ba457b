//! What letters say, in words.
use super::Telling;
use cam_base::NoMemory;
use cam_event::Body;

impl Telling {
    pub(super) fn body(&mut self, body: &Body) -> Result<(), NoMemory> {
        match body {
            Body::Start { child, deps } => {
                self.named("start", child)?;
                self.deps(deps)
            }
            Body::Call {
                action,
                number,
                object,
                op,
                count,
                deps,
            } => {
                self.call(action, *number, *object, op, *count)?;
                self.deps(deps)
            }
            Body::Answer {
                action,
                number,
                reply,
            } => {
                self.numbered("answer", action, i64::from(*number))?;
                self.reply(reply)
            }
            Body::Finish {
                action,
                value,
                deps,
            } => {
                self.numbered("finish", action, *value)?;
                self.deps(deps)
            }
            other => self.family_body(other),
        }
    }

    /// The letters of families in commit, and those by which actions end.
    fn family_body(&mut self, body: &Body) -> Result<(), NoMemory> {
        match body {
            Body::Quit { action } => self.named("quit", action),
            Body::Prepare { family, count } => {
                self.numbered("prepare", family, i64::from(*count))
            }
            Body::Vote { family, count, yes } => {
                self.numbered("vote", family, i64::from(*count))?;
                self.word(if *yes { "yes" } else { "no" })
            }
            Body::Query { family } => self.named("query", family),
            Body::News => self.word("news"),
            _ => self.word("another letter"),
        }
    }
}
