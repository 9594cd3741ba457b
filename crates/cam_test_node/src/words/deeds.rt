//! Deeds in words.
use super::Telling;
use cam_base::NoMemory;
use cam_event::Deed;

impl Telling {
    pub(super) fn deed(&mut self, deed: &Deed) -> Result<(), NoMemory> {
        match deed {
            Deed::Create { action } => self.named("create", action),
            Deed::Ask { child, .. } => self.named("ask", child),
            Deed::Call {
                action,
                number,
                object,
                op,
                count,
            } => self.call(action, *number, *object, op, *count),
            other => self.answering(other),
        }
    }

    /// The deeds by which calls are answered.
    fn answering(&mut self, deed: &Deed) -> Result<(), NoMemory> {
        match deed {
            Deed::Perform {
                action,
                number,
                answer,
            } => {
                self.numbered("perform", action, i64::from(*number))?;
                self.answer(answer)
            }
            Deed::Bounce {
                action,
                number,
                holder,
            } => {
                self.numbered("bounce", action, i64::from(*number))?;
                self.name(holder)
            }
            Deed::Got {
                action,
                number,
                seen,
            } => {
                self.numbered("got", action, i64::from(*number))?;
                self.seen(seen)
            }
            other => self.ending(other),
        }
    }

    /// The deeds by which actions end.
    fn ending(&mut self, deed: &Deed) -> Result<(), NoMemory> {
        match deed {
            Deed::AskCommit { action, value } => self.numbered("ask commit", action, *value),
            Deed::AskAbort { action } => self.named("ask abort", action),
            Deed::Commit { action } => self.named("commit", action),
            Deed::Abort { action } => self.named("abort", action),
            other => self.of_site(other),
        }
    }

    /// The deeds of a site, by which no action ends.
    fn of_site(&mut self, deed: &Deed) -> Result<(), NoMemory> {
        match deed {
            Deed::Secure {
                family,
                site,
                count,
            } => {
                self.numbered("secure", family, i64::from(*site))?;
                self.number(i64::from(*count))
            }
            Deed::Inform {
                site,
                name,
                committed,
            } => {
                self.valued("inform", i64::from(*site))?;
                self.name(name)?;
                self.word(if *committed { "committed" } else { "aborted" })
            }
            Deed::Crash { site } => self.valued("crash", i64::from(*site)),
            _ => self.word("another deed"),
        }
    }
}
