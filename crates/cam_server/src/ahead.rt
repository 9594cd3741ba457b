//! A call that goes ahead of the news that came with it: whether it may, and how what was done with
//! it is taken back if memory runs out after it.
ghost use Rattle.std.specs.Prelude.{◌≡◌, None, not};
ghost use Rattle.std.specs.List.{list_all};
ghost use Rattle.cam_know.specs.Knowledge.{Knowledge};
ghost use Rattle.cam_server.specs.Ahead.{is_apart};
ghost use Rattle.cam_server.specs.Server.{Server as ServerValue};
ghost use Rattle.cam_server.specs.Calls.{Asked, answers, performed_by, AfterPerformed, AreSame};
ghost use Rattle.cam_server.specs.Calls.{IsNoted};

use crate::Performed;
use crate::server::{CallName, Server};
use cam_know::{Know, Outcome};
use cam_names::Name;

impl Server {
    /// Whether no news is of a family with live operations here. Then a call may be performed
    /// before the site is informed of them ([`crate::calls_go_ahead`]).
    pub fn is_apart(&self, news: &Know) -> bool
        ensures { result ≡ list_all (is_apart self.now.table.site) news.now.outcomes }
    {
        for outcome in news.outcomes() {
            if self.has_family_of(outcome) {
                return false;
            }
        }
        true
    }

    /// Whether the family of an outcome has live operations here.
    fn has_family_of(&self, outcome: &Outcome) -> bool
        ensures { result ≡ not (is_apart self.now.table.site outcome.now) }
    {
        match outcome {
            Outcome::Aborted(name) | Outcome::Committed(name, _) => {
                self.table.has_family(&name.family())
            }
        }
    }

    /// Takes back what was done with a call, where nothing has come since: all is as if the call
    /// had not come. It takes no memory.
    pub fn take_back(&mut self, action: &Name, number: u32, done: &Performed)
        ensures back { (k : Knowledge) (asked : Asked) (before : ServerValue)
            → asked.action ≡ action.now → asked.number ≡ number
            → done.now ≡ performed_by k before asked
            → AfterPerformed asked done.now before (answers self.old)
            → AreSame before (answers self.new) }
        ensures spare { (answers self.new).table.spare ≡ (answers self.old).table.spare }
    {
        let call = CallName {
            action: *action,
            number,
        };
        match done {
            Performed::Done(_) => {
                self.table.take_back();
                self.forget(&call);
            }
            Performed::Busy(_) => self.forget(&call),
            Performed::Missed | Performed::Ended | Performed::Again(_) | Performed::Orphan(_) => {}
        }
    }

    /// Forgets the reply to a call.
    fn forget(&mut self, call: &CallName)
        ensures rest { (self.new.count ≡ self.old.count) × (self.new.table ≡ self.old.table) }
        ensures replies { IsNoted call.now None self.old self.new }
    {
        self.performed.remove(call);
        self.bounced.remove(call);
    }
}
