//! What is kept of an action, and how it changes.
ghost use Rattle.std.specs.Prelude.{◌≡◌, ◌≤◌, ◌<◌};
ghost use Rattle.cam_tranman.specs.Calls.{fresh, with_ask, one_call_more, as_ended, gaining};
ghost use Rattle.cam_tranman.specs.Calls.{seeing};

use crate::OpenCall;
use crate::deps::{at, union};
use cam_event::Seen;
use cam_names::Deps;

/// What is kept of an action that was created here.
#[derive(Clone, Copy, Debug)]
pub(crate) struct Action {
    /// It has asked to commit or to abort.
    pub(crate) ended: bool,
    /// How many children it has asked for, and how many calls it has made.
    pub(crate) asks: u32,
    pub(crate) calls: u32,
    pub(crate) deps: Deps,
}

impl Action {
    /// It has done nothing yet.
    pub(crate) fn fresh(deps: &Deps) -> Action
        ensures { result ≡ fresh deps.now }
    {
        Action {
            ended: false,
            asks: 0,
            calls: 0,
            deps: *deps,
        }
    }

    pub(crate) fn with_ask(&self) -> Action
        requires { self.now.asks < 1000000000 }
        ensures { result ≡ with_ask self.now }
    {
        let mut action = *self;
        action.asks += 1;
        action
    }

    pub(crate) fn with_call(&self) -> Action
        requires { self.now.calls < 1000000000 }
        ensures { result ≡ one_call_more self.now }
    {
        let mut action = *self;
        action.calls += 1;
        action
    }

    pub(crate) fn as_ended(&self) -> Action
        ensures { result ≡ as_ended self.now }
    {
        let mut action = *self;
        action.ended = true;
        action
    }

    /// A child commits that depends on these.
    pub(crate) fn gaining(&self, deps: &Deps) -> Action
        ensures { result ≡ gaining deps.now self.now }
    {
        let mut action = *self;
        action.deps = union(&self.deps, deps);
        action
    }

    /// It sees this of its open call.
    pub(crate) fn seeing(&self, seen: &Seen, call: &OpenCall) -> Action
        ensures { result ≡ seeing seen.now call.now self.now }
    {
        let mut action = *self;
        if let Seen::Done(_) = seen {
            action.deps = union(&self.deps, &at(call.site, call.count));
        }
        action
    }
}
