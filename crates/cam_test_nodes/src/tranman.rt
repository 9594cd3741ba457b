//! Actions at their home: what stands against a request, what is seen of an answer, how children are decided. Worked by hand from the rules.
mod answers;
mod children;
mod older;
mod requests;

use cam_base::NoMemory;
use cam_event::{LineRefusal, Request, Want};
use cam_names::{Deps, Name};
use cam_tranman::{Homed, Started};
use cam_type::Op;

/// What stands against a request of the action.
fn refused(homed: &Homed, action: &Name, want: &Want) -> Option<LineRefusal> {
    homed.refusal(&Request {
        action: *action,
        want: *want,
    })
}

/// The next top action, where there is memory.
fn begun(homed: &mut Homed) -> Option<Name> {
    if homed.tops() >= 1_000_000_000 {
        return None;
    }
    homed.begin().ok()
}

/// The next child of the action, at a node and its count 1, where nothing stands against it.
fn asked(homed: &mut Homed, action: &Name, node: u8) -> Option<Name> {
    let request = Request {
        action: *action,
        want: Want::Ask(node),
    };
    if node == 0
        || node > 8
        || homed.refusal(&request).is_some()
        || homed.asks(action) >= 1_000_000_000
    {
        return None;
    }
    homed.ask(action, node, 1).ok()
}

/// What comes of the start of a child. None where this node, at its present count, is not its home.
fn started(homed: &mut Homed, child: &Name, deps: &Deps) -> Result<Option<Started>, NoMemory> {
    if !homed.may_start(child) {
        return Ok(None);
    }
    Ok(Some(homed.start(child, deps)?))
}

/// Whether nothing stands against the action's abort; then it has asked for that.
fn quits(homed: &mut Homed, action: &Name) -> bool {
    let request = Request {
        action: *action,
        want: Want::Abort,
    };
    if homed.refusal(&request).is_some() {
        return false;
    }
    homed.quit(action);
    true
}

/// The next call of the action, to an object of node 4 that is addressed at count 7, where nothing stands against it.
fn called(homed: &mut Homed, action: &Name) -> Option<u32> {
    let request = Request {
        action: *action,
        want: Want::Call(0, Op::Read),
    };
    if homed.refusal(&request).is_some() || homed.calls(action) >= 1_000_000_000 {
        return None;
    }
    homed.call(action, 0, &Op::Read, 4, 7).ok()
}
