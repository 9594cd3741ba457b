// Who is an orphan, and why.
use crate::check::same;
use cam_know::{Know, Outcome, Reason};
use cam_names::{Deps, Name};
use cam_orphan::{orphan, orphan_at_home};
use std::test::Fail;

/// The reason that a node has crashed, and has now a newer count than one that was visited.
fn crash(node: u8, old: u32, new: u32) -> Option<Reason> {
    Some(Reason::Crash { node, old, new })
}

/// A commit of a sibling stands on the first count of node 2, which has restarted since.
#[test]
fn what_a_sibling_stood_on_is_lost(rt: HostRuntime) -> Result<(), Fail> {
    let top = Name::parse("1.1.1")?;
    let child = Name::parse("1.1.1/4.1.1")?;
    let sibling = Name::parse("1.1.1/1.1.2")?;
    let own = Deps::none().with(1, 1).with(4, 1);
    let mut know = Know::new(rt.alloc());
    let at_first = orphan(&know, &child, &own);
    know.add(&Outcome::Committed(sibling, Deps::none().with(1, 1).with(2, 1)))?;
    same(&rt, (at_first, orphan(&know, &child, &own)), (None, None));
    know.raise(2, 2);
    same(&rt, orphan(&know, &child, &own), crash(2, 1, 2));
    same(&rt, orphan(&know, &top, &Deps::none()), crash(2, 1, 2));
    know.raise(1, 3);
    let after_restart = orphan(&know, &child, &own);
    know.add(&Outcome::Aborted(child))?;
    know.add(&Outcome::Aborted(top))?;
    same(
        &rt,
        (after_restart, orphan(&know, &child, &own)),
        (crash(1, 1, 3), Some(Reason::Abort(top))),
    );
    Ok(())
}

/// A child's home stands at its second count, beside an older pair of the same node.
#[test]
fn a_newer_home_hides_no_older_pair(rt: HostRuntime) -> Result<(), Fail> {
    let child = Name::parse("1.1.1/4.2.1")?;
    let older = Deps::none().with(1, 1).with(4, 1);
    let mut know = Know::new(rt.alloc());
    know.raise(4, 2);
    let by_home = orphan_at_home(&know, &child, &Deps::none());
    same(
        &rt,
        (by_home, orphan_at_home(&know, &child, &older)),
        (None, crash(4, 1, 2)),
    );
    know.raise(4, 3);
    let by_home = orphan_at_home(&know, &child, &Deps::none());
    know.add(&Outcome::Aborted(child))?;
    same(
        &rt,
        (by_home, orphan_at_home(&know, &child, &older)),
        (crash(4, 2, 3), Some(Reason::Abort(child))),
    );
    Ok(())
}
