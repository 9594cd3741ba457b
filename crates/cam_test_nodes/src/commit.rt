//! Each test of each rule once: votes, prepares and queries.
mod node;

use crate::check::same;
use cam_commit::{Asked, Queried, Voted};
use cam_know::Outcome;
use cam_names::{Deps, Name};
use node::{
    begins_to_prepare, first_other, is_preparing, is_to_secure, learns, query, restarts,
    restarts_with, secures, votes_no, votes_yes,
};
use std::test::Fail;

/// What a family depends on: nodes 1 and 2 at their first counts.
fn first_counts() -> Deps {
    Deps::none().with(1, 1).with(2, 1)
}

/// *A vote arrives*, each test: a vote is late before the family prepares and after its end; a no aborts it, at whatever count; the yes with
/// which each pair of its dependencies has voted commits it; each other yes is noted.
#[test]
fn the_last_yes_commits_and_the_first_no_aborts(rt: HostRuntime) -> Result<(), Fail> {
    let family = Name::parse("1.2.1")?;
    let other = Name::parse("1.2.2")?;
    let deps = Deps::none().with(1, 2).with(3, 5);
    let steps = [
        votes_yes(family, 1, 2, Voted::Late),
        is_preparing(family, false),
        begins_to_prepare(family),
        is_preparing(other, false),
        begins_to_prepare(other),
        votes_yes(family, 3, 4, Voted::Some),
        votes_yes(family, 1, 2, Voted::Some),
        votes_yes(family, 1, 2, Voted::Some),
        votes_yes(family, 3, 5, Voted::All),
        votes_yes(family, 3, 5, Voted::Late),
        is_preparing(other, true),
        votes_no(other, 3, 4, Voted::No),
        votes_yes(other, 3, 5, Voted::Late),
    ];
    same(&rt, first_other(rt.alloc(), &deps, &steps)?, None);
    Ok(())
}

/// *A prepare arrives*, each test: a site that has secured the family votes yes again; one that has not votes no at another count than the
/// present one, and else secures it; after the end a prepare is late.
#[test]
fn a_site_that_secured_votes_yes_at_an_old_count(rt: HostRuntime) -> Result<(), Fail> {
    let family = Name::parse("1.2.1")?;
    let other = Name::parse("1.2.2")?;
    let steps = [
        is_to_secure(family, 3, 3, Asked::Secure),
        is_to_secure(family, 2, 3, Asked::Refuse),
        secures(family),
        is_to_secure(family, 2, 3, Asked::AlreadyYes),
        is_to_secure(other, 3, 3, Asked::Secure),
        learns(Outcome::Aborted(family)),
        is_to_secure(family, 3, 3, Asked::Late),
    ];
    same(&rt, first_other(rt.alloc(), &Deps::none(), &steps)?, None);
    Ok(())
}

/// The same after a restart: the log has the one family as secured, and not the other.
#[test]
fn a_site_that_secured_votes_yes_after_a_restart(rt: HostRuntime) -> Result<(), Fail> {
    let family = Name::parse("1.2.1")?;
    let other = Name::parse("1.2.2")?;
    let steps = [
        restarts_with(family),
        is_to_secure(family, 2, 4, Asked::AlreadyYes),
        is_to_secure(other, 2, 4, Asked::Refuse),
    ];
    same(&rt, first_other(rt.alloc(), &Deps::none(), &steps)?, None);
    Ok(())
}

/// *A query arrives*, each test: what is known is told; an open family of an older count is aborted; one of the present count is open still.
#[test]
fn a_query_aborts_an_open_family_of_an_older_count(rt: HostRuntime) -> Result<(), Fail> {
    let family = Name::parse("1.2.1")?;
    let deps = Deps::none().with(1, 2);
    let committed = Outcome::Committed(family, deps);
    let steps = [
        query(family, 2, Queried::StillOpen),
        query(family, 3, Queried::Abort),
        learns(committed),
        query(family, 3, Queried::Tell),
    ];
    same(&rt, first_other(rt.alloc(), &deps, &steps)?, None);
    Ok(())
}

/// *A prepare arrives*, test *late*: the family has committed meanwhile, whether the site has secured it or not, and at whatever count.
#[test]
fn a_prepare_comes_late_for_a_family_that_has_committed(rt: HostRuntime) -> Result<(), Fail> {
    let family = Name::parse("1.1.1")?;
    let other = Name::parse("1.1.2")?;
    let deps = first_counts();
    let steps = [
        secures(family),
        learns(Outcome::Committed(family, deps)),
        learns(Outcome::Committed(other, Deps::none().with(1, 1))),
        is_to_secure(family, 1, 1, Asked::Late),
        is_to_secure(family, 1, 2, Asked::Late),
        is_to_secure(other, 1, 1, Asked::Late),
        is_to_secure(other, 1, 2, Asked::Late),
    ];
    same(&rt, first_other(rt.alloc(), &deps, &steps)?, None);
    Ok(())
}

/// *A prepare arrives*, test *missed*, and *A vote arrives*, test *no*: node 2 restarts before the family that called it asks to commit.
#[test]
fn a_site_that_restarted_votes_no(rt: HostRuntime) -> Result<(), Fail> {
    let family = Name::parse("1.1.1")?;
    let deps = first_counts();
    let at_site = [restarts(), is_to_secure(family, 1, 2, Asked::Refuse)];
    let at_home = [
        begins_to_prepare(family),
        votes_yes(family, 1, 1, Voted::Some),
        votes_no(family, 2, 1, Voted::No),
        is_preparing(family, false),
    ];
    same(&rt, first_other(rt.alloc(), &deps, &at_site)?, None);
    same(&rt, first_other(rt.alloc(), &deps, &at_home)?, None);
    Ok(())
}

/// *A query arrives*: the home has restarted before it decided. It aborts the family, and tells the abort whenever it is asked again; the vote
/// that was under way is late.
#[test]
fn a_query_is_told_an_abort(rt: HostRuntime) -> Result<(), Fail> {
    let family = Name::parse("1.1.1")?;
    let deps = first_counts();
    let steps = [
        restarts(),
        query(family, 1, Queried::StillOpen),
        query(family, 2, Queried::Abort),
        learns(Outcome::Aborted(family)),
        query(family, 2, Queried::Tell),
        query(family, 1, Queried::Tell),
        votes_yes(family, 2, 1, Voted::Late),
    ];
    same(&rt, first_other(rt.alloc(), &deps, &steps)?, None);
    Ok(())
}
