//! Two-phase commit: what a home does with its own top actions, with votes and with queries, and a site
//! with a family that is to be secured.
ghost use Rattle.std.specs.Prelude.{◌≡◌, ◌≤◌, ◌-◌, ◌∷◌, [], drop, unwrap_or, IfOk};
ghost use Rattle.std.specs.List.{list_all};
ghost use Rattle.cam_names.specs.Dependencies.{AreCounts, has_pair, pairs_from};
ghost use Rattle.cam_event.specs.Rules as rules;
ghost use Rattle.cam_event.specs.Rules.{all_yes, top_finishes, top_quits, prepare_comes, vote_comes, query_comes};
ghost use Rattle.cam_event.specs.Sights.{knows_outcome, votes};
ghost use Rattle.cam_event.specs.Runs.{IsNode};
ghost use Rattle.cam_rules.specs.Untested.{untested};

use crate::children::is_present;
use crate::did::{Did, one};
use crate::homes::home_of;
use crate::letters::{news_to, prepare_to};
use crate::requests::{aborts, commits};
use crate::sighted::Sighted;
use cam_base::NoMemory;
use cam_event::{Body, Deed, Deeds, Note, Sent};
use cam_names::{Deps, Name};
use std::alloc::Global;

/// Whether the node knows how the action ended.
pub(crate) fn knows_outcome<S: Sighted>(here: &S, action: &Name) -> bool
    requires { S.stands here.now }
    ensures { result ≡ knows_outcome (S.sight here.now) action.now }
{
    here.knows_commit(action) || here.knows_abort(action)
}

/// A top action has finished at its home: each node on which it depends is to secure it.
pub(crate) fn top_finishes<S: Sighted>(
    alloc: Global,
    here: &S,
    action: &Name,
) -> Result<Did, NoMemory>
    requires { S.stands here.now }
    ensures { IfOk result (λ did.
        did ≡ top_finishes (untested (S.sight here.now)) action.now) }
{
    if !is_present(here, action) || knows_outcome(here, action) || here.is_preparing(action) {
        return Ok(Did::nothing_but(alloc, &Note::Late));
    }
    let sent = prepare_to(alloc, action, &here.deps(action))?;
    Ok(Did {
        deeds: Deeds::new(alloc),
        sent,
        note: Note::Preparing(*action),
    })
}

/// A family aborts, and the other nodes on which it depends are told.
pub fn abort_family<S: Sighted>(alloc: Global, here: &S, family: &Name) -> Result<Did, NoMemory>
    requires { S.stands here.now }
    ensures { IfOk result (λ did. did ≡ rules.did
        (rules.aborts (untested (S.sight here.now)) family.now)
        (rules.news (untested (S.sight here.now)) family.now)) }
{
    let sent = news_to(alloc, here.node(), &here.deps(family))?;
    aborts(alloc, here, family, sent)
}

/// A top action has quit at its home.
pub(crate) fn top_quits<S: Sighted>(alloc: Global, here: &S, action: &Name) -> Result<Did, NoMemory>
    requires { S.stands here.now }
    ensures { IfOk result (λ did. did ≡ top_quits (untested (S.sight here.now)) action.now) }
{
    if !is_present(here, action) || knows_outcome(here, action) {
        return Ok(Did::nothing_but(alloc, &Note::Late));
    }
    abort_family(alloc, here, action)
}

/// A site votes on a family.
fn vote(alloc: Global, note: &Note, family: &Name, count: u32, yes: bool) -> Result<Did, NoMemory>
    ensures { IfOk result (λ did. did ≡ rules.answers note.now (rules.vote family.now count yes)) }
{
    let body = Body::Vote {
        family: *family,
        count,
        yes,
    };
    Did::answer(alloc, note, home_of(family), &body)
}

/// A site is asked to secure a family.
pub(crate) fn prepare_comes<S: Sighted>(
    alloc: Global,
    here: &S,
    family: &Name,
    count: u32,
) -> Result<Did, NoMemory>
    requires { S.stands here.now }
    ensures { IfOk result (λ did.
        did ≡ prepare_comes (untested (S.sight here.now)) family.now count) }
{
    if knows_outcome(here, family) {
        return Ok(Did::nothing_but(alloc, &Note::Late));
    }
    if here.is_secured(family) {
        return vote(alloc, &Note::Again, family, count, true);
    }
    if count != here.count() {
        return vote(alloc, &Note::Missed, family, count, false);
    }
    let deed = Deed::Secure {
        family: *family,
        site: here.node(),
        count,
    };
    let body = Body::Vote {
        family: *family,
        count,
        yes: true,
    };
    Did::deed_and_letter(alloc, &deed, home_of(family), &body)
}

/// A vote yes of a node at a count, for a family.
#[derive(Clone, Copy)]
struct Yes<'a> {
    family: &'a Name,
    from: u8,
    count: u32,
}

/// Whether a node at a count has voted yes, this vote with the others.
fn has_voted<S: Sighted>(here: &S, yes: &Yes, node: u8, count: u32) -> bool
    requires { S.stands here.now }
    ensures { result ≡ has_pair ((yes.now.from, yes.now.count)
        ∷ unwrap_or (votes (S.sight here.now).events yes.now.family.now) []) node count }
{
    (yes.from == node && yes.count == count) || here.has_vote(yes.family, node, count)
}

/// Whether each node from this one on has voted yes at its count.
fn all_yes_from<S: Sighted>(here: &S, yes: &Yes, counts: &[u32; 8], node: u8) -> bool
    requires stands { S.stands here.now }
    requires node { (1 ≤ node) × (node ≤ 9) }
    requires counts { AreCounts 0 counts.now }
    ensures { result ≡ list_all
        (λ p. has_pair ((yes.now.from, yes.now.count)
        ∷ unwrap_or (votes (S.sight here.now).events yes.now.family.now) []) p.0 p.1)
        (pairs_from node (drop (node - 1) counts.now)) }
{
    if node > 8 {
        return true;
    }
    let count = counts[node as usize - 1];
    let voted = count == 0 || has_voted(here, yes, node, count);
    voted && all_yes_from(here, yes, counts, node + 1)
}

/// A vote for a family comes to its home: the first no aborts it, the last yes commits it.
pub(crate) fn vote_comes<S: Sighted>(
    alloc: Global,
    here: &S,
    from: u8,
    family: &Name,
    count: u32,
    agrees: bool,
) -> Result<Did, NoMemory>
    requires { S.stands here.now }
    ensures { IfOk result (λ did.
        did ≡ vote_comes (untested (S.sight here.now)) from family.now count agrees) }
{
    if !is_present(here, family) || !here.is_preparing(family) || knows_outcome(here, family) {
        return Ok(Did::nothing_but(alloc, &Note::Late));
    }
    if !agrees {
        return abort_family(alloc, here, family);
    }
    let deps = here.deps(family);
    let yes = Yes {
        family,
        from,
        count,
    };
    if !all_yes_from(here, &yes, &deps.counts(), 1) {
        return Ok(Did::nothing_but(alloc, &Note::Voted));
    }
    let sent = news_to(alloc, here.node(), &deps)?;
    commits(alloc, here, family, sent)
}

/// A node asks after a family: where the home knows how it ended it tells that, and where the family is
/// of an older count it aborts it.
pub(crate) fn query_comes<S: Sighted>(
    alloc: Global,
    here: &S,
    from: u8,
    family: &Name,
) -> Result<Did, NoMemory>
    requires stands { S.stands here.now }
    requires from { IsNode from }
    ensures { IfOk result (λ did.
        did ≡ query_comes (untested (S.sight here.now)) from family.now) }
{
    if knows_outcome(here, family) {
        return Did::letter(alloc, from, &Body::News);
    }
    let (_node, count) = family.home();
    if count >= here.count() {
        return Ok(Did::nothing_but(alloc, &Note::Late));
    }
    let news = Sent {
        to: from,
        body: Body::News,
    };
    aborts(alloc, here, family, one(alloc, &news)?)
}
