//! The letters of a family to the nodes on which it depends, in order of nodes: News to each other node
//! than its home, or a Prepare to each.
ghost use Rattle.std.specs.Prelude.{◌≡◌, ◌≤◌, ◌++◌, ◌-◌, drop, IfOk, OnOk};
ghost use Rattle.cam_names.specs.Dependencies.{AreCounts};
ghost use Rattle.cam_rules.specs.Addressed.{AreAddressed};
ghost use Rattle.cam_rules.specs.Letters.{news_to, prepare_to, news_from, prepares_from};

use cam_base::NoMemory;
use cam_event::{Body, Sent, SentList};
use cam_names::{Deps, Name};
use std::alloc::Global;

/// News to each other node on which a family depends.
#[tactic(auto, using(crate::proofs::OnTheirPairs::news_are))]
pub(crate) fn news_to(alloc: Global, own: u8, deps: &Deps) -> Result<SentList, NoMemory>
    ensures value { IfOk result (λ sent. sent ≡ news_to own deps.now) }
    ensures nodes { IfOk result AreAddressed }
{
    let mut sent = SentList::new(alloc);
    add_news(&mut sent, own, &deps.counts(), 1)?;
    Ok(sent)
}

/// A Prepare to each node on which a family depends, with the count at which it does.
#[tactic(auto, using(crate::proofs::OnTheirPairs::prepares_are))]
pub(crate) fn prepare_to(alloc: Global, family: &Name, deps: &Deps) -> Result<SentList, NoMemory>
    ensures value { IfOk result (λ sent. sent ≡ prepare_to family.now deps.now) }
    ensures nodes { IfOk result AreAddressed }
{
    let mut sent = SentList::new(alloc);
    add_prepares(&mut sent, family, &deps.counts(), 1)?;
    Ok(sent)
}

/// Adds News to each other node from this one on.
fn add_news(sent: &mut SentList, own: u8, counts: &[u32; 8], node: u8) -> Result<(), NoMemory>
    requires node { (1 ≤ node) × (node ≤ 9) }
    requires counts { AreCounts 0 counts.now }
    ensures value { OnOk result
        (sent.new ≡ sent.old ++ news_from own node (drop (node - 1) counts.now)) }
    ensures nodes { AreAddressed sent.old → OnOk result (AreAddressed sent.new) }
{
    if node > 8 {
        return Ok(());
    }
    if counts[node as usize - 1] != 0 && node != own {
        sent.push_copy(&Sent {
            to: node,
            body: Body::News,
        })?;
    }
    add_news(sent, own, counts, node + 1)
}

/// Adds a Prepare to each node from this one on.
fn add_prepares(
    sent: &mut SentList,
    family: &Name,
    counts: &[u32; 8],
    node: u8,
) -> Result<(), NoMemory>
    requires node { (1 ≤ node) × (node ≤ 9) }
    requires counts { AreCounts 0 counts.now }
    ensures value { OnOk result (sent.new
        ≡ sent.old ++ prepares_from family.now node (drop (node - 1) counts.now)) }
    ensures nodes { AreAddressed sent.old → OnOk result (AreAddressed sent.new) }
{
    if node > 8 {
        return Ok(());
    }
    let count = counts[node as usize - 1];
    if count != 0 {
        sent.push_copy(&Sent {
            to: node,
            body: Body::Prepare {
                family: *family,
                count,
            },
        })?;
    }
    add_prepares(sent, family, counts, node + 1)
}
