//! The votes yes for each family that is preparing, event by event.
ghost use Rattle.std.specs.Prelude.{◌≡◌, ◌∷◌, [], false, List, unwrap_or, OnOk};
ghost use Rattle.std.specs.HashMap.{get};
ghost use Rattle.std.specs.List.{list_any};
ghost use Rattle.cam_names.specs.Names.{name_eq};
ghost use Rattle.cam_names.specs.Dependencies.{has_pair};
ghost use Rattle.cam_event.specs.declared.Event.{Event};
ghost use Rattle.cam_event.specs.History.{is_crash};
ghost use Rattle.cam_event.specs.Sights.{Entry};
ghost use Rattle.cam_own.specs.Votes.{AddsVotes, AddsYes, BeginsVotes, KeepsVotes};

use crate::mail::Mail;
use cam_base::{NoMemory, Sequence};
use cam_event::{Body, Note};
use cam_names::Name;
use std::alloc::Global;
use std::collections::HashMap;

/// Nodes that voted yes, each at a count.
pub(crate) type Voters = Sequence<(u8, u32)>;

/// The votes yes for each family that is preparing.
pub(crate) type Votes = HashMap<Name, Voters>;

/// Whether a node at a count is among them.
fn has_voter(voters: &Voters, node: u8, count: u32) -> bool
    ensures { result ≡ has_pair voters.now node count }
{
    for voter in voters.as_slice() {
        if voter.0 == node && voter.1 == count {
            return true;
        }
    }
    false
}

/// Whether a node at a count has voted yes for a family that is preparing.
pub(crate) fn has_vote(votes: &Votes, family: &Name, node: u8, count: u32) -> bool
    ensures { result ≡ has_pair (unwrap_or (get name_eq votes.now family.now) []) node count }
{
    match votes.get(family) {
        Some(voters) => has_voter(voters, node, count),
        None => false,
    }
}

/// A node at a count votes yes for a family.
fn add_vote(votes: &mut Votes, family: &Name, node: u8, count: u32) -> Result<(), NoMemory>
    ensures { OnOk result (AddsYes family.now node count votes.old votes.new) }
{
    match votes.get(family) {
        None => Ok(()),
        Some(voters) => {
            let mut more = voters.copy()?;
            more.push((node, count))?;
            votes.insert(*family, more)?;
            Ok(())
        }
    }
}

/// A letter comes, which may be a vote.
fn note_mail(votes: &mut Votes, mail: &Option<Mail>) -> Result<(), NoMemory>
    ensures { OnOk result (AddsVotes mail.now votes.old votes.new) }
{
    match mail {
        Some(
            Mail {
                from,
                body: Body::Vote {
                    family,
                    count,
                    yes: true,
                },
                ..
            },
        ) => add_vote(votes, family, *from, *count),
        _ => Ok(()),
    }
}

/// An event has this note: it may begin to prepare a family.
fn note_preparing(votes: &mut Votes, alloc: Global, note: &Note) -> Result<(), NoMemory>
    ensures { OnOk result (BeginsVotes note.now votes.old votes.new) }
{
    if let Note::Preparing(family) = note {
        votes.insert(*family, Voters::new(alloc))?;
    }
    Ok(())
}

/// Keeps what one more event says of votes: the letter that it received, and its note.
pub(crate) fn note_votes(
    votes: &mut Votes,
    alloc: Global,
    mail: &Option<Mail>,
    note: &Note,
) -> Result<(), NoMemory>
    ensures { OnOk result ((E : List Entry) (e : Event)
        → list_any (is_crash e.node) e.deeds ≡ false → e.note ≡ note.now
        → KeepsVotes E votes.old
        → KeepsVotes (record { event = e; mail = mail.now } ∷ E) votes.new) }
{
    note_mail(votes, mail)?;
    note_preparing(votes, alloc, note)
}
