//! What is kept of one node: what its own deeds and events say, in tables.
ghost use Rattle.std.specs.Prelude.{◌≡◌, ◌∷◌, [], true, false, ℕ, List, is_some, unwrap_or, OnOk};
ghost use Rattle.std.specs.List.{list_any};
ghost use Rattle.cam_names.specs.Dependencies.{has_pair};
ghost use Rattle.cam_names.specs.Names.{name_eq};
ghost use Rattle.cam_type.specs.declared.ObjectDecl.{ObjectDecl};
ghost use Rattle.cam_event.specs.declared.Deed.{Deed as DeedValue};
ghost use Rattle.cam_event.specs.declared.Event.{Event};
ghost use Rattle.cam_event.specs.History as history;
ghost use Rattle.cam_event.specs.Live.{lift};
ghost use Rattle.cam_event.specs.Sights as sights;
ghost use Rattle.cam_event.specs.Sights.{Entry};
ghost use Rattle.cam_live.specs.Ledger.{addressed};
ghost use Rattle.cam_own.specs.Children.{open_of};
ghost use Rattle.cam_own.specs.Own.{KeepsOwn};
ghost use Rattle.cam_own.specs.Replies.{IsNoCrash};
ghost use Rattle.cam_own.specs.Informed.{KeepsInformed};

use crate::actions::{Actions, action_in, note_action};
use crate::children::{Children, has_open, is_open, note_child};
use crate::informed::Informed;
use crate::mail::Mail;
use crate::replies::{Replies, note_reply, reply_in};
use crate::tops::{Tops, note_top, tops_in};
use crate::votes::{Votes, has_vote, note_votes};
use cam_base::NoMemory;
use cam_event::{Deed, Note, Reply};
use cam_live::{AddressedCall, Ledger};
use cam_names::Name;
use cam_type::Objects;
use std::alloc::Global;

/// What is kept of one node.
#[derive(Drop)]
pub struct Own {
    node: u8,
    ledger: Ledger,
    actions: Actions,
    tops: Tops,
    children: Children,
    replies: Replies,
    informed: Informed,
    votes: Votes,
}

impl Own {
    /// A node to which nothing has happened.
    pub fn new(alloc: Global, node: u8) -> Own
        ensures { (objects : List ObjectDecl) → KeepsOwn objects node [] [] result }
    {
        Own {
            node,
            ledger: Ledger::new(alloc),
            actions: Actions::new(alloc),
            tops: Tops::new(alloc),
            children: Children::new(alloc),
            replies: Replies::new(alloc),
            informed: Informed::new(alloc),
            votes: Votes::new(alloc),
        }
    }

    /// Takes one more deed of the node, which is no crash.
    pub fn note(&mut self, alloc: Global, objects: &Objects, deed: &Deed) -> Result<(), NoMemory>
        requires { IsNoCrash deed.now }
        ensures { OnOk result ((s : ℕ) (L : List DeedValue) (E : List Entry)
            → KeepsOwn objects.now s L E self.old
            → KeepsOwn objects.now s (deed.now ∷ L) E self.new) }
    {
        let node = self.node;
        self.ledger.note(objects, deed)?;
        note_action(&mut self.actions, deed)?;
        note_top(&mut self.tops, deed)?;
        note_child(&mut self.children, alloc, deed)?;
        note_reply(&mut self.replies, deed)?;
        self.informed.note(node, deed)
    }

    /// Takes one more event of the node, whose deeds it has: the letter that came and the note.
    pub fn note_event(
        &mut self,
        alloc: Global,
        mail: &Option<Mail>,
        note: &Note,
    ) -> Result<(), NoMemory>
        ensures { OnOk result ((objects : List ObjectDecl) (s : ℕ) (L : List DeedValue)
            (E : List Entry) (e : Event)
            → list_any (history.is_crash e.node) e.deeds ≡ false → e.note ≡ note.now
            → KeepsOwn objects s L E self.old
            → KeepsOwn objects s L (record { event = e; mail = mail.now } ∷ E) self.new) }
    {
        note_votes(&mut self.votes, alloc, mail, note)
    }
}

/// What the deeds of the node say.
impl Own {
    /// The node.
    pub fn node(&self) -> u8
        ensures { (objects : List ObjectDecl) (s : ℕ) (L : List DeedValue) (E : List Entry)
            → KeepsOwn objects s L E self.now → result ≡ s }
    {
        self.node
    }

    /// How many top actions were created at a node in one of its counts.
    pub fn tops(&self, node: u8, count: u32) -> u64
        ensures { (objects : List ObjectDecl) (s : ℕ) (L : List DeedValue) (E : List Entry)
            → KeepsOwn objects s L E self.now → result ≡ history.tops L node count }
    {
        tops_in(&self.tops, node, count)
    }

    /// Whether an action was created.
    pub fn created(&self, action: &Name) -> bool
        ensures { (objects : List ObjectDecl) (s : ℕ) (L : List DeedValue) (E : List Entry)
            → KeepsOwn objects s L E self.now → result ≡ history.created L action.now }
    {
        action_in(&self.actions, action).is_created
    }

    /// Whether it has asked to commit or to abort.
    pub fn ended(&self, action: &Name) -> bool
        ensures { (objects : List ObjectDecl) (s : ℕ) (L : List DeedValue) (E : List Entry)
            → KeepsOwn objects s L E self.now → result ≡ history.ended L action.now }
    {
        let kept = action_in(&self.actions, action);
        kept.asked_commit || kept.asked_abort
    }

    /// How many children it has asked for.
    pub fn asks(&self, action: &Name) -> u64
        ensures { (objects : List ObjectDecl) (s : ℕ) (L : List DeedValue) (E : List Entry)
            → KeepsOwn objects s L E self.now → result ≡ history.asks L action.now }
    {
        action_in(&self.actions, action).asks
    }

    /// How many calls it has made.
    pub fn calls(&self, action: &Name) -> u64
        ensures { (objects : List ObjectDecl) (s : ℕ) (L : List DeedValue) (E : List Entry)
            → KeepsOwn objects s L E self.now → result ≡ history.calls L action.now }
    {
        action_in(&self.actions, action).calls
    }

    /// The number of its open call.
    pub fn open_call(&self, action: &Name) -> Option<u32>
        ensures { (objects : List ObjectDecl) (s : ℕ) (L : List DeedValue) (E : List Entry)
            → KeepsOwn objects s L E self.now → result ≡ history.open_call L action.now }
    {
        action_in(&self.actions, action).open_call
    }

    /// What its call of this number asked.
    pub fn call(&self, action: &Name, number: u32) -> Option<AddressedCall>
        ensures { (objects : List ObjectDecl) (s : ℕ) (L : List DeedValue) (E : List Entry)
            → KeepsOwn objects s L E self.now
            → addressed result ≡ history.call_of L action.now number }
    {
        self.ledger.call(action, number)
    }

    /// Whether a child of it is open.
    pub fn has_open_child(&self, action: &Name) -> bool
        ensures { (objects : List ObjectDecl) (s : ℕ) (L : List DeedValue) (E : List Entry)
            → KeepsOwn objects s L E self.now
            → result ≡ list_any (λ c. true) (open_of L action.now) }
    {
        has_open(&self.children, action)
    }

    /// Whether this child of it is open.
    pub fn is_open_child(&self, action: &Name, child: &Name) -> bool
        ensures { (objects : List ObjectDecl) (s : ℕ) (L : List DeedValue) (E : List Entry)
            → KeepsOwn objects s L E self.now
            → result ≡ list_any (name_eq child.now) (open_of L action.now) }
    {
        is_open(&self.children, action, child)
    }

    /// The reply that a call was given.
    pub fn kept_reply(&self, action: &Name, number: u32) -> Option<Reply>
        ensures { (objects : List ObjectDecl) (s : ℕ) (L : List DeedValue) (E : List Entry)
            → KeepsOwn objects s L E self.now
            → result ≡ sights.kept_reply L action.now number }
    {
        reply_in(&self.replies, action, number)
    }

    /// Whether the node has secured a family.
    pub fn is_secured(&self, family: &Name) -> bool
        ensures { (objects : List ObjectDecl) (s : ℕ) (L : List DeedValue) (E : List Entry)
            → KeepsOwn objects s L E self.now → result ≡ history.secured_at L family.now s }
    {
        self.ledger.first_secured(self.node, family).is_some()
    }

    /// Whether the node was informed of the commit of an action.
    pub fn has_commit(&self, name: &Name) -> bool
        ensures { (objects : List ObjectDecl) (s : ℕ) (L : List DeedValue) (E : List Entry)
            → KeepsOwn objects s L E self.now → result ≡ history.informed L s name.now true }
    {
        self.ledger.has_commit(self.node, name)
    }

    /// Whether it was informed of its abort.
    pub fn has_abort(&self, name: &Name) -> bool
        ensures { (objects : List ObjectDecl) (s : ℕ) (L : List DeedValue) (E : List Entry)
            → KeepsOwn objects s L E self.now → result ≡ history.informed L s name.now false }
    {
        self.ledger.has_abort(self.node, name)
    }

    /// The lift of an action at the node.
    pub fn lift(&self, action: &Name) -> Option<Name>
        ensures { (objects : List ObjectDecl) (s : ℕ) (L : List DeedValue) (E : List Entry)
            → KeepsOwn objects s L E self.now → result ≡ lift L s action.now }
    {
        self.ledger.lift(self.node, action)
    }

    /// Whether a family is preparing at the node.
    pub fn is_preparing(&self, family: &Name) -> bool
        ensures { (objects : List ObjectDecl) (s : ℕ) (L : List DeedValue) (E : List Entry)
            → KeepsOwn objects s L E self.now → result ≡ is_some (sights.votes E family.now) }
    {
        self.votes.contains_key(family)
    }

    /// Whether a node at a count has voted yes for a family that is preparing.
    pub fn has_vote(&self, family: &Name, node: u8, count: u32) -> bool
        ensures { (objects : List ObjectDecl) (s : ℕ) (L : List DeedValue) (E : List Entry)
            → KeepsOwn objects s L E self.now
            → result ≡ has_pair (unwrap_or (sights.votes E family.now) []) node count }
    {
        has_vote(&self.votes, family, node, count)
    }

    /// The outcomes of which the node was informed, in order.
    pub fn informed(&self) -> &Informed
        ensures { (objects : List ObjectDecl) (s : ℕ) (L : List DeedValue) (E : List Entry)
            → KeepsOwn objects s L E self.now → KeepsInformed L s result.now }
    {
        &self.informed
    }
}
