//! What a restart finds of the halt before it. Where a node halts in a step its log may have the
//! event's entry. The node keeps what the log may have taken of the event, and what it knows with
//! it, until a restart comes to its end. So the restart tells, by what the log holds, whether it
//! has the event.
ghost use Rattle.std.specs.Prelude.{◌≡◌, ◌≤◌, if◌then◌else◌, None};
ghost use Rattle.std.specs.List.{list_any, list_all};
ghost use Rattle.cam_event.specs.Taken.{is_entered, taken_of};
ghost use Rattle.cam_names.specs.Names.{name_eq};
ghost use Rattle.cam_type.specs.declared.Held.{Held as HeldFamily};
ghost use Rattle.cam_node.specs.Calls.{answers};
ghost use Rattle.cam_node.specs.Found.{counts_at, has_event, has_halted_at, is_held};

use crate::Stepped;
use crate::restart::Reread;
use crate::state::Core;
use cam_base::Sequence;
use cam_event::{Deed, Event, Note};
use cam_names::Name;
use cam_type::Held;

/// What a restart found in the log.
#[derive(Drop)]
pub struct Found {
    /// What the log has of the event at which the node had halted; None if it has nothing of it,
    /// and where the node had not halted. Of an event that adds nothing to what the log keeps either
    /// answer is right.
    pub event: Option<Event>,
    /// How many restarts that failed had reached the log.
    pub restarts: u32,
}

impl Found {
    /// The log has the event of the halt, or nothing of it; and it has so many restarts.
    pub(crate) fn of(halted_at: Option<Event>, has_event: bool, restarts: u32) -> Found
        ensures { result ≡ record {
          event = if has_event then halted_at else None;
          restarts = restarts;
        } }
    {
        if has_event {
            Found {
                event: halted_at,
                restarts,
            }
        } else {
            Found {
                event: None,
                restarts,
            }
        }
    }
}

/// A restart that came to its end, and what it found.
#[derive(Drop)]
pub struct Restarted {
    pub stepped: Stepped,
    pub found: Found,
}

/// What a log may take of an event: its Informs, decisions, Secures and Crash. It takes no memory.
pub(crate) fn taken_of(event: Event) -> Event
    ensures { result ≡ taken_of event }
{
    let mut deeds = event.deeds.into_vec();
    let alloc = *deeds.allocator();
    deeds.retain(is_entered);
    Event {
        node: event.node,
        got: event.got,
        deeds: Sequence::from_vec(deeds),
        sent: Sequence::new(alloc),
        note: Note::Plain,
    }
}

/// Whether an entry has a record of such a deed.
fn is_entered(deed: &Deed) -> bool
    ensures { result ≡ is_entered deed.now }
{
    match deed {
        Deed::Inform { .. }
        | Deed::Commit { .. }
        | Deed::Abort { .. }
        | Deed::Secure { .. }
        | Deed::Crash { .. } => true,
        _ => false,
    }
}

impl Core {
    /// Whether a log that was read has the event, if any, at which the node halted.
    pub(crate) fn has_halted_at(&self, halted_at: &Option<Event>, reread: &Reread) -> bool
        requires number { (1 ≤ self.now.number) × (self.now.number ≤ 8) }
        requires count { 1 ≤ reread.now.kept.count }
        ensures { result ≡ has_halted_at (answers self.now) halted_at.now reread.now }
    {
        match halted_at {
            Some(event) => self.has_event(event, reread),
            None => false,
        }
    }

    /// Whether a log that was read has an event that the node knows.
    fn has_event(&self, event: &Event, reread: &Reread) -> bool
        requires number { (1 ≤ self.now.number) × (self.now.number ≤ 8) }
        requires count { 1 ≤ reread.now.kept.count }
        ensures { result ≡ has_event (answers self.now) event.now reread.now }
    {
        reread.kept.know.len() == self.knowing.len()
            && reread.counts == self.counts_at(reread.kept.count - 1)
            && all_held(reread.kept.held.as_slice(), event.deeds.as_slice())
    }

    /// The counts that are known where restarts have raised the node's own to this one.
    fn counts_at(&self, own: u32) -> [u32; 8]
        requires { (1 ≤ self.now.number) × (self.now.number ≤ 8) }
        ensures { result ≡ counts_at own (answers self.now) }
    {
        let mut counts = self.knowing.counts();
        if self.count < own {
            let place = self.number as usize - 1;
            counts[place] = counts[place].max(own);
        }
        counts
    }
}

/// Whether each family that these deeds secure is held.
fn all_held(held: &[Held], deeds: &[Deed]) -> bool
    ensures { result ≡ list_all (is_held held.now) deeds.now }
{
    for deed in deeds {
        if !is_held(held, deed) {
            return false;
        }
    }
    true
}

/// Whether the family is held that a deed secures, if it secures one.
fn is_held(held: &[Held], deed: &Deed) -> bool
    ensures { result ≡ is_held held.now deed.now }
{
    match deed {
        Deed::Secure { family, .. } => holds(held, family),
        _ => true,
    }
}

/// Whether this family is held.
fn holds(held: &[Held], family: &Name) -> bool
    ensures { result ≡ list_any (λ (h : HeldFamily). name_eq family.now h.family) held.now }
{
    for one in held {
        if *family == one.family {
            return true;
        }
    }
    false
}
