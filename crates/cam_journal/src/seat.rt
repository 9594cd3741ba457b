//! The seat of a node.
ghost use Rattle.std.specs.Prelude.{◌≡◌, ◌≤◌, ◌+◌, ℕ, map, length, Some, slice_get, IfSome, MatchOption};
ghost use Rattle.cam_journal.specs.Seats.{numbered, letter_at};

use crate::nodes::Core;
use crate::view::Token;
use std::alloc::Global;
use std::collections::VecDeque;
use std::marker::Model;

/// How many events one node may record.
pub(crate) const MOST: usize = 500_000_000;

/// The seat of one node, which records its events. Contracts see its journal, its node, its history, the letter that it took and
/// has not used, and its spare: for how many events it has room.
#[derive(Drop)]
pub struct NodeSeat<C: Core> {
    pub(crate) entries: VecDeque<(u64, C::Event)>,
    pub(crate) token: Token<C>,
}

impl<C: Core> Model for NodeSeat<C> {
    ghost use Rattle.std.specs.Prelude.{◌≡◌, ◌-◌, [], length, min};
    ghost use Rattle.std.specs.VecDeque.{deque_capacity, deque_len};
    ghost use Rattle.cam_journal.specs.Seats.{Sitting, sitting, IsSeat};

    ghost Value = { Sitting C.Event C.Letter };

    ghost view = { λ s. sitting s.token.table_id
        (min (deque_capacity s.entries) 500000000 - deque_len s.entries) s.token.me.0 };

    ghost invariant = { λ s. (s.token.me.1 ≡ []) × IsSeat C.lawful s.entries.items s.token.me.0 };
}

impl<C: Core> NodeSeat<C> {
    /// How many events the history has. It takes no memory.
    pub fn len(&self) -> u64
        ensures len { result ≡ length self.now.history }
        ensures room { self.now.spare + result ≤ 500000000 }
    {
        self.entries.len() as u64
    }

    /// The event at a place of the history, from 0, with its number; none exactly if the history has no such place. Its letters are
    /// those that were sent under its number. It takes no memory.
    pub fn get(&self, at: u64) -> Option<(u64, &C::Event)>
        ensures entry { MatchOption result (length self.now.history ≤ at)
            (λ entry. slice_get (map numbered self.now.history) at ≡ Some (entry.0, entry.1.now)) }
        ensures letters { IfSome result (λ entry. (place : ℕ)
            → letter_at C.sends self.now.history entry.0 place
            ≡ slice_get (C.sends entry.1.now) place) }
    {
        let (number, event) = self.entries.get(at as usize)?;
        Some((*number, event))
    }
}
