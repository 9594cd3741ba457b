//! The events of all nodes, in one order.
ghost use Rattle.std.specs.Prelude.{◌≡◌, ◌≢◌, ◌↔◌, [], ◌∷◌, map, Some, All, IsTrue, MatchOption, slice_get};
ghost use Rattle.cam_journal.specs.Gathered.{front_of};

use crate::nodes::Core;
use crate::view::Token;
use std::collections::VecDeque;
use std::marker::Model;

/// The events of all nodes in order of their numbers. Contracts see it as the list of those that are left, each with its number.
#[derive(Drop)]
pub struct Gathered<C: Core> {
    pub(crate) lists: Vec<VecDeque<(u64, C::Event)>>,
    pub(crate) next: u64,
    pub(crate) token: Token<C>,
}

impl<C: Core> Model for Gathered<C> {
    ghost use Rattle.std.specs.Prelude.{ℕ, List, map, drop};
    ghost use Rattle.cam_journal.specs.Trace.{numbered_from};
    ghost use Rattle.cam_journal.specs.Gathered.{trace_in, IsLeft};

    ghost Value = { List (ℕ × C.Event) };

    ghost view = { λ g. numbered_from g.next (drop g.next (trace_in g.token.me.0)) };

    ghost invariant = { λ g. IsLeft g.next (map (λ list. list.items) g.lists.items) g.token.me.0 };
}

impl<C: Core> Gathered<C> {
    /// Hands out the first event with its number; none exactly if none is left. It takes no memory.
    pub fn take(&mut self) -> Option<(u64, C::Event)>
        ensures { MatchOption result ((self.old ≡ []) × (self.new ≡ []))
            (λ first. self.old ≡ first ∷ self.new) }
    {
        let Some(at) = first_at(self.lists.as_slice(), self.next) else {
            return None;
        };
        let list = &mut self.lists[at];
        let first = list.pop_front();
        self.next += 1;
        first
    }
}

// The first list that begins with this number.
fn first_at<E>(lists: &[VecDeque<(u64, E)>], number: u64) -> Option<usize>
    ensures { MatchOption result (All (λ list. front_of list.items ≢ Some number) lists.now)
        (λ at. slice_get (map (λ list. front_of list.items) lists.now) at ≡ Some (Some number)) }
{
    for (at, list) in lists.iter().enumerate() {
        if begins(list, number) {
            return Some(at);
        }
    }
    None
}

// Whether the list begins with this number.
fn begins<E>(list: &VecDeque<(u64, E)>, number: u64) -> bool
    ensures { IsTrue result ↔ (front_of list.now.items ≡ Some number) }
{
    match list.front() {
        Some(first) => first.0 == number,
        None => false,
    }
}
