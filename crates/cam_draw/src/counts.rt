//! How often nodes have begun anew.
ghost use Rattle.std.specs.Prelude.{◌≡◌, ◌++◌, IfOk, codes, decimal, get_or, option_map, replicate, set, string_bytes};
ghost use Rattle.cam_diagram.specs.Picture.{sign};
ghost use Rattle.cam_draw.specs.Captions.{beside, count_words, one_more, with_restart};

use cam_base::NoMemory;
use cam_diagram::{Sign, sign_of};
use cam_event::Event;
use cam_scope::push_number;
use std::alloc::Global;
use std::marker::Model;

/// Of each node how often it restarted.
#[derive(Drop)]
pub(crate) struct Restarts {
    by_node: [u32; 256],
}

impl Model for Restarts {
    ghost use Rattle.std.specs.Prelude.{List, ℕ};

    ghost Value = { List ℕ };

    ghost view = { λ r. r.by_node };
}

impl Restarts {
    /// Before any event.
    pub(crate) fn new() -> Restarts
        ensures { result ≡ replicate 256 0 }
    {
        Restarts { by_node: [0; 256] }
    }

    /// Raises the number of a node; the new one.
    fn raise(&mut self, node: u8) -> u32
        ensures raised { result ≡ one_more (get_or self.old node 0) }
        ensures kept { self.new ≡ set self.old node (one_more (get_or self.old node 0)) }
    {
        let raised = self.by_node[node as usize].saturating_add(1);
        self.by_node[node as usize] = raised;
        raised
    }

    /// Takes an event; the new count of its node, in words, if that restarts.
    pub(crate) fn take(&mut self, alloc: Global, event: &Event) -> Result<Option<String>, NoMemory>
        ensures { IfOk result (λ text. (self.new
            ≡ with_restart (sign event.now) self.old event.now.node)
            × (option_map string_bytes text ≡ beside (sign event.now) self.old event.now.node)) }
    {
        match sign_of(event) {
            Sign::Restart => Ok(Some(count_text(alloc, self.raise(event.node))?)),
            _ => Ok(None),
        }
    }
}

/// A count in words: the first one is 1.
fn count_text(alloc: Global, restarts: u32) -> Result<String, NoMemory>
    ensures { IfOk result (λ text. string_bytes text ≡ count_words restarts) }
{
    let mut text = String::new(alloc);
    text.push_str("count ")?;
    push_number(&mut text, restarts.saturating_add(1) as u64)?;
    Ok(text)
}
