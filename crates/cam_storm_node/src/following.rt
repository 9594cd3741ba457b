//! What a storm node makes of a step that its node took.
ghost use Rattle.std.specs.Prelude.{◌≡◌, ◌↔◌, ◌<◌, ℕ, List, None, IfOk, IsFalse, IsTrue, option_map};
ghost use Rattle.cam_names.specs.Names.{home_node};
ghost use Rattle.cam_event.specs.ByDeltas.{Received};
ghost use Rattle.cam_event.specs.Refusals.{refusal};
ghost use Rattle.cam_event.specs.declared.Request.{Request as RequestFields};
ghost use Rattle.cam_gen.specs.Storms.{Words};
ghost use Rattle.cam_storm.specs.Core.{IsLeastDrive};
ghost use Rattle.cam_storm.specs.Own.{sight_at};
ghost use Rattle.cam_storm_node.specs.Playing.{IsNextRequest};
ghost use Rattle.cam_storm_node.specs.Following.{HasFewReceipts, HasFollowed, IsRequestOf, Knows, MayFollow};

use crate::copying::with_copies;
use crate::storm_node::{AsStormNode, StormNode};
use crate::storming::Storming;
use crate::taking::Taken;
use crate::telling::TellingLog;
use crate::wants::has_want;
use cam_base::NoMemory;
use cam_event::Request;
use cam_names::Name;
use cam_node::{Input, Stepped as NodeStepped};
use cam_storm::Stepped;

impl<L: TellingLog, W: Storming> StormNode<L, W> {
    /// The request of an action, if it has one.
    fn request_of(&self, name: &Name) -> Option<Request>
        requires running { IsFalse self.now.node.log.halted }
        ensures { (words : Words) (s : ℕ) (own : List Received)
            → Knows words s own (⟦<StormNode<L, W> as AsStormNode>⟧.fields self.now)
            → IsRequestOf words s own name.now result }
    {
        let work = self.works.works.get(name)?;
        let request = Request {
            action: *name,
            want: work.want()?,
        };
        if self.works.stopped.contains(name) || name.home().0 != self.node.number() {
            return None;
        }
        if has_want(&self.storm, &request.want) && self.is_free(&request) {
            Some(request)
        } else {
            None
        }
    }

    /// Whether nothing stands against a request.
    fn is_free(&self, request: &Request) -> bool
        requires running { IsFalse self.now.node.log.halted }
        ensures { (words : Words) (s : ℕ) (own : List Received)
            → Knows words s own (⟦<StormNode<L, W> as AsStormNode>⟧.fields self.now)
            → home_node request.now.action ≡ s
            → IsTrue result ↔ (refusal (sight_at words s own) request.now.action request.now.want
            ≡ None) }
    {
        self.node.refusal(&Input::Request(*request)).is_none()
    }

    /// The request of the least-named action that has one, by what is kept now.
    fn least_request(&self) -> Option<Request>
        requires running { IsFalse self.now.node.log.halted }
        ensures least { (words : Words) (s : ℕ) (own : List Received)
            → Knows words s own (⟦<StormNode<L, W> as AsStormNode>⟧.fields self.now)
            → IsLeastDrive words s own (option_map (λ (r : RequestFields). r.action) result) }
        ensures request { (words : Words) (s : ℕ) (own : List Received)
            → Knows words s own (⟦<StormNode<L, W> as AsStormNode>⟧.fields self.now)
            → IsNextRequest words s own result }
    {
        for name in self.works.asking.iter() {
            if let Some(request) = self.request_of(name) {
                return Some(request);
            }
        }
        None
    }

    /// Takes in the event of a step, and gives its letters their copies.
    pub(crate) fn follow(&mut self, taken: Taken) -> Result<Stepped, NoMemory>
        requires running { IsFalse self.old.node.log.halted }
        requires events { self.old.events < 500000000 }
        requires receipts { HasFewReceipts self.old.receipts taken.stepped.event.got }
        ensures event { IfOk result (λ e. e.event ≡ taken.stepped.event) }
        ensures followed { IfOk result (λ e. (words : Words) (s sent : ℕ) (own : List Received)
            (c : Received) → c.event ≡ taken.stepped.event
            → MayFollow words s sent own c taken.finish
            (⟦<StormNode<L, W> as AsStormNode>⟧.fields self.old)
            → HasFollowed words s sent own c taken.stepped.letters
            (⟦<StormNode<L, W> as AsStormNode>⟧.fields self.old) e.letters
            (⟦<StormNode<L, W> as AsStormNode>⟧.fields self.new)) }
        ensures node { self.new.node ≡ self.old.node }
        ensures lost { self.new.lost ≡ self.old.lost }
        ensures storm { self.new.storm ≡ self.old.storm }
        ensures tops { self.new.tops ≡ self.old.tops }
    {
        let Taken { stepped, finish } = taken;
        let NodeStepped { event, letters } = stepped;
        self.receipts.take_in(event.got)?;
        self.works.take_in(&event, finish)?;
        let letters = with_copies(self.alloc, &mut self.copies, letters)?;
        self.next = self.least_request();
        self.events += 1;
        if letters.len() > u32::MAX as usize {
            return Err(NoMemory);
        }
        Ok(Stepped { event, letters })
    }
}
