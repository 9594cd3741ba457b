//! A storm node as a core of the journal.
ghost use Rattle.std.specs.Prelude.{◌↔◌, IfOk, IsNone, IsTrue};
ghost use Rattle.cam_journal.specs.Taking.{CanStep, FaultsWithCause, IsStep};
ghost use Rattle.cam_storm.specs.Core.{Answers};
ghost use Rattle.cam_storm.specs.Lawful.{goes_to, lawful, names, sends};
ghost use Rattle.cam_storm_node.specs.Playing.{IsCore, is_idle_by};

use crate::copying::copy_copied;
use crate::storm_node::{AsStormNode, StormNode};
use crate::storming::Storming;
use crate::telling::TellingLog;
use cam_base::NoMemory;
use cam_journal::{Core, CoreFault, CoreInput};
use cam_storm::{Copied, Stepped};

impl<L: TellingLog, W: Storming> Core for StormNode<L, W> {
    type Event = Stepped;

    type Letter = Copied;

    ghost use Rattle.cam_storm.specs.Lawful.{copied, goes_to, lawful, names, sends};
    ghost use Rattle.cam_storm.specs.Core.{Answers};
    ghost use Rattle.cam_storm_node.specs.Playing.{IsCore, is_idle_by};

    ghost faults = { λ storm_node.
        (⟦<StormNode<L, W> as AsStormNode>⟧.fields storm_node).faults };

    ghost names = { names };

    ghost sends = { sends };

    ghost goes_to = { goes_to };

    ghost copied = { copied };

    ghost lawful = { lawful W.words };

    ghost answers = { Answers W.words };

    ghost is_replay = { λ storm_node node history.
        IsCore W.words W.failures (⟦<StormNode<L, W> as AsStormNode>⟧.fields storm_node)
        node history };

    ghost is_idle = { λ storm_node input.
        is_idle_by (⟦<StormNode<L, W> as AsStormNode>⟧.fields storm_node) input };

    fn step(&mut self, input: CoreInput<Copied>) -> Result<Option<Stepped>, CoreFault>
        requires { CanStep (λ storm_node node history.
            IsCore W.words W.failures (⟦<StormNode<L, W> as AsStormNode>⟧.fields storm_node)
            node history)
            sends goes_to (lawful W.words) self.old input }
        ensures step { IsStep (λ storm_node node history.
            IsCore W.words W.failures (⟦<StormNode<L, W> as AsStormNode>⟧.fields storm_node)
            node history)
            names goes_to (lawful W.words) (Answers W.words) self.old input self.new result }
        ensures none { IfOk result (λ made.
            IsNone made ↔ IsTrue (is_idle_by
            (⟦<StormNode<L, W> as AsStormNode>⟧.fields self.old) input)) }
        ensures cause { FaultsWithCause (⟦<StormNode<L, W> as AsStormNode>⟧.fields self.old).faults
            (⟦<StormNode<L, W> as AsStormNode>⟧.fields self.new).faults result }
    {
        if self.idle(&input) {
            return Ok(None);
        }
        Ok(Some(self.step_on(input)?))
    }

    fn idle(&self, input: &CoreInput<Copied>) -> bool {
        if self.is_halted() {
            return true;
        }
        match input {
            CoreInput::Letter {
                number,
                place,
                letter,
            } => letter.copies <= self.times_received(*number, *place),
            CoreInput::Drive => self.tops <= self.events && self.next.is_none(),
        }
    }

    fn copies(letter: &Copied) -> u8 {
        letter.copies
    }

    fn to(letter: &Copied) -> u8 {
        letter.letter.to
    }

    fn letters(event: &Stepped) -> u32 {
        event.letters.len() as u32
    }

    fn letter(event: &Stepped, place: u32) -> Result<Copied, NoMemory> {
        match event.letters.get(place as usize) {
            Some(copied) => copy_copied(copied),
            None => unreachable!(),
        }
    }

    fn copy(letter: &Copied) -> Result<Copied, NoMemory> {
        copy_copied(letter)
    }
}
