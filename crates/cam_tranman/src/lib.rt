//! The actions that a node runs: what they have asked for, what is open, and what they depend on.
//!
//! [`Homed`] has the actions of the node's present incarnation alone, in tables of hashes, so that
//! a call costs some look-ups and not what runs. Each call is one step of an action at its home: it
//! is begun or started, asks for a child, makes a call, takes an answer, asks to commit or abort,
//! decides a child. The tests that a rule makes first are calls too: `refusal`, `awaits`,
//! `decides`. The orphan test comes between, and is that of `cam_orphan`. `reserve` makes all
//! growth before a step; a call that has room takes no memory.
//!
//! Its laws: the calls are the rules (`calls_are_rules`), and after each step of a node the actions
//! answer as the node's history does (`one_more_step`), after a restart too. It uses
//! `cam_event` (histories and rules).
#![tactic(auto)]

ghost use Rattle.cam_tranman.specs.Events.{QuietKeeps, DeedKeeps};
ghost use Rattle.cam_tranman.specs.Steps.{SightIsAnswered, BegunIsRule, RefusalIsRule};
ghost use Rattle.cam_tranman.specs.Steps.{WantedIsRule, StartedIsRule, TakenIsRule, FinishIsRule};
ghost use Rattle.cam_tranman.specs.Steps.{QuitIsRule, DepsAreTheRules, ChildIsNoTop};
ghost use Rattle.cam_tranman.specs.Steps.{GivenUpIsNoTop};
ghost use Rattle.cam_tranman.specs.Orderly.{NoneIsOrderly, StepsStayOrderly, TakenStaysOrderly};
ghost use Rattle.cam_tranman.specs.Keeping.{RulesMakeThem, DeedsMayCome, RestartKeeps, StepKeeps};

mod action;
mod asking;
mod call;
mod children;
mod deps;
mod homed;
mod steps;
mod tables;

pub use call::OpenCall;
use cam_event::Seen;
pub use homed::Homed;

/// What the start of a child makes of it.
#[derive(Clone, Copy, Debug, PartialEq, Eq)]
pub enum Started {
    /// It is created here now.
    New,
    /// It was created here before.
    Known,
}

/// What the answer to a call makes of it.
#[derive(Clone, Copy, Debug, PartialEq, Eq)]
pub enum Taken {
    /// The action sees this of its open call.
    Got(Seen),
    /// The call is not awaited, or its site had crashed or stopped it: the action sees nothing.
    Late,
}

/// After one more event, which is no restart, the actions answer as the node's history does: one
/// without a deed that concerns them leaves them as they are, and one with such a deed, which may
/// come then, does what the call does that stands for it.
pub fn one_more_event()
    ensures none { QuietKeeps }
    ensures one { DeedKeeps }
{}

/// What a node does with what is asked of its actions is what the calls answer, for actions that
/// answer as its history does.
pub fn calls_are_rules()
    ensures sight { SightIsAnswered }
    ensures begin { BegunIsRule }
    ensures refusal { RefusalIsRule }
    ensures request { WantedIsRule }
    ensures start { StartedIsRule }
    ensures answer { TakenIsRule }
    ensures finish { FinishIsRule }
    ensures quit { QuitIsRule }
    ensures deps { DepsAreTheRules }
    ensures child { ChildIsNoTop }
    ensures given_up { GivenUpIsNoTop }
{}

/// A node's history is in order: it has nothing of actions of later counts, its top actions are
/// numbered in turn, who asked for a child was created, and what is prepared is a top action of the
/// present count. Each step keeps it so, and what was taken of a step at a halt.
pub fn histories_are_orderly()
    ensures none { NoneIsOrderly }
    ensures steps { StepsStayOrderly }
    ensures taken { TakenStaysOrderly }
{}

/// One step of a node, whatever it is: the rule makes one deed at most that concerns the actions,
/// which may come then or is the restart's crash, and where the actions did what that deed does
/// they answer as the longer history. After a restart, where nothing runs, they do.
pub fn one_more_step()
    ensures deeds { RulesMakeThem }
    ensures may { DeedsMayCome }
    ensures restart { RestartKeeps }
    ensures step { StepKeeps }
{}
