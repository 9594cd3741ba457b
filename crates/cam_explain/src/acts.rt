//! What a line of a script is about: its variable, its letter, the node that would have acted.
ghost use Rattle.std.specs.Prelude.{◌≡◌, option_and_then};
ghost use Rattle.std.specs.Option.{option_copied, option_map};
ghost use Rattle.cam_names.specs.Names.{home_node};
ghost use Rattle.cam_explain.specs.Reasons.{actor, binder, letter_at, letter_of, named_node, node_of, pointed_by, variable_of};

use cam_event::LineRefusal;
use cam_names::Name;
use cam_scope::{NamedLetter, Scope};
use cam_script::Act;

/// The place of the word at which a refusal points, among the words of its line, from 0.
pub(crate) fn pointed_by(act: &Act, refusal: LineRefusal) -> usize
    ensures { result ≡ pointed_by act.now refusal }
{
    match (act, refusal) {
        (Act::Query { .. }, LineRefusal::Unbound) => 2,
        (Act::Query { .. }, LineRefusal::NothingToDo) => 2,
        (Act::GiveUp { .. }, LineRefusal::NotOpen) => 2,
        _ => 1,
    }
}

/// The place of the step whose variable a line is about, if it is about one.
fn variable_of(act: &Act) -> Option<u32>
    ensures { result ≡ variable_of act.now }
{
    match act {
        Act::Ask { parent, .. } => Some(*parent),
        Act::Call { action, .. }
        | Act::Commit { action, .. }
        | Act::Abort { action }
        | Act::GiveUp { action, .. }
        | Act::Go { action }
        | Act::Query { action, .. } => Some(*action),
        _ => None,
    }
}

/// The number of the letter that a line is about, if it is about one.
pub(crate) fn letter_of(act: &Act) -> Option<u32>
    ensures { result ≡ letter_of act.now }
{
    match act {
        Act::Deliver { letter } | Act::Cut { letter, .. } | Act::Lose { letter } => Some(*letter),
        _ => None,
    }
}

/// The node that a line names, if it names one that would act.
fn named_node(act: &Act) -> Option<u8>
    ensures { result ≡ named_node act.now }
{
    match act {
        Act::Begin { node }
        | Act::Start { node, .. }
        | Act::Tell { node, .. }
        | Act::Query { node, .. }
        | Act::Stop { node, .. } => Some(*node),
        _ => None,
    }
}

/// The action for which the variable of a line stands.
pub(crate) fn actor(scope: &Scope, act: &Act) -> Option<Name>
    ensures { result ≡ actor scope.now act.now }
{
    match variable_of(act) {
        Some(place) => scope.made(place),
        None => None,
    }
}

/// The letter of this number, if the run has it.
pub(crate) fn letter_at(scope: &Scope, number: u32) -> Option<&NamedLetter>
    ensures { option_copied result ≡ letter_at scope.now number }
{
    scope.letters.get((number as usize).saturating_sub(1))
}

/// The node to which the letter of a line goes, if it is about one.
fn addressed_node(scope: &Scope, act: &Act) -> Option<u8>
    ensures { result ≡ option_map (λ letter. letter.to)
        (option_and_then (letter_at scope.now) (letter_of act.now)) }
{
    match letter_of(act) {
        Some(number) => match letter_at(scope, number) {
            Some(letter) => Some(letter.to),
            None => None,
        },
        None => None,
    }
}

/// The home of the action of a line, if it is about one.
fn home_of_actor(scope: &Scope, act: &Act) -> Option<u8>
    ensures { result ≡ option_map home_node (actor scope.now act.now) }
{
    match actor(scope, act) {
        Some(action) => {
            let (node, _) = action.home();
            Some(node)
        }
        None => None,
    }
}

/// The node that would have acted in a line, if it is known.
pub(crate) fn node_of(scope: &Scope, act: &Act) -> Option<u8>
    ensures { result ≡ node_of scope.now act.now }
{
    if let Some(node) = named_node(act) {
        return Some(node);
    }
    match addressed_node(scope, act) {
        Some(node) => Some(node),
        None => home_of_actor(scope, act),
    }
}

/// The place of the step that should have bound the variable that a line is about.
pub(crate) fn binder(scope: &Scope, act: &Act) -> Option<u32>
    ensures { result ≡ binder scope.now act.now }
{
    match act {
        Act::GiveUp { action, child } => if scope.made(*action).is_some() {
            Some(*child)
        } else {
            Some(*action)
        },
        _ => variable_of(act),
    }
}
