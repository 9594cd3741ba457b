//! The objects of a run, each named by its place in the list of their declarations, counted from 0.
ghost use Rattle.std.specs.Prelude.{◌≡◌, IfOk};
ghost use Rattle.cam_type.specs.Objects.{site_of, is_fit, start_of};

use crate::{Objects, Op, State, fits};
use cam_base::NoMemory;

/// The node of an object, and 0 if it is not declared.
pub fn site_of(objects: &Objects, object: u8) -> u8
    ensures { result ≡ site_of objects.now object }
{
    match objects.get(object as usize) {
        Some(declared) => declared.node,
        None => 0,
    }
}

/// Whether the object is declared and its kind has the operation.
pub fn is_fit(objects: &Objects, object: u8, op: &Op) -> bool
    ensures { result ≡ is_fit objects.now object op.now }
{
    match objects.get(object as usize) {
        Some(declared) => fits(declared.start.kind(), op),
        None => false,
    }
}

/// The start state of an object; an undeclared object is a register of 0. It fails only
/// if memory runs out.
pub fn start_of(objects: &Objects, object: usize) -> Result<State, NoMemory>
    ensures { IfOk result (λ state. state ≡ start_of objects.now object) }
{
    match objects.get(object) {
        Some(declared) => declared.start.copy(),
        None => Ok(State::Register(0)),
    }
}
