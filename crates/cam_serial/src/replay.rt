//! Whether a serial list replays.
ghost use Rattle.std.specs.Prelude.{◌≡◌, ◌↔◌, ℕ, OnOk, IfOk, IsTrue, unwrap_or};
ghost use Rattle.cam_event.specs.Live.{start_of};
ghost use Rattle.cam_type.specs.Table.{answer_eq, answer_of};
ghost use Rattle.cam_serial.specs.Answering.{state_in, step};
ghost use Rattle.cam_serial.specs.Serial.{Replays};

use crate::SerialList;
use cam_base::NoMemory;
use cam_event::Operation;
use cam_type::{Objects, State, apply, start_of};
use std::alloc::Global;
use std::collections::BTreeMap;

/// The states of the objects that an operation has come to.
type States = BTreeMap<u8, State>;

/// The state that was kept of an object, or its start state.
fn kept_or_start(objects: &Objects, object: u8, kept: Option<State>) -> Result<State, NoMemory>
    ensures { IfOk result (λ state. state ≡ unwrap_or kept (start_of objects.now object)) }
{
    match kept {
        Some(state) => Ok(state),
        None => start_of(objects, object as usize),
    }
}

/// Does an operation, and tells whether its answer is the one that it has.
fn answers(objects: &Objects, states: &mut States, operation: &Operation) -> Result<bool, NoMemory>
    ensures same { IfOk result
        (λ same. same ≡ answer_eq operation.now.answer
        (answer_of (state_in objects.now states.old operation.now.object) operation.now.op)) }
    ensures after { OnOk result
        ((x : ℕ) → state_in objects.now states.new x
        ≡ step (state_in objects.now states.old) operation.now x) }
{
    let kept = states.remove(&operation.object);
    let mut state = kept_or_start(objects, operation.object, kept)?;
    let answer = apply(&mut state, &operation.op)?;
    states.insert(operation.object, state)?;
    Ok(operation.answer == answer)
}

/// Whether the list replays: applied in order from the start states, each of its operations answers
/// as the list says. The operations may be on objects that are not declared, or not fit theirs. It
/// fails only if memory runs out.
pub fn replays(alloc: Global, list: &SerialList, objects: &Objects) -> Result<bool, NoMemory>
    ensures { IfOk result (λ yes. IsTrue yes ↔ Replays objects.now list.now) }
{
    let mut states = States::new(alloc);
    for operation in list.as_slice() {
        let same = answers(objects, &mut states, operation)?;
        if !same {
            return Ok(false);
        }
    }
    Ok(true)
}
