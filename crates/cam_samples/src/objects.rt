//! Objects of a run.
ghost use Rattle.std.specs.Prelude.{◌≡◌, IfOk, [], ◌∷◌, map, pos};
ghost use Rattle.cam_type.specs.declared.State.TheVariants.{Register, Counter};

use cam_base::NoMemory;
use cam_type::{ObjectDecl, Objects, State};
use std::alloc::Global;

/// Registers that begin with 0, one at each of these nodes.
pub fn registers(alloc: Global, nodes: &[u8]) -> Result<Objects, NoMemory>
    ensures { IfOk result (λ objects. objects ≡ map (λ node. record { node = node; start = Register (pos 0) }) nodes.now) }
{
    let mut objects = Objects::new(alloc);
    for node in nodes {
        objects.push(ObjectDecl {
            node: *node,
            start: State::Register(0),
        })?;
    }
    Ok(objects)
}

/// A counter at a node, and nothing else.
pub fn counter(alloc: Global, node: u8, value: i64) -> Result<Objects, NoMemory>
    ensures { IfOk result (λ objects. objects ≡ record { node = node; start = Counter value } ∷ []) }
{
    let mut objects = Objects::new(alloc);
    objects.push(ObjectDecl {
        node,
        start: State::Counter(value),
    })?;
    Ok(objects)
}
