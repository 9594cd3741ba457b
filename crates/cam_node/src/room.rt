//! Lists of one value, and room for one that is known only later.
ghost use Rattle.std.specs.Prelude.{◌≡◌, ◌<◌, ◌++◌, ◌∷◌, [], IfOk, vec_len, vec_capacity};

use cam_base::{NoMemory, Sequence};
use std::alloc::Global;

/// The list of this one value.
pub(crate) fn one<T: Copy>(alloc: Global, value: &T) -> Result<Sequence<T>, NoMemory>
    ensures { IfOk result (λ list. list ≡ value.now ∷ []) }
{
    let mut list = Sequence::new(alloc);
    list.push_copy(value)?;
    Ok(list)
}

/// An empty list with room for one value.
pub(crate) fn room_for_one<T: Drop>(alloc: Global) -> Result<Vec<T>, NoMemory>
    ensures empty { IfOk result (λ list. list.items ≡ []) }
    ensures room { IfOk result (λ list. vec_len list < vec_capacity list) }
{
    let mut list = Vec::new(alloc);
    list.reserve(1)?;
    Ok(list)
}

/// Adds a value for which there is room. It takes no memory.
pub(crate) fn push_reserved<T: Copy>(list: &mut Vec<T>, value: &T)
    requires { vec_len list.old < vec_capacity list.old }
    ensures { list.new.items ≡ list.old.items ++ value.now ∷ [] }
{
    match list.push(*value) {
        Ok(()) => {}
        // there is room
        Err(_) => unreachable!(),
    }
}
