//! Room that is made in a list before it is used.
ghost use Rattle.std.specs.Prelude.{◌≡◌, ◌<◌, ◌≤◌, ◌++◌, ◌∷◌, [], OnOk, vec_len, vec_capacity};

use cam_base::NoMemory;

/// Makes room for one more value. The values stay.
pub(crate) fn reserve_one<T>(list: &mut Vec<T>) -> Result<(), NoMemory>
    ensures same { list.new.items ≡ list.old.items }
    ensures room { OnOk result (vec_len list.new < vec_capacity list.new) }
{
    list.reserve(1)?;
    Ok(())
}

/// Adds a value for which there is room.
pub(crate) fn push_reserved<T: Copy>(list: &mut Vec<T>, value: &T)
    requires { vec_len list.old < vec_capacity list.old }
    ensures { list.new.items ≡ list.old.items ++ value.now ∷ [] }
{
    match list.push(*value) {
        Ok(()) => {}
        // there is room
        Err(_) => unreachable!(),
    }
}

/// Adds a value to a list that has room for it. It takes no memory.
pub fn push_owned<T: Drop>(list: &mut Vec<T>, value: T)
    requires { vec_len list.old < vec_capacity list.old }
    ensures items { list.new.items ≡ list.old.items ++ value ∷ [] }
    ensures capacity { vec_capacity list.old ≤ vec_capacity list.new }
{
    match list.push(value) {
        Ok(()) => {}
        // there is room
        Err(_) => unreachable!(),
    }
}
