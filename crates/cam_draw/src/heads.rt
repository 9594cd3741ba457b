//! What stands over the lanes.
ghost use Rattle.std.specs.Prelude.{◌≡◌, ◌+◌, IfOk, OnOk, map, reverse, slice_get, string_bytes};
ghost use Rattle.std.specs.Option.{option_map_or};
ghost use Rattle.cam_draw.specs.Surroundings.{heads, objects, with_name};

use cam_base::{NoMemory, Sequence};
use cam_script::{Labels, Script};
use std::alloc::Global;

/// Appends a name, behind a blank where it is not the first.
fn add_name(names: &mut String, name: &str) -> Result<(), NoMemory>
    ensures { OnOk result (string_bytes names.new ≡ with_name (string_bytes names.old) name.now) }
{
    if !names.is_empty() {
        names.push_str(" ")?;
    }
    Ok(names.push_str(name)?)
}

/// Appends the label at a place, if one is there.
fn add_label(names: &mut String, labels: &Labels, place: usize) -> Result<(), NoMemory>
    ensures { OnOk result (string_bytes names.new ≡ option_map_or
        (with_name (string_bytes names.old)) (slice_get labels.now place)
        (string_bytes names.old)) }
{
    match labels.get(place) {
        Some(label) => add_name(names, label.as_str()),
        None => Ok(()),
    }
}

/// The objects of a node, by name.
fn objects_of(alloc: Global, script: &Script, node: u8) -> Result<String, NoMemory>
    ensures { IfOk result (λ names. string_bytes names
        ≡ objects script.now.labels node (reverse script.now.objects)) }
{
    let mut names = String::new(alloc);
    for (place, object) in script.objects.as_slice().iter().enumerate() {
        if object.node == node {
            add_label(&mut names, &script.labels, place)?;
        }
    }
    Ok(names)
}

/// For each node, from the first, the objects that it keeps.
pub(crate) fn heads_of(alloc: Global, script: &Script) -> Result<Sequence<String>, NoMemory>
    ensures { IfOk result (λ found. map string_bytes found ≡ heads script.now script.now.nodes) }
{
    let mut found = Sequence::new(alloc);
    for before in 0..script.nodes {
        found.push(objects_of(alloc, script, before + 1)?)?;
    }
    Ok(found)
}
