//! The facts that one of two runs has alone.
ghost use Rattle.std.specs.Prelude.{◌≡◌, ◌++◌, OnOk, string_bytes};
ghost use Rattle.std.specs.List.{flat_map};
ghost use Rattle.cam_compare.specs.Alone.{alone};

use cam_base::NoMemory;
use cam_expect::Facts;

/// Appends a fact as a line behind a mark, if the others do not have it.
fn write_fact(mark: &str, fact: &String, others: &Facts, out: &mut String) -> Result<(), NoMemory>
    ensures { OnOk result (string_bytes out.new ≡ string_bytes out.old
        ++ alone mark.now others.now fact.now) }
{
    if !others.contains(fact.as_str()) {
        out.push_str(mark)?;
        out.push_str(fact.as_str())?;
        out.push_str("\n")?;
    }
    Ok(())
}

/// Appends the facts that the others do not have, in order, each as a line behind a mark.
pub(crate) fn write_alone(
    mark: &str,
    facts: &Facts,
    others: &Facts,
    out: &mut String,
) -> Result<(), NoMemory>
    ensures { OnOk result (string_bytes out.new ≡ string_bytes out.old
        ++ flat_map (alone mark.now others.now) facts.now.keys) }
{
    for fact in facts {
        write_fact(mark, fact, others, out)?;
    }
    Ok(())
}
