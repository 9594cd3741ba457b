//! Scripts that are made from a seed.
ghost use Rattle.std.specs.Prelude.{◌≡◌, ◌≤◌, IfOk, IsOk, string_bytes};
ghost use Rattle.cam_gen.specs.Script.{script_of};
ghost use Rattle.cam_script.specs.Grammar.{read_script};

use cam_base::NoMemory;
use cam_gen::script_of;
use std::alloc::Global;

/// The most steps of a script that is made from a seed.
const MOST_STEPS: u32 = 400;

/// The script of so many steps that is made from a seed. The grammar accepts it.
#[tactic(auto, using(cam_gen::proofs::AllAccepted::each_is_accepted))]
fn script_made(alloc: Global, seed: u64, size: u32) -> Result<String, NoMemory>
    requires { size ≤ 400 }
    ensures text { IfOk result (λ text. string_bytes text ≡ script_of seed size) }
    ensures accepted { IfOk result (λ text. IsOk (read_script (script_of seed size))) }
{
    script_of(alloc, seed, size)
}

/// The script of so many steps that is made from a seed; none if the numbers are out of their ranges.
pub fn made(alloc: Global, seed: &str, size: &str) -> Result<Option<String>, NoMemory> {
    let Ok(seed) = seed.parse::<u64>() else {
        return Ok(None);
    };
    match size.parse::<u32>() {
        Ok(size) if 1 <= size && size <= MOST_STEPS => Ok(Some(script_made(alloc, seed, size)?)),
        _ => Ok(None),
    }
}
