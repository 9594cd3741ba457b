// What a letter brings, as knowledge.
ghost use Rattle.std.specs.Prelude.{◌≡◌, map, IfOk};
ghost use Rattle.cam_names.specs.Dependencies.{AreCounts};
ghost use Rattle.cam_wire.specs.Spelling.{Rising};
ghost use Rattle.cam_wire.specs.Reading.{outcomes_of};

use crate::outcomes::{Aborts, Commits};
use cam_base::{NoMemory, Sequence};
use cam_know::{Know, Outcome};
use std::alloc::Global;

/// The outcomes that were read: the aborts, then the commits.
fn outcomes_of(
    alloc: Global,
    aborts: &Aborts,
    commits: &Commits,
) -> Result<Sequence<Outcome>, NoMemory>
    ensures { IfOk result (λ outcomes. outcomes ≡ outcomes_of aborts.now commits.now) }
{
    let mut outcomes = Sequence::new(alloc);
    for name in aborts.as_slice() {
        outcomes.push_copy(&Outcome::Aborted(*name))?;
    }
    for (name, deps) in commits.as_slice() {
        outcomes.push_copy(&Outcome::Committed(*name, *deps))?;
    }
    Ok(outcomes)
}

/// Knowledge of these counts and outcomes. All outcomes are learnt at once.
pub fn know_of(
    alloc: Global,
    counts: &[u32; 8],
    aborts: &Aborts,
    commits: &Commits,
) -> Result<Know, NoMemory>
    requires counts { AreCounts 1 counts.now }
    requires aborts { Rising aborts.now }
    requires commits { Rising (map (λ c. c.0) commits.now) }
    ensures { IfOk result (λ know.
        know ≡ record { outcomes = outcomes_of aborts.now commits.now; counts = counts.now }) }
{
    Know::of(alloc, outcomes_of(alloc, aborts, commits)?, *counts)
}
