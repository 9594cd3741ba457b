// The outcomes of a letter: the aborts, then the commits with their dependencies, each in rising order of names.
ghost use Rattle.std.specs.Prelude.{◌≡◌, ◌≤◌, ℕ, suc, length, map, IfOk, IfErr};
ghost use Rattle.cam_bytes.specs.Refuses.{Refuses};
ghost use Rattle.cam_wire.specs.Spelling.{Rising};
ghost use Rattle.cam_wire.specs.Reading.{is_above_last, aborts_from, aborts_at, commits_from, commits_at};

use cam_base::Sequence;
use cam_bytes::{WireFault, deps_at, name_at, number_at};
use cam_names::{Deps, Name};
use std::alloc::Global;

/// The names of aborted actions.
pub type Aborts = Sequence<Name>;

/// Committed actions, each with its dependencies.
pub type Commits = Sequence<(Name, Deps)>;

/// The name is above the last of the names.
fn is_above_last(names: &[Name], name: &Name) -> bool
    ensures { result ≡ is_above_last names.now name.now }
{
    match names.last() {
        Some(last) => last < name,
        None => true,
    }
}

/// The name is above that of the last commit.
fn is_above_last_commit(commits: &[(Name, Deps)], name: &Name) -> bool
    ensures { result ≡ is_above_last (map (λ c. c.0) commits.now) name.now }
{
    match commits.last() {
        Some((last, _)) => last < name,
        None => true,
    }
}

/// Takes the abort that stands at a place, and answers the place after it.
#[tactic(auto, unfolding(crate::specs::Reading::aborts_from))]
fn take_abort(bytes: &[u8], at: usize, aborts: &mut Aborts) -> Result<usize, WireFault>
    requires { at ≤ length bytes.now }
    ensures taken { IfOk result (λ end. (left : ℕ) →
        aborts_from (suc left) aborts.old at bytes.now ≡ aborts_from left aborts.new end bytes.now) }
    ensures refused { IfErr result (λ fault. (left : ℕ) →
        Refuses fault (aborts_from (suc left) aborts.old at bytes.now)) }
    ensures end { IfOk result (λ end. (at ≤ end) × (end ≤ length bytes.now)) }
{
    let (name, end) = name_at(bytes, at)?;
    if !is_above_last(aborts.as_slice(), &name) {
        return Err(WireFault::Order(at as u64));
    }
    aborts.push_copy(&name)?;
    Ok(end)
}

/// The aborts at a place, and the place after them.
pub fn aborts_at(alloc: Global, bytes: &[u8], at: usize) -> Result<(Aborts, usize), WireFault>
    requires { at ≤ length bytes.now }
    ensures read { IfOk result (λ read. aborts_at at bytes.now ≡ Ok read) }
    ensures refused { IfErr result (λ fault. Refuses fault (aborts_at at bytes.now)) }
    ensures rising { IfOk result (λ read. Rising read.0) }
    ensures end { IfOk result (λ read. (at ≤ read.1) × (read.1 ≤ length bytes.now)) }
{
    let (mut left, mut at) = number_at(bytes, at)?;
    let mut aborts = Aborts::new(alloc);
    while left > 0 {
        at = take_abort(bytes, at, &mut aborts)?;
        left -= 1;
    }
    Ok((aborts, at))
}

/// Takes the commit that stands at a place, and answers the place after it.
#[tactic(auto, unfolding(crate::specs::Reading::commits_from))]
fn take_commit(bytes: &[u8], at: usize, commits: &mut Commits) -> Result<usize, WireFault>
    requires { at ≤ length bytes.now }
    ensures taken { IfOk result (λ end. (left : ℕ) →
        commits_from (suc left) commits.old at bytes.now ≡ commits_from left commits.new end bytes.now) }
    ensures refused { IfErr result (λ fault. (left : ℕ) →
        Refuses fault (commits_from (suc left) commits.old at bytes.now)) }
    ensures end { IfOk result (λ end. (at ≤ end) × (end ≤ length bytes.now)) }
{
    let (name, behind) = name_at(bytes, at)?;
    if !is_above_last_commit(commits.as_slice(), &name) {
        return Err(WireFault::Order(at as u64));
    }
    let (deps, end) = deps_at(bytes, behind)?;
    commits.push_copy(&(name, deps))?;
    Ok(end)
}

/// The commits at a place, and the place after them.
pub fn commits_at(alloc: Global, bytes: &[u8], at: usize) -> Result<(Commits, usize), WireFault>
    requires { at ≤ length bytes.now }
    ensures read { IfOk result (λ read. commits_at at bytes.now ≡ Ok read) }
    ensures refused { IfErr result (λ fault. Refuses fault (commits_at at bytes.now)) }
    ensures rising { IfOk result (λ read. Rising (map (λ c. c.0) read.0)) }
    ensures end { IfOk result (λ read. (at ≤ read.1) × (read.1 ≤ length bytes.now)) }
{
    let (mut left, mut at) = number_at(bytes, at)?;
    let mut commits = Commits::new(alloc);
    while left > 0 {
        at = take_commit(bytes, at, &mut commits)?;
        left -= 1;
    }
    Ok((commits, at))
}
