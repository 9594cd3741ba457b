// What is known, and what is answered by it.
use crate::check::same;
use cam_base::{NoMemory, Sequence};
use cam_know::{Know, Outcome};
use cam_names::{Deps, Name, NameFault, Part};
use std::alloc::Global;
use std::test::Fail;

/// A top action, a child of it, and a child of that.
#[derive(Clone, Copy)]
struct Family {
    top: Name,
    middle: Name,
    low: Name,
}

/// 1.1.1 with a child at node 2, and its child at node 3.
fn three_generations() -> Result<Family, NameFault> {
    Ok(Family {
        top: Name::parse("1.1.1")?,
        middle: Name::parse("1.1.1/2.1.1")?,
        low: Name::parse("1.1.1/2.1.1/3.1.1")?,
    })
}

/// What is known where an action committed with two dependency sets, the first told twice, and node 3 was seen at count
/// 2, then at 1.
fn committed_twice(alloc: Global, name: Name) -> Result<Know, NoMemory> {
    let older = Outcome::Committed(name, Deps::none().with(3, 1).with(2, 4));
    let newer = Outcome::Committed(name, Deps::none().with(3, 2));
    let mut know = Know::new(alloc);
    know.add(&older)?;
    know.add(&newer)?;
    know.add(&older)?;
    know.raise(3, 2);
    know.raise(3, 1);
    Ok(know)
}

#[test]
fn what_is_learnt_is_known(rt: HostRuntime) -> Result<(), Fail> {
    let Family { middle, low, .. } = three_generations()?;
    let know = committed_twice(rt.alloc(), low)?;
    same(&rt, (know.len(), know.outcomes().len()), (2, 2));
    same(&rt, (know.count(2), know.count(3)), (1, 2));
    let committed = (know.is_committed(&low), know.is_committed(&middle));
    same(&rt, committed, (true, false));
    let above = (know.lift(&low), know.aborted_by(&low));
    same(&rt, above, (Some(middle), None));
    let oldest = know.oldest(&middle);
    same(&rt, (oldest.count_of(2), oldest.count_of(3)), (4, 1));
    Ok(())
}

/// What another node knows: what this one does, and that these two actions aborted.
fn known_elsewhere(alloc: Global, know: &Know, aborted: [Name; 2]) -> Result<Know, NoMemory> {
    let mut other = Know::new(alloc);
    other.join(know)?;
    for name in aborted {
        other.add(&Outcome::Aborted(name))?;
    }
    Ok(other)
}

#[test]
fn news_have_what_is_not_known_and_the_greater_counts(rt: HostRuntime) -> Result<(), Fail> {
    let Family { top, middle, low } = three_generations()?;
    let aborted = [Outcome::Aborted(top), Outcome::Aborted(middle)];
    let know = committed_twice(rt.alloc(), low)?;
    let other = known_elsewhere(rt.alloc(), &know, [middle, top])?;
    let news = know.news_of(&other)?;
    same(&rt, news.outcomes(), aborted.as_slice());
    same(&rt, news.counts(), [1, 1, 2, 1, 1, 1, 1, 1]);
    Ok(())
}

#[test]
fn what_is_known_elsewhere_is_not_known_here(rt: HostRuntime) -> Result<(), Fail> {
    let Family { top, middle, low } = three_generations()?;
    let know = committed_twice(rt.alloc(), low)?;
    let other = known_elsewhere(rt.alloc(), &know, [middle, top])?;
    let there = (other.aborted_by(&low), other.is_aborted(&top));
    same(&rt, there, (Some(top), true));
    let here = (know.aborted_by(&low), know.is_aborted(&top));
    same(&rt, here, (None, false));
    Ok(())
}

/// What is known where an action committed, and a join brought that its ancestors aborted.
fn joined(alloc: Global, family: Family) -> Result<Know, NoMemory> {
    let Family { top, middle, low } = family;
    let mut know = committed_twice(alloc, low)?;
    let other = known_elsewhere(alloc, &know, [middle, top])?;
    know.join(&other)?;
    Ok(know)
}

/// Learns that these actions committed, with no dependencies.
fn commit(know: &mut Know, names: [Name; 2]) -> Result<(), NoMemory> {
    for name in names {
        know.add(&Outcome::Committed(name, Deps::none()))?;
    }
    Ok(())
}

/// The ancestors of a committed action have aborted, as is learnt by a join. Then they commit, and lift it past the
/// top.
#[test]
fn a_join_brings_what_is_not_known(rt: HostRuntime) -> Result<(), Fail> {
    let family = three_generations()?;
    let Family { top, middle, low } = family;
    let mut know = joined(rt.alloc(), family)?;
    same(&rt, (know.len(), know.aborted_by(&low)), (4, Some(top)));
    commit(&mut know, [middle, top])?;
    same(&rt, know.lift(&low), None);
    Ok(())
}

/// What is known where the first fifty children of an action commit, and each second one also aborts.
fn known_of_fifty(alloc: Global, top: &Name) -> Result<Know, NoMemory> {
    let mut know = Know::new(alloc);
    for number in 1..51 {
        let Some(child) = child(top, number) else {
            continue;
        };
        know.add(&Outcome::Committed(child, Deps::none().with(2, number)))?;
        if number % 2 == 0 {
            know.add(&Outcome::Aborted(child))?;
        }
    }
    Ok(know)
}

/// What is known where this was learnt by two joins.
fn joined_twice(alloc: Global, know: &Know) -> Result<Know, NoMemory> {
    let mut other = Know::new(alloc);
    other.join(know)?;
    other.join(know)?;
    Ok(other)
}

/// How many outcomes are known, how many once they are learnt by two joins, and how many of those are news then.
fn joined_counts(alloc: Global, know: &Know) -> Result<(u64, u64, u64), NoMemory> {
    let other = joined_twice(alloc, know)?;
    let news = know.news_of(&other)?;
    Ok((know.len(), other.len(), news.len()))
}

/// The children of one action commit and abort in turn. What is known of all of them is learnt by a join; a second
/// brings nothing.
#[test]
fn many_outcomes_are_joined(rt: HostRuntime) -> Result<(), Fail> {
    let top = Name::parse("1.1.1")?;
    let know = known_of_fifty(rt.alloc(), &top)?;
    same(&rt, joined_counts(rt.alloc(), &know)?, (75, 75, 0));
    Ok(())
}

/// What is learnt by two joins where the first fifty children of an action commit, and each second one also aborts.
fn joined_of_fifty(alloc: Global, top: &Name) -> Result<Know, NoMemory> {
    let know = known_of_fifty(alloc, top)?;
    joined_twice(alloc, &know)
}

#[test]
fn each_of_many_outcomes_is_known_by_a_join(rt: HostRuntime) -> Result<(), Fail> {
    let top = Name::parse("1.1.1")?;
    let odd = Name::parse("1.1.1/2.1.49")?;
    let last = Name::parse("1.1.1/2.1.50")?;
    let know = joined_of_fifty(rt.alloc(), &top)?;
    let aborted = (know.is_aborted(&odd), know.is_aborted(&last));
    same(
        &rt,
        (know.is_committed(&odd), aborted),
        (true, (false, true)),
    );
    same(&rt, know.oldest(&top).count_of(2), 1);
    Ok(())
}

/// A child of an action.
fn child(top: &Name, number: u32) -> Option<Name> {
    top.child(Part::new(2, 1, number)?)
}

/// The aborts of forty children of an action, then their commits, each from the first child to the last.
fn outcomes_of_forty(alloc: Global, top: &Name) -> Result<Sequence<Outcome>, NoMemory> {
    let mut outcomes = Sequence::new(alloc);
    for number in 1..41 {
        if let Some(child) = child(top, number) {
            outcomes.push_copy(&Outcome::Aborted(child))?;
        }
    }
    for number in 1..41 {
        if let Some(child) = child(top, number) {
            outcomes.push_copy(&Outcome::Committed(child, Deps::none()))?;
        }
    }
    Ok(outcomes)
}

/// What is known where these outcomes are told from the last to the first.
fn told_from_the_last(alloc: Global, outcomes: &[Outcome]) -> Result<Know, NoMemory> {
    let mut told = Know::new(alloc);
    for place in (0..outcomes.len()).rev() {
        told.add(&outcomes[place])?;
    }
    Ok(told)
}

/// Forty children each abort and commit, and are told from the last to the first. The aborts are learnt first, then the
/// commits, each from the first child to the last.
#[test]
fn what_is_told_in_any_order_is_learnt_in_one(rt: HostRuntime) -> Result<(), Fail> {
    let alloc = rt.alloc();
    let top = Name::parse("1.1.1")?;
    let learnt = outcomes_of_forty(alloc, &top)?;
    let news = {
        let told = told_from_the_last(alloc, learnt.as_slice())?;
        Know::new(alloc).news_of(&told)?
    };
    same(&rt, news.len(), 80);
    same(&rt, news.outcomes(), learnt.as_slice());
    Ok(())
}

/// What is known where this action aborted and committed with two dependency sets, and all is learnt at once.
fn known_at_once(alloc: Global, name: Name) -> Result<Know, NoMemory> {
    let mut outcomes = Sequence::new(alloc);
    outcomes.push_copy(&Outcome::Aborted(name))?;
    outcomes.push_copy(&Outcome::Committed(name, Deps::none().with(2, 7)))?;
    outcomes.push_copy(&Outcome::Committed(name, Deps::none().with(2, 5)))?;
    Know::of(alloc, outcomes, [1, 9, 1, 1, 1, 1, 1, 1])
}

#[test]
fn outcomes_are_known_at_once(rt: HostRuntime) -> Result<(), Fail> {
    let top = Name::parse("1.1.1")?;
    let child = Name::parse("1.1.1/2.1.1")?;
    let know = known_at_once(rt.alloc(), child)?;
    same(&rt, (know.len(), know.count(2)), (3, 9));
    let ended = (know.is_aborted(&child), know.is_committed(&child));
    same(&rt, ended, (true, true));
    same(&rt, know.oldest(&top).count_of(2), 5);
    Ok(())
}
