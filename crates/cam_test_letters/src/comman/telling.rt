// What two nodes tell each other in turn.
ghost use Rattle.std.specs.Prelude.{◌≡◌, ◌≤◌, OnOk};
ghost use Rattle.cam_comman.specs.Letters.{IsWithin};
ghost use Rattle.cam_bytes.specs.Ranges.{IsNumber};

use super::{Load, Node, bring, letter_of, load_of, node_of, second_node};
use crate::check::same;
use cam_base::NoMemory;
use cam_know::Outcome;
use cam_names::Name;
use cam_wire::{decode, encode};
use std::alloc::Global;
use std::test::Fail;

/// Tells a node the news of another, and returns the load of the letter, and how many outcomes are news there.
fn tell(from: &Node, to: &mut Node) -> Result<(Load, u64), NoMemory>
    requires from { (1 ≤ from.now.number) × (from.now.number ≤ 8) }
    requires to { (1 ≤ to.old.number) × (to.old.number ≤ 8) }
    requires teller { IsWithin from.now.know from.now.places }
    requires told { IsWithin to.old.know to.old.places }
    ensures within { OnOk result (IsWithin to.new.know to.new.places) }
    ensures number { to.new.number ≡ to.old.number }
    ensures count { to.new.count ≡ to.old.count }
{
    let letter = letter_of(from, to.number)?;
    let news = bring(to, &letter)?;
    Ok((load_of(&letter), news))
}

/// Node 2 tells node 1 twice what it knows, and is told what it knows itself. Returns of each letter its load, and how
/// many outcomes are news.
fn exchange(sender: &mut Node, receiver: &mut Node) -> Result<[(Load, u64); 3], NoMemory>
    requires sender { sender.old.number ≡ 2 }
    requires receiver { receiver.old.number ≡ 1 }
    requires sends { IsWithin sender.old.know sender.old.places }
    requires receives { IsWithin receiver.old.know receiver.old.places }
    ensures sent { OnOk result (IsWithin sender.new.know sender.new.places) }
    ensures received { OnOk result (IsWithin receiver.new.know receiver.new.places) }
{
    let first = tell(sender, receiver)?;
    let second = tell(sender, receiver)?;
    let back = tell(receiver, sender)?;
    Ok([first, second, back])
}

/// The load of a letter of a node to node 1, and the count of node 2 that it tells.
fn told_to_first(from: &Node) -> Result<(Load, u32), NoMemory>
    requires { IsWithin from.now.know from.now.places }
{
    let letter = letter_of(from, 1)?;
    Ok((load_of(&letter), letter.know.count(2)))
}

/// After an exchange, what node 2 tells node 1 has no outcomes, nor has what node 1 tells itself, which has no places.
#[test]
fn what_is_acknowledged_is_not_told_again(rt: HostRuntime) -> Result<(), Fail> {
    let mut sender = second_node(rt.alloc())?;
    let mut receiver = node_of(rt.alloc(), 1, 2, &[])?;
    let letters = exchange(&mut sender, &mut receiver)?;
    let wanted = [((0, 2, 2), 2), ((0, 2, 2), 0), ((2, 2, 2), 0)];
    same(&rt, letters, wanted);
    same(&rt, told_to_first(&sender)?.0, (2, 2, 0));
    same(&rt, told_to_first(&receiver)?, ((0, 0, 0), 3));
    Ok(())
}

/// News of a node to another, as bytes.
fn bytes_of(alloc: Global, from: &Node, to: u8) -> Result<Vec<u8>, NoMemory>
    requires from { (1 ≤ from.now.number) × (from.now.number ≤ 8) }
    requires count { IsNumber from.now.count }
    requires to { (1 ≤ to) × (to ≤ 8) }
    requires within { IsWithin from.now.know from.now.places }
{
    let letter = letter_of(from, to)?;
    encode(alloc, &letter)
}

/// Tells a node the news of another in bytes, and returns how many bytes they are, and how many outcomes are news
/// there.
fn tell_in_bytes(alloc: Global, from: &Node, to: &mut Node) -> Result<(usize, u64), Fail>
    requires from { (1 ≤ from.now.number) × (from.now.number ≤ 8) }
    requires count { IsNumber from.now.count }
    requires to { (1 ≤ to.old.number) × (to.old.number ≤ 8) }
    requires teller { IsWithin from.now.know from.now.places }
    requires told { IsWithin to.old.know to.old.places }
    ensures within { OnOk result (IsWithin to.new.know to.new.places) }
    ensures number { to.new.number ≡ to.old.number }
    ensures count { to.new.count ≡ to.old.count }
{
    let bytes = bytes_of(alloc, from, to.number)?;
    let letter = decode(alloc, bytes.as_slice())?;
    Ok((bytes.len(), bring(to, &letter)?))
}

/// Node 1 tells node 2, which tells node 1. Returns of each letter how many bytes it has, and how many outcomes are
/// news; and how many bytes the next letter of node 1 has.
fn exchange_in_bytes(
    alloc: Global,
    one: &mut Node,
    two: &mut Node,
) -> Result<((usize, u64), (usize, u64), usize), Fail>
    requires one { (one.old.number ≡ 1) × (one.old.count ≡ 1) }
    requires two { (two.old.number ≡ 2) × (two.old.count ≡ 1) }
    requires one_within { IsWithin one.old.know one.old.places }
    requires two_within { IsWithin two.old.know two.old.places }
{
    let there = tell_in_bytes(alloc, one, two)?;
    let back = tell_in_bytes(alloc, two, one)?;
    let next = bytes_of(alloc, one, 2)?;
    Ok((there, back, next.len()))
}

/// Node 1 knows that a child of 1.1.1 aborted, and tells node 2, which tells node 1, which tells node 2 again. The
/// abort of a name of two parts takes 19 of the bytes, and goes on its way until it is acknowledged.
#[test]
fn what_is_acknowledged_makes_letters_short(rt: HostRuntime) -> Result<(), Fail> {
    let alloc = rt.alloc();
    let aborted = Outcome::Aborted(Name::parse("1.1.1/1.1.1")?);
    let mut one = node_of(alloc, 1, 1, &[aborted])?;
    let mut two = node_of(alloc, 2, 1, &[])?;
    let seen = exchange_in_bytes(alloc, &mut one, &mut two)?;
    same(&rt, seen, ((52, 1), (52, 0), 33));
    Ok(())
}
