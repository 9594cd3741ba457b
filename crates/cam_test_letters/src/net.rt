// The network: letters put, handed out, lost and delivered.
ghost use Rattle.std.specs.Prelude.{◌≤◌};
ghost use Rattle.cam_wire.specs.Writable.{IsWritable};

use crate::check::{holds, same};
use cam_base::NoMemory;
use cam_event::{Body, Letter};
use cam_know::Know;
use cam_net::Net;
use std::alloc::Global;
use std::test::Fail;

/// News from node 1 at count 1 to node 3, with nothing known.
const NEWS: [u8; 33] = [
    2, 1, 0, 0, 0, 1, 3, 0, 0, 0, 0, 0, 0, 0, 0, 0, 0, 0, 0, 0, 0, 0, 0, 0, 0, 0, 0, 0, 0, 0, 0, 0,
    9,
];

/// News from node 1 at count 1 to a node, with nothing known.
fn news(alloc: Global, to: u8) -> Letter
    requires { (1 ≤ to) × (to ≤ 8) }
    ensures { IsWritable result }
{
    Letter {
        from: 1,
        count: 1,
        to,
        have: 0,
        place: 0,
        know: Know::new(alloc),
        body: Body::News,
    }
}

/// Puts news for a node, and returns the number of the letter.
fn put(alloc: Global, net: &mut Net, to: u8) -> Result<u32, NoMemory>
    requires { (1 ≤ to) × (to ≤ 8) }
{
    let letter = news(alloc, to);
    net.put(&letter)
}

/// What is done to a network: a letter is put for a node, or the letter of a number is lost or delivered.
#[derive(Clone, Copy, Debug, PartialEq, Eq)]
enum Line {
    Put(u8),
    Lose(u32),
    Deliver(u32),
}

use Line::{Deliver, Lose, Put};

/// What is seen of a network where a line is done: the number of the letter that is put, whether one is lost, or
/// nothing where one is delivered.
#[derive(Clone, Copy, Debug, PartialEq, Eq)]
enum Done {
    Number(u32),
    Lost(bool),
    Delivered,
}

use Done::{Delivered, Lost, Number};

/// A line and what is done by it, then what is next where no node is halted, and where node 2 is.
type Row = (Line, Done, Option<u32>, Option<u32>);

const ROWS: [Row; 14] = [
    (Lose(1), Lost(false), None, None),
    (Deliver(1), Delivered, None, None),
    (Put(2), Number(1), Some(1), None),
    (Put(8), Number(2), Some(1), Some(2)),
    (Put(2), Number(3), Some(1), Some(2)),
    (Put(1), Number(4), Some(1), Some(2)),
    (Deliver(2), Delivered, Some(1), Some(4)),
    (Lose(1), Lost(true), Some(3), Some(4)),
    (Lose(1), Lost(false), Some(3), Some(4)),
    (Lose(0), Lost(false), Some(3), Some(4)),
    (Deliver(5), Delivered, Some(3), Some(4)),
    (Lose(4), Lost(true), Some(3), None),
    (Deliver(3), Delivered, None, None),
    (Lose(3), Lost(true), None, None),
];

/// Does what a line says, and returns what is done by it.
fn play(alloc: Global, net: &mut Net, line: Line) -> Result<Done, Fail> {
    match line {
        Put(to) if 1 <= to && to <= 8 => Ok(Number(put(alloc, net, to)?)),
        Put(_) => Err("no node".into()),
        Lose(number) => Ok(Lost(net.lose(number))),
        Deliver(number) => {
            net.delivered(number);
            Ok(Delivered)
        }
    }
}

/// The row of a line that is done now.
fn row_of(alloc: Global, net: &mut Net, line: Line) -> Result<Row, Fail> {
    let done = play(alloc, net, line)?;
    Ok((line, done, net.next(&[]), net.next(&[false, true])))
}

#[test]
fn the_least_letter_that_may_go_is_next(rt: HostRuntime) -> Result<(), Fail> {
    let mut net = Net::new(rt.alloc());
    for row in ROWS {
        same(&rt, row_of(rt.alloc(), &mut net, row.0)?, row);
    }
    Ok(())
}

/// A network with a letter for node 2, and one for node 3, which was delivered.
fn two_letters(alloc: Global) -> Result<Net, NoMemory> {
    let mut net = Net::new(alloc);
    put(alloc, &mut net, 2)?;
    put(alloc, &mut net, 3)?;
    net.delivered(2);
    Ok(net)
}

#[test]
fn a_letter_that_is_delivered_is_handed_out(rt: HostRuntime) -> Result<(), Fail> {
    let net = two_letters(rt.alloc())?;
    for (asked, given) in [(0, 0), (6, 6), (32, 32), (33, 33), (34, 33)] {
        same(&rt, (asked, net.cut(2, asked)), (asked, NEWS.get(..given)));
    }
    same(&rt, net.whole(2), Some(NEWS.as_slice()));
    Ok(())
}

/// How many bytes a letter has.
fn whole_length(net: &Net, number: u32) -> Option<usize> {
    Some(net.whole(number)?.len())
}

/// How many bytes are handed out where one byte of a letter is asked for.
fn cut_length(net: &Net, number: u32) -> Option<usize> {
    Some(net.cut(number, 1)?.len())
}

#[test]
fn a_letter_that_is_lost_is_not_handed_out(rt: HostRuntime) -> Result<(), Fail> {
    let mut net = two_letters(rt.alloc())?;
    holds(&rt, net.lose(2));
    for number in [0, 2, 3] {
        same(&rt, (number, whole_length(&net, number)), (number, None));
        same(&rt, (number, cut_length(&net, number)), (number, None));
    }
    same(&rt, whole_length(&net, 1), Some(33));
    Ok(())
}
