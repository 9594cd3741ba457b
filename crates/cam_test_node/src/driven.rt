//! A node that is driven by lines. One function alone owns it, since what a function does with a node of its own is long to prove.
ghost use Rattle.std.specs.Prelude.{◌≡◌};
ghost use Rattle.cam_type.specs.declared.Kind.TheVariants as kinds;

use crate::inputs::Line;
use crate::words::{event_text, letter_text};
use cam_base::NoMemory;
use cam_ckpt::{CheckpointLog, Ckpt};
use cam_disk::{Disk, MemoryDisk, StopDisk};
use cam_event::{Event, Letter, LineRefusal, Sent};
use cam_node::{Found, Input, Node, NodeFault, Restarted, Stepped};
use cam_type::{CounterServer, DataType, ObjectDecl, Objects, QueueServer, RegisterServer, State};
use std::alloc::Global;
use std::fmt::Write;
use std::test::Fail;

/// What came of an input.
#[derive(Drop)]
pub(crate) enum Reaction {
    Stepped(Stepped),
    Fault(NodeFault),
    /// Nothing was put to it: this stands against it.
    Refused(Refusal),
}

/// Why an input was not put to a node.
#[derive(Clone, Copy)]
pub(crate) enum Refusal {
    /// The node refuses it.
    Line(LineRefusal),
    /// `may_step` is false of it.
    MayNotStep,
}

/// Takes the rows of a table in order, at node 1 over a disk that can be stopped, to which nothing has happened. Object 0 is a register at node 1,
/// which begins with 5, and object 1 is a counter at node 2. It fails at the first row that does not come to what stands after its bar, and tells
/// what it comes to.
pub(crate) fn check_rows(alloc: Global, table: &str) -> Result<(), Fail> {
    let objects = two_objects(alloc)?;
    check_rows_over(alloc, objects, MemoryDisk::new(alloc), table)
}

/// The same over this disk, of a node with these objects.
fn check_rows_over<D: Disk>(
    alloc: Global,
    objects: Objects,
    disk: D,
    table: &str,
) -> Result<(), Fail> {
    match Node::format(alloc, 1, objects, StopDisk::new(disk)) {
        Ok(mut node) => check_table(alloc, &mut node, table),
        Err(refused) => Err(refused.fault.into()),
    }
}

/// Takes the rows of a table in order, and fails at the first that does not come to what stands after its bar.
fn check_table<D: Disk>(
    alloc: Global,
    node: &mut Node<Ckpt<StopDisk<D>>>,
    table: &str,
) -> Result<(), Fail> {
    for row in table.lines() {
        check_row(alloc, node, table, row)?;
    }
    Ok(())
}

/// Fails where the row of a table has no bar, and where it does not come to what stands after that.
fn check_row<D: Disk>(
    alloc: Global,
    node: &mut Node<Ckpt<StopDisk<D>>>,
    table: &str,
    row: &str,
) -> Result<(), Fail> {
    let Some((line, want)) = row.split_once(" | ") else {
        return Err(Fail::new("a row has no bar"));
    };
    let told = take(alloc, node, line)?;
    check_told(table, line, &told, want)
}

/// Fails where the line of a table does not come to this, and tells what it comes to, and of which table it is.
pub(crate) fn check_told(table: &str, line: &str, told: &str, want: &str) -> Result<(), Fail> {
    if told == want {
        return Ok(());
    }
    Err(Fail::new(format_args!("{line} | {told}, in place of {want}, in the table: {table}")))
}

/// What a line comes to, in words.
fn take<D: Disk>(
    alloc: Global,
    node: &mut Node<Ckpt<StopDisk<D>>>,
    line: &str,
) -> Result<String, Fail> {
    match Line::read(alloc, line)? {
        Line::Stop(calls) => stopped(alloc, node, calls),
        Line::Clear => cleared(alloc, node),
        Line::Restart => restarted(alloc, node),
        Line::Told(to) => told(alloc, node, to),
        Line::Put(input) => stepped(alloc, node, &input),
    }
}

/// The disk does this many calls more.
fn stopped<D: Disk>(
    alloc: Global,
    node: &mut Node<Ckpt<StopDisk<D>>>,
    calls: u32,
) -> Result<String, Fail> {
    node.stop_after(calls);
    owned(alloc, "stopped")
}

/// The disk goes on.
fn cleared<D: Disk>(alloc: Global, node: &mut Node<Ckpt<StopDisk<D>>>) -> Result<String, Fail> {
    node.clear();
    owned(alloc, "cleared")
}

/// These words, as they stand.
pub(crate) fn owned(alloc: Global, text: &str) -> Result<String, Fail> {
    Ok(String::from_str(alloc, text)?)
}

/// The two objects.
pub(crate) fn two_objects(alloc: Global) -> Result<Objects, NoMemory> {
    let mut objects = Objects::new(alloc);
    objects.push(ObjectDecl {
        node: 1,
        start: State::Register(5),
    })?;
    objects.push(ObjectDecl {
        node: 2,
        start: State::Counter(0),
    })?;
    Ok(objects)
}

/// Puts an input to a node, where nothing stands against it.
fn put<L: CheckpointLog>(alloc: Global, node: &mut Node<L>, input: &Input) -> Reaction {
    put_with(alloc, node, input, &mut RegisterServer::new())
}

/// The same with this server of registers.
pub(crate) fn put_with<L: CheckpointLog, R: DataType>(
    alloc: Global,
    node: &mut Node<L>,
    input: &Input,
    register: &mut R,
) -> Reaction
    requires { R.kind register.old ≡ kinds.Register }
    ensures { R.kind register.new ≡ R.kind register.old }
{
    if let Some(refusal) = node.refusal(input) {
        return Reaction::Refused(Refusal::Line(refusal));
    }
    if !node.may_step(input) {
        return Reaction::Refused(Refusal::MayNotStep);
    }
    let mut queue = QueueServer::new(alloc);
    let mut counter = CounterServer::new();
    match node.step(input, register, &mut queue, &mut counter) {
        Ok(stepped) => Reaction::Stepped(stepped),
        Err(fault) => Reaction::Fault(fault),
    }
}

/// What an input comes to at a node.
fn stepped<L: CheckpointLog>(
    alloc: Global,
    node: &mut Node<L>,
    input: &Input,
) -> Result<String, Fail> {
    match put(alloc, node, input) {
        Reaction::Stepped(stepped) => stepped_text(alloc, &stepped),
        Reaction::Fault(fault) => fault_text(alloc, fault, node.is_halted()),
        Reaction::Refused(refusal) => refusal_text(alloc, refusal),
    }
}

/// What a restart of a node comes to.
fn restarted<L: CheckpointLog>(alloc: Global, node: &mut Node<L>) -> Result<String, Fail> {
    match node.restart() {
        Ok(restarted) => restarted_text(alloc, &restarted),
        Err(fault) => fault_text(alloc, fault, node.is_halted()),
    }
}

/// The event of a restart, and after it what was found: the event of the halt, as the log has it, and how many restarts that failed had
/// reached the log. What has nothing to tell is left out.
fn restarted_text(alloc: Global, restarted: &Restarted) -> Result<String, Fail> {
    let mut text = stepped_text(alloc, &restarted.stepped)?;
    tell_found(alloc, &mut text, &restarted.found)?;
    Ok(text)
}

/// Adds what was found to the text.
fn tell_found(alloc: Global, text: &mut String, found: &Found) -> Result<(), Fail> {
    if let Some(event) = &found.event {
        tell_found_event(alloc, text, event)?;
    }
    if found.restarts > 0 {
        write!(text, "; restarts before {}", found.restarts)?;
    }
    Ok(())
}

/// Adds the event of the halt, which is one of node 1, to the text.
fn tell_found_event(alloc: Global, text: &mut String, event: &Event) -> Result<(), Fail> {
    if event.node != 1 {
        return Err(Fail::new("an event of another node was found"));
    }
    text.push_str("; found ")?;
    text.push_str(&event_text(alloc, event)?)?;
    Ok(())
}

/// The letter by which a node tells another what it knows.
fn told<L: CheckpointLog>(alloc: Global, node: &mut Node<L>, to: u8) -> Result<String, Fail> {
    match put(alloc, node, &Input::Tell(to)) {
        Reaction::Stepped(stepped) => first_letter_text(alloc, &stepped),
        Reaction::Fault(fault) => fault_text(alloc, fault, node.is_halted()),
        Reaction::Refused(refusal) => refusal_text(alloc, refusal),
    }
}

/// The letter that was sent first.
fn first_letter_text(alloc: Global, stepped: &Stepped) -> Result<String, Fail> {
    match stepped.letters.get(0) {
        Some(letter) => Ok(letter_text(alloc, letter)?),
        None => Err(Fail::new("no letter was sent")),
    }
}

/// An event of node 1, whose letters are those that it says.
pub(crate) fn stepped_text(alloc: Global, stepped: &Stepped) -> Result<String, Fail> {
    if stepped.event.node != 1 || !are_of_event(stepped) {
        return Err(Fail::new("letters of another event, or of another node"));
    }
    Ok(event_text(alloc, &stepped.event)?)
}

/// What stands against an input.
pub(crate) fn refusal_text(alloc: Global, refusal: Refusal) -> Result<String, Fail> {
    match refusal {
        Refusal::Line(refusal) => Ok(format!(in alloc; "refused {refusal:?}")?),
        Refusal::MayNotStep => owned(alloc, "may not be put to a node"),
    }
}

pub(crate) fn fault_text(alloc: Global, fault: NodeFault, is_halted: bool) -> Result<String, Fail> {
    match fault {
        NodeFault::DiskFault if is_halted => owned(alloc, "disk fault, halted"),
        NodeFault::DiskFault => owned(alloc, "disk fault"),
        NodeFault::NoMemory => Err(fault.into()),
    }
}

/// Whether the letters are those that the event sent, in order, from node 1.
fn are_of_event(stepped: &Stepped) -> bool {
    let mut letters = stepped.letters.as_slice().iter();
    for sent in stepped.event.sent.as_slice() {
        match letters.next() {
            Some(letter) if is_sent(letter, sent) => {}
            _ => return false,
        }
    }
    letters.next().is_none()
}

/// Whether a letter is the one that was sent, from node 1.
fn is_sent(letter: &Letter, sent: &Sent) -> bool {
    letter.from == 1 && letter.to == sent.to && letter.body == sent.body
}
