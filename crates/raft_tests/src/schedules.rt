//! A cluster that is led along a schedule, and shown as text.
ghost use Rattle.std.specs.Prelude.{◌≡◌, ◌≤◌, false, OnOk, IfOk};

use ax_types::{Body, End, Entry, Item, List, NoMemory, NodeId, NodeInput, RaftStep};
use raft_world::RaftWorld;
use std::alloc::Global;
use std::process::Abort;
use std::test::Fail;

/// What happens next, at nodes by number.
#[derive(Clone, Copy)]
pub enum Do {
    Elect(u8),
    Beat(u8),
    /// A leader appends so many entries, told apart by numbers from one on.
    Append(u8, u64, u64),
    /// Each packet that waits from one node to another is delivered, once.
    Pass(u8, u8),
    /// Packets are delivered until none waits that nothing hinders.
    Flush,
    Crash(u8),
    Start(u8),
    /// The store of a node fails at its election after so many saves.
    HaltElect(u8, u64),
    /// The store of a leader fails after so many saves of an append, with so many entries of it left.
    HaltAppend(u8, u64, u64, u64, u64),
    /// The store of a node fails at the last packet that waits from another to it.
    HaltPass(u8, u8, u64, u64),
}

fn node(number: u8) -> Result<NodeId, Fail> {
    Ok(NodeId::new(number).ok_or("no node")?)
}

/// An input is made.
fn make(world: &mut RaftWorld, input: NodeInput) -> Result<(), Fail>
    requires { world.old.is_spent ≡ false }
    ensures { OnOk result (world.new.is_spent ≡ false) }
{
    world.step(&RaftStep::Made { input })?;
    Ok(())
}

/// A node's store fails at an input, after so many saves and with so many entries of the next one left.
fn halt(world: &mut RaftWorld, input: NodeInput, saved: u64, added: u64) -> Result<(), Fail>
    requires { world.old.is_spent ≡ false }
    ensures { OnOk result (world.new.is_spent ≡ false) }
{
    world.step(&RaftStep::Halt {
        input,
        saved,
        added,
    })?;
    Ok(())
}

/// Entries told apart by numbers.
fn appended(alloc: Global, number: u8, first: u64, count: u64) -> Result<NodeInput, Fail> {
    let mut bodies = List::new(alloc);
    'bodies: for i in 0..count {
        bodies.push(Body::Expire {
            session: first.saturating_add(i),
        })?;
    }
    Ok(NodeInput::Append {
        node: node(number)?,
        clock: 0,
        bodies,
    })
}

/// The numbers of the packets that wait from one node to another.
fn waiting(alloc: Global, world: &RaftWorld, from: u8, to: u8) -> Result<Vec<u64>, Fail> {
    let ends = (End::Node(node(from)?), End::Node(node(to)?));
    let mut numbers = Vec::new(alloc);
    let (_, items) = world.pending()?;
    'items: for item in items.iter() {
        if let Item::Pending {
            number,
            from,
            to,
            ..
        } = item
            && (*from, *to) == ends
        {
            numbers.push(*number)?;
        }
    }
    Ok(numbers)
}

/// Packets are delivered.
fn deliver(world: &mut RaftWorld, numbers: &[u64]) -> Result<(), Fail>
    requires { world.old.is_spent ≡ false }
    ensures { OnOk result (world.new.is_spent ≡ false) }
{
    'numbers: for number in numbers {
        let number = *number;
        make(world, NodeInput::Deliver { number, clock: 0 })?;
    }
    Ok(())
}

/// Packets are delivered until none waits that nothing hinders, up to a thousand.
fn flush(world: &mut RaftWorld) -> Result<(), Fail>
    requires { world.old.is_spent ≡ false }
    ensures { OnOk result (world.new.is_spent ≡ false) }
{
    'packets: for _ in 0..1_000_u64 {
        let Some(number) = world.next_packet() else {
            return Ok(());
        };
        make(world, NodeInput::Deliver { number, clock: 0 })?;
    }
    Ok(())
}

/// What a node is asked by its number.
fn election(number: u8) -> Result<NodeInput, Fail> {
    let node = node(number)?;
    Ok(NodeInput::Elect { node, clock: 0 })
}

fn round(number: u8) -> Result<NodeInput, Fail> {
    let node = node(number)?;
    Ok(NodeInput::Beat { node })
}

fn crash(number: u8) -> Result<NodeInput, Fail> {
    let node = node(number)?;
    Ok(NodeInput::Crash { node })
}

fn start(number: u8) -> Result<NodeInput, Fail> {
    let node = node(number)?;
    Ok(NodeInput::Start { node })
}

/// The last packet that waits from one node to another is delivered.
fn last_delivery(alloc: Global, world: &RaftWorld, from: u8, to: u8) -> Result<NodeInput, Fail> {
    let number = *waiting(alloc, world, from, to)?.last().ok_or("no packet")?;
    Ok(NodeInput::Deliver { number, clock: 0 })
}

/// One thing happens.
fn happen(alloc: Global, world: &mut RaftWorld, next: Do) -> Result<(), Fail>
    requires { world.old.is_spent ≡ false }
    ensures { OnOk result (world.new.is_spent ≡ false) }
{
    match next {
        Do::Elect(number) => make(world, election(number)?),
        Do::Beat(number) => make(world, round(number)?),
        Do::Append(number, first, count) => make(world, appended(alloc, number, first, count)?),
        Do::Pass(from, to) => {
            let numbers = waiting(alloc, world, from, to)?;
            deliver(world, &numbers)
        }
        Do::Flush => flush(world),
        Do::Crash(number) => make(world, crash(number)?),
        Do::Start(number) => make(world, start(number)?),
        Do::HaltElect(number, saved) => halt(world, election(number)?, saved, 0),
        Do::HaltAppend(number, first, count, saved, added) => {
            halt(world, appended(alloc, number, first, count)?, saved, added)
        }
        Do::HaltPass(from, to, saved, added) => {
            halt(world, last_delivery(alloc, world, from, to)?, saved, added)
        }
    }
}

/// The number by which an entry is told apart, 0 for a blank one.
fn number_of(entry: &Entry) -> u64 {
    match &entry.body {
        Body::Expire { session } => *session,
        _ => 0,
    }
}

/// Which nodes lead which terms, and each committed entry as its term and its number.
fn shown(alloc: Global, world: &RaftWorld) -> Result<String, Fail> {
    let mut text = String::new(alloc);
    'nodes: for number in 1..6_u8 {
        if let Some(term) = world.leads(node(number)?) {
            write!(text, "{number} leads {term}, ")?;
        }
    }
    'entries: for entry in world.committed().iter() {
        let term = entry.term;
        let number = number_of(entry);
        write!(text, "{term}.{number} ")?;
    }
    Ok(text)
}

/// Goes through a schedule, and compares what is led and committed after each row.
pub fn walk(
    rt: &impl Abort,
    alloc: Global,
    nodes: u8,
    rows: &[(Do, &'static str)],
) -> Result<(), Fail>
    requires some { 1 ≤ nodes }
    requires within { nodes ≤ 9 }
{
    let mut world = RaftWorld::open(alloc, nodes)?;
    let mut number = 0_usize;
    'rows: for (next, want) in rows {
        happen(alloc, &mut world, *next)?;
        let got = shown(alloc, &world)?;
        assert_eq!(rt; got.trim_end(), *want, "after row {number}");
        number = number.saturating_add(1);
    }
    Ok(())
}
