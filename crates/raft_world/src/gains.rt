ghost use Rattle.std.specs.Prelude.{◌≡◌, ◌++◌, OnOk};
ghost use Rattle.spec_cluster.specs.Bag as bags;
ghost use Rattle.spec_cluster.specs.Cluster as clusters;
ghost use Rattle.raft_world.specs.Between as between;
ghost use Rattle.raft_world.specs.Gained as gaining;
ghost use Rattle.raft_world.specs.Taking as taking;

use crate::history::{Led, ReadGiven, ReadPoint, ReadTaken};
use ax_types::{Duplicate, Entry, List, NoMemory, NodeId, Packet};
use net_bag::Bag;
use raft_node::RaftNode;

/// Packets are sent.
pub(crate) fn send_all(bag: &mut Bag, packets: List<Packet>) -> Result<(), NoMemory>
    ensures { OnOk result (bag.new ≡ bags.with_packets bag.old packets) }
{
    'packets: for packet in packets.into_vec() {
        let Ok(_) = bag.send(packet) else {
            return Err(NoMemory);
        };
    }
    Ok(())
}

/// The packet that a node took is marked.
pub(crate) fn mark_taken(bag: &mut Bag, packet: Option<u64>)
    requires { taking.IsFree bag.old packet }
    ensures { bag.new ≡ taking.marked bag.old packet }
{
    if let Some(number) = packet {
        let _marked = bag.mark(number);
    }
}

/// What a node knows to be committed is committed.
pub(crate) fn commit_entries(committed: &mut List<Entry>, node: &RaftNode) -> Result<(), NoMemory>
    requires { between.GrowsAtEnd committed.old (clusters.entries_so_far committed.old node.now) }
    ensures { OnOk result (committed.new ≡ clusters.entries_so_far committed.old node.now) }
{
    'places: while (committed.len() as u64) < node.commit() {
        let entry = node.entry(committed.len() as u64 + 1).copy()?;
        committed.push(entry)?;
    }
    Ok(())
}

/// Each of its places was committed in the term of the node.
pub(crate) fn commit_terms(terms: &mut List<u64>, node: &RaftNode) -> Result<(), NoMemory>
    ensures { OnOk result (terms.new ≡ clusters.terms_so_far terms.old node.now) }
{
    'places: while (terms.len() as u64) < node.commit() {
        terms.push(node.term())?;
    }
    Ok(())
}

/// The node leads, where it became leader.
pub(crate) fn keep_led(
    leds: &mut List<Led>,
    number: NodeId,
    node: &RaftNode,
    led: bool,
) -> Result<(), NoMemory>
    ensures { OnOk result (leds.new ≡ leds.old ++ clusters.led_by number node.now led) }
{
    if !led {
        return Ok(());
    }
    leds.push(Led {
        term: node.term(),
        node: number,
    })
}

/// The read that was taken, where one was. No round follows the greatest number, which is answered as want of memory.
pub(crate) fn keep_taken(
    takens: &mut List<ReadTaken>,
    node: NodeId,
    before: ReadPoint,
    committed: u64,
    reached: Option<u64>,
) -> Result<(), NoMemory>
    ensures { OnOk result (takens.new ≡ takens.old ++ gaining.taken_at node before committed reached) }
{
    let Some(arrival) = reached else {
        return Ok(());
    };
    if before.round == u64::MAX {
        return Err(NoMemory);
    }
    takens.push(ReadTaken {
        node,
        term: before.term,
        arrival,
        place: before.place,
        round: before.round + 1,
        committed,
    })
}

/// The reads that were given.
pub(crate) fn keep_givens(
    givens: &mut List<ReadGiven>,
    number: NodeId,
    node: &RaftNode,
    reads: List<(u64, u64)>,
) -> Result<(), NoMemory>
    ensures { OnOk result (givens.new ≡ givens.old ++ clusters.given_by number node.now reads) }
{
    let term = node.term();
    'reads: for read in reads.into_vec() {
        givens.push(ReadGiven {
            node: number,
            term,
            arrival: read.0,
            place: read.1,
        })?;
    }
    Ok(())
}
