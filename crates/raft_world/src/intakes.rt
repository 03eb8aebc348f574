ghost use Rattle.std.specs.Prelude.{◌≡◌, not, false, IfOk, OnOk};
ghost use Rattle.ax_types.specs.declared.raft.RaftInput.TheVariants as given;
ghost use Rattle.ax_types.specs.declared.raft.NodeInput.TheVariants as node_inputs;
ghost use Rattle.spec_node.specs.Node as raft_nodes;
ghost use Rattle.spec_node.specs.NodeStep as node_steps;
ghost use Rattle.spec_cluster.specs.Cluster as clusters;
ghost use Rattle.raft_world.specs.Askable as askable;
ghost use Rattle.raft_world.specs.Taking as taking;

use crate::members::Members;
use ax_types::{Duplicate, End, NoMemory, NodeId, NodeInput, Out, RaftInput};
use net_bag::Bag;
use raft_node::RaftNode;

/// An input that a node takes: the node, the packet that is marked, and what the node is asked.
#[derive(Drop)]
pub(crate) struct Intake {
    pub(crate) node: NodeId,
    pub(crate) packet: Option<u64>,
    pub(crate) input: RaftInput,
}

/// Which node takes an input, none where it is to be skipped.
pub(crate) fn take_in(
    members: &Members,
    bag: &Bag,
    input: &NodeInput,
) -> Result<Option<Intake>, NoMemory>
    ensures { IfOk result (λ taken. (c : clusters.Cluster) → c.members ≡ members.now → c.bag ≡ bag.now → taking.TakesAs c (clusters.intake c input.now) taken) }
{
    match input {
        NodeInput::Elect { node, clock } => Ok(at_follower(members, *node, *clock)),
        NodeInput::Beat { node } => Ok(at_leader(members, *node, RaftInput::Beat)),
        NodeInput::Append {
            node,
            clock,
            bodies,
        } => {
            let clock = *clock;
            let bodies = bodies.copy()?;
            Ok(at_leader(members, *node, RaftInput::Append { clock, bodies }))
        }
        NodeInput::Read { node } => Ok(at_leader(members, *node, RaftInput::Read)),
        NodeInput::Deliver { number, clock } => at_receiver(members, bag, *number, *clock),
        NodeInput::Crash { .. } => Ok(None),
        NodeInput::Start { .. } => Ok(None),
    }
}

/// A candidacy, at a node that is up and does not lead.
fn at_follower(members: &Members, node: NodeId, clock: u64) -> Option<Intake>
    ensures { (c : clusters.Cluster) → c.members ≡ members.now → taking.TakesAs c (clusters.intake_for c node (given.Elect clock) (λ n. not (raft_nodes.is_leader n))) result }
{
    let Some(follower) = members.up_node(node) else {
        return None;
    };
    if follower.is_leader() {
        return None;
    }
    Some(Intake {
        node,
        packet: None,
        input: RaftInput::Elect { clock },
    })
}

/// What only a leader is asked, at a node that is up and leads.
fn at_leader(members: &Members, node: NodeId, input: RaftInput) -> Option<Intake>
    ensures { (c : clusters.Cluster) → c.members ≡ members.now → taking.TakesAs c (clusters.intake_for c node input raft_nodes.is_leader) result }
{
    let Some(leader) = members.up_node(node) else {
        return None;
    };
    if !leader.is_leader() {
        return None;
    }
    Some(Intake {
        node,
        packet: None,
        input,
    })
}

/// The packet with a number, at its receiver, where nothing hinders it.
fn at_receiver(
    members: &Members,
    bag: &Bag,
    number: u64,
    clock: u64,
) -> Result<Option<Intake>, NoMemory>
    ensures { IfOk result (λ taken. (c : clusters.Cluster) → c.members ≡ members.now → c.bag ≡ bag.now → taking.TakesAs c (clusters.intake c (node_inputs.Deliver number clock)) taken) }
{
    let Ok(packet) = bag.look(number, members.up()) else {
        return Ok(None);
    };
    let End::Node(from) = packet.from else {
        return Ok(None);
    };
    let End::Node(to) = packet.to else {
        return Ok(None);
    };
    let Some(_) = members.up_node(to) else {
        return Ok(None);
    };
    let payload = packet.payload.copy()?;
    Ok(Some(Intake {
        node: to,
        packet: Some(number),
        input: RaftInput::Message {
            from,
            clock,
            payload,
        },
    }))
}

/// One step of a node for what it is asked. No term follows the greatest number, which is answered as want of memory.
pub(crate) fn step_node(node: &mut RaftNode, input: RaftInput) -> Result<Out, NoMemory>
    requires { askable.IsAskable node.old input }
    ensures out { IfOk result (λ out. out ≡ node_steps.out node.old input) }
    ensures after { OnOk result (node.new ≡ node_steps.stepped node.old input) }
{
    match input {
        RaftInput::Elect { clock } => elect(node, clock),
        RaftInput::Beat => node.beat(),
        RaftInput::Append { clock, bodies } => node.append(clock, bodies),
        RaftInput::Read => node.read(),
        RaftInput::Message {
            from,
            clock,
            payload,
        } => node.hear(from, clock, &payload),
    }
}

/// The step for a candidacy.
fn elect(node: &mut RaftNode, clock: u64) -> Result<Out, NoMemory>
    requires { raft_nodes.is_leader node.old ≡ false }
    ensures out { IfOk result (λ out. out ≡ node_steps.out node.old (given.Elect clock)) }
    ensures after { OnOk result (node.new ≡ node_steps.stepped node.old (given.Elect clock)) }
{
    if node.term() == u64::MAX {
        return Err(NoMemory);
    }
    node.elect(clock)
}
