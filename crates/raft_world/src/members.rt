ghost use Rattle.std.specs.Prelude.{◌≡◌, ◌+◌, ◌≤◌, ◌<◌, suc, Some, [], ◌∷◌, ◌++◌, length, true, IfOk, OnOk};
ghost use Rattle.std.specs.Option.{option_copied, option_map};
ghost use Rattle.ax_types.specs.declared.limits.TheConstants.{MAX_NODES};
ghost use Rattle.ax_types.specs.Places as lists;
ghost use Rattle.spec_raft.specs.Positions as positions;
ghost use Rattle.spec_node.specs.Node as raft_nodes;
ghost use Rattle.spec_node.specs.NodeStep as node_steps;
ghost use Rattle.spec_node.specs.Saving as saving;
ghost use Rattle.spec_cluster.specs.Cluster as clusters;
ghost use Rattle.net_bag.specs.Reasons as reasons;
ghost use Rattle.raft_world.specs.Paired as paired;
ghost use Rattle.raft_world.specs.Askable as askable;

use crate::intakes::step_node;
use crate::saves::kept_after;
use ax_types::{NoMemory, NodeId, Out, RaftInput, Saves};
use raft_node::RaftNode;
use std::alloc::Global;
use std::marker::Model;
use std::mem;

/// The nodes of a cluster by number, with whether each is up, which contracts see as the list of its members. Of a node that is
/// down only what it keeps counts.
#[derive(Drop)]
pub(crate) struct Members {
    up: Vec<bool>,
    nodes: Vec<RaftNode>,
}

impl Model for Members {
    ghost use Rattle.std.specs.Prelude.{List as Items, ◌≡◌, ◌≤◌, length};
    ghost use Rattle.spec_cluster.specs.Cluster as clusters;
    ghost use Rattle.raft_world.specs.Paired as paired;

    ghost Value = { Items clusters.Member };

    ghost view = { λ a. paired.members_of a.up.items a.nodes.items };

    ghost invariant = { λ a. length a.up.items ≡ length a.nodes.items };
}

impl Members {
    /// Nodes to which nothing has happened, all of them up.
    pub(crate) fn new(alloc: Global, count: u8) -> Result<Self, NoMemory>
        requires { count ≤ MAX_NODES }
        ensures { IfOk result (λ members. members ≡ (clusters.new_cluster count).members) }
    {
        let mut members = Members {
            up: Vec::with_capacity(alloc, count as usize)?,
            nodes: Vec::with_capacity(alloc, count as usize)?,
        };
        'numbers: for number in 1..count + 1 {
            members.add(alloc, number, count)?;
        }
        Ok(members)
    }

    /// Adds the node with a number.
    fn add(&mut self, alloc: Global, number: u8, count: u8) -> Result<(), NoMemory>
        requires one { 1 ≤ number }
        requires member { number ≤ count }
        requires within { count ≤ MAX_NODES }
        ensures { OnOk result (self.new ≡ self.old ++ record { is_up = true; node = raft_nodes.new_node number count } ∷ []) }
    {
        let Some(me) = NodeId::new(number) else {
            unreachable!()
        };
        self.up.reserve(1)?;
        self.nodes.reserve(1)?;
        self.up.push_reserved(true);
        self.nodes.push_reserved(RaftNode::new(alloc, me, count));
        Ok(())
    }

    /// Whether each node is up, the node 1 first.
    pub(crate) fn up(&self) -> &[bool]
        ensures { reasons.nodes_up result.now ≡ lists.numbers_passing (λ m. m.is_up) 1 self.now }
    {
        self.up.as_slice()
    }

    /// A node, where it is one of the cluster and up.
    pub(crate) fn up_node(&self, node: NodeId) -> Option<&RaftNode>
        ensures { option_copied result ≡ paired.node_up (lists.at_place self.now node) }
    {
        let index = index_of(node);
        if index >= self.up.len() || !self.up[index] {
            return None;
        }
        Some(&self.nodes[index])
    }

    /// A node of the cluster.
    pub(crate) fn node(&self, node: NodeId) -> &RaftNode
        requires { node ≤ length self.now }
        ensures { option_map (λ m. m.node) (lists.at_place self.now node) ≡ Some result.now }
    {
        &self.nodes[index_of(node)]
    }

    /// One step of a node that is up, for what it is asked.
    pub(crate) fn step(&mut self, node: NodeId, input: RaftInput) -> Result<Out, NoMemory>
        requires { askable.IsAskableAt (lists.at_place self.old node) input }
        ensures out { IfOk result (λ out. option_map (λ m. node_steps.out m.node input) (lists.at_place self.old node) ≡ Some out) }
        ensures after { OnOk result (self.new ≡ positions.change_place (λ m. record m { node = node_steps.stepped m.node input }) self.old node) }
    {
        let stepping = &mut self.nodes[index_of(node)];
        step_node(stepping, input)
    }

    /// A node that is up goes down: what is not kept is lost. Another one stays as it is.
    pub(crate) fn crash(&mut self, node: NodeId)
        ensures { self.new ≡ positions.change_place paired.fallen self.old node }
    {
        let index = index_of(node);
        if index >= self.up.len() || !self.up[index] {
            return;
        }
        self.up[index] = false;
        restart_at(&mut self.nodes, index);
    }

    /// A node that is down comes up with what it keeps. Another one stays as it is.
    pub(crate) fn start(&mut self, node: NodeId)
        ensures { self.new ≡ positions.change_place paired.risen self.old node }
    {
        let index = index_of(node);
        if index >= self.up.len() || self.up[index] {
            return;
        }
        self.up[index] = true;
        restart_at(&mut self.nodes, index);
    }

    /// A node goes down with what its store kept of these saves where the call after the first ones failed and left so many
    /// entries.
    pub(crate) fn halt(
        &mut self,
        node: NodeId,
        saves: Saves,
        saved: u64,
        added: u64,
    ) -> Result<(), NoMemory>
        requires { node ≤ length self.old }
        ensures { OnOk result (self.new ≡ positions.change_place (λ m. clusters.fallen_member m.node (saving.kept_after (raft_nodes.kept_of m.node) (saving.calls_of saves) saved added)) self.old node) }
    {
        let index = index_of(node);
        self.up[index] = false;
        let alloc = *self.nodes.allocator();
        let halting = &mut self.nodes[index];
        restart_after(alloc, halting, saves, saved, added)
    }
}

/// Where a node stands among all.
fn index_of(node: NodeId) -> usize
    ensures { result + 1 ≡ node }
{
    node.number() as usize - 1
}

/// The node at an index loses all but what it keeps.
fn restart_at(nodes: &mut Vec<RaftNode>, index: usize)
    requires { index < length nodes.old.items }
    ensures { nodes.new.items ≡ positions.change_place paired.restarted_now nodes.old.items (suc index) }
{
    let alloc = *nodes.allocator();
    let node = &mut nodes[index];
    restart(alloc, node);
}

/// A node loses all but what it keeps.
fn restart(alloc: Global, node: &mut RaftNode)
    ensures { node.new ≡ paired.restarted_now node.old }
{
    let me = node.me();
    let nodes = node.nodes();
    let old = mem::replace(node, RaftNode::new(alloc, me, nodes));
    *node = RaftNode::restart(alloc, me, nodes, old.into_kept());
}

/// A node loses all but what its store kept of these saves where the call after the first ones failed and left so many entries.
fn restart_after(
    alloc: Global,
    node: &mut RaftNode,
    saves: Saves,
    saved: u64,
    added: u64,
) -> Result<(), NoMemory>
    ensures { OnOk result (node.new ≡ raft_nodes.restarted node.old.ballot.me node.old.ballot.nodes (saving.kept_after (raft_nodes.kept_of node.old) (saving.calls_of saves) saved added)) }
{
    let me = node.me();
    let nodes = node.nodes();
    let old = mem::replace(node, RaftNode::new(alloc, me, nodes));
    let kept = kept_after(old.into_kept(), saves, saved, added)?;
    *node = RaftNode::restart(alloc, me, nodes, kept);
    Ok(())
}
