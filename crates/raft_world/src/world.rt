ghost use Rattle.std.specs.Prelude.{◌≡◌, ◌≤◌, true, false, IfOk, OnOk, OnErr};
ghost use Rattle.ax_types.specs.declared.limits.TheConstants.{MAX_NODES};
ghost use Rattle.ax_types.specs.Places as lists;
ghost use Rattle.spec_cluster.specs.Bag as bags;
ghost use Rattle.spec_cluster.specs.Cluster as clusters;
ghost use Rattle.law_agreement.specs.Agreement as agreements;
ghost use Rattle.law_reads.specs.Reads as read_laws;
ghost use Rattle.raft_world.specs.Between as between;
ghost use Rattle.raft_world.specs.Reached as reached;
ghost use Rattle.raft_world.specs.Paired as paired;

use crate::cluster::Cluster;
use ax_types::{Entry, Item, List, NoMemory, NodeId, RaftStep};
use std::alloc::Global;
use std::marker::Model;

/// A cluster of Raft nodes, joined by a network that loses, repeats and reorders packets, which contracts see as the cluster of
/// the definitions with the number of its nodes. A list of steps from the beginning leads to it, so that the laws of agreement
/// and of reads hold of it (Ongaro 2014, figure 3.2 and 6.4). After want of memory in a step it is spent.
#[derive(Drop)]
pub struct RaftWorld {
    nodes: u8,
    cluster: Cluster,
    is_spent: bool,
}

impl Model for RaftWorld {
    ghost use Rattle.std.specs.Prelude.{◌≡◌, ◌≤◌, false};
    ghost use Rattle.raft_world.specs.Reached as reached;

    ghost Value = { reached.OpenCluster };

    ghost view = { λ a. record { nodes = a.nodes; cluster = a.cluster; is_spent = a.is_spent } };

    ghost invariant = { λ a. (1 ≤ a.nodes) × (a.is_spent ≡ false → reached.IsRunOf a.nodes a.cluster) };
}

impl RaftWorld {
    /// Nodes to which nothing has happened, 1 to 9 of them, all of them up.
    pub fn open(alloc: Global, nodes: u8) -> Result<Self, NoMemory>
        requires some { 1 ≤ nodes }
        requires within { nodes ≤ MAX_NODES }
        ensures { IfOk result (λ world. world ≡ record { nodes = nodes; cluster = clusters.new_cluster nodes; is_spent = false }) }
    {
        Ok(RaftWorld {
            nodes,
            cluster: Cluster::new(alloc, nodes)?,
            is_spent: false,
        })
    }

    /// One step of the cluster: an input that is made, or one at which the node's store fails. A step that would be skipped
    /// changes nothing, nor does an input at a node that is not of the cluster, or a halt whose numbers do not fit the saves of
    /// its input. After want of memory the cluster is spent.
    pub fn step(&mut self, step: &RaftStep) -> Result<(), NoMemory>
        requires { self.old.is_spent ≡ false }
        ensures after { OnOk result (self.new ≡ record self.old { cluster = clusters.happened self.old.cluster step.now }) }
        ensures spent { OnErr result (self.new.is_spent ≡ true) }
        ensures reached { OnOk result (reached.IsRunOf self.new.nodes self.new.cluster) }
        ensures grows { OnOk result (between.GrowsAtEnd self.old.cluster.committed self.new.cluster.committed) }
        ensures one_leads { OnOk result (agreements.OneLeads self.new.nodes self.new.cluster) }
        ensures led_once { OnOk result (agreements.LedOnce self.new.nodes self.new.cluster) }
        ensures logs_match { OnOk result (agreements.LogsMatch self.new.nodes self.new.cluster) }
        ensures leaders_hold { OnOk result (agreements.LeadersHold self.new.nodes self.new.cluster) }
        ensures logs_begin { OnOk result (agreements.LogsBegin self.new.nodes self.new.cluster) }
        ensures times_rise { OnOk result (agreements.TimesRise self.new.nodes self.new.cluster) }
        ensures majority_keeps { OnOk result (agreements.MajorityKeeps self.new.nodes self.new.cluster) }
        ensures newest_begins { OnOk result (agreements.NewestBegins self.new.nodes self.new.cluster) }
        ensures have_origin { OnOk result (reached.HaveOrigin self.new.nodes self.new.cluster) }
        ensures reads_are_fresh { OnOk result (read_laws.ReadsAreFresh self.new.nodes self.new.cluster) }
        ensures reads_differ { OnOk result (read_laws.ReadsDiffer self.new.nodes self.new.cluster) }
        ensures reads_are_numbered { OnOk result (read_laws.ReadsAreNumbered self.new.nodes self.new.cluster) }
    {
        self.is_spent = true;
        self.cluster.step(step)?;
        self.is_spent = false;
        Ok(())
    }

    /// What is committed, the place 1 first.
    pub fn committed(&self) -> &List<Entry>
        ensures { result.now ≡ self.now.cluster.committed }
    {
        &self.cluster.committed
    }

    /// The term that a node leads, where it is up and a leader.
    pub fn leads(&self, node: NodeId) -> Option<u64>
        ensures { result ≡ paired.term_led (lists.at_place self.now.cluster.members node) }
    {
        let Some(leading) = self.cluster.members.up_node(node) else {
            return None;
        };
        if !leading.is_leader() {
            return None;
        }
        Some(leading.term())
    }

    /// The number of the packet that a flush delivers next: the first one that waits and that nothing hinders.
    pub fn next_packet(&self) -> Option<u64>
        ensures { result ≡ bags.next_up self.now.cluster.bag (clusters.up_members self.now.cluster) }
    {
        self.cluster.bag.next_up(self.cluster.members.up())
    }

    /// How many packets wait, and the first 64 of them.
    pub fn pending(&self) -> Result<(u64, List<Item>), NoMemory>
        ensures { IfOk result (λ pending. pending ≡ (bags.pending_count self.now.cluster.bag, bags.pending_items self.now.cluster.bag)) }
    {
        self.cluster.bag.pending()
    }
}
