ghost use Rattle.std.specs.Prelude.{◌≡◌, ℕ, ◌≤◌, Some, length, IfOk, OnOk};
ghost use Rattle.std.specs.Option.{option_map};
ghost use Rattle.ax_types.specs.declared.limits.TheConstants.{MAX_NODES};
ghost use Rattle.ax_types.specs.Places as lists;
ghost use Rattle.spec_cluster.specs.Cluster as clusters;
ghost use Rattle.raft_world.specs.Between as between;
ghost use Rattle.raft_world.specs.Gained as gaining;

use crate::gains::{
    commit_entries, commit_terms, keep_givens, keep_led, keep_taken, mark_taken, send_all,
};
use crate::history::{Led, ReadGiven, ReadPoint, ReadTaken};
use crate::intakes::{step_node, take_in};
use crate::members::Members;
use crate::saves::may_fail;
use ax_types::{Duplicate, Entry, List, NoMemory, NodeId, NodeInput, Out, RaftStep};
use net_bag::Bag;
use std::alloc::Global;
use std::marker::Model;

/// The nodes by number, the packets, what is committed with for each place the term of the node that first knew of it, and what
/// happened. After want of memory in a step nothing is said of it.
#[derive(Drop)]
pub(crate) struct Cluster {
    pub(crate) members: Members,
    pub(crate) bag: Bag,
    pub(crate) committed: List<Entry>,
    terms: List<u64>,
    leds: List<Led>,
    takens: List<ReadTaken>,
    givens: List<ReadGiven>,
}

impl Model for Cluster {
    ghost use Rattle.spec_cluster.specs.Cluster as clusters;

    ghost Value = { clusters.Cluster };

    ghost view = { λ a. record { members = a.members; bag = a.bag; committed = a.committed; terms = a.terms; leds = a.leds; takens = a.takens; givens = a.givens } };
}

impl Cluster {
    /// Nodes to which nothing has happened.
    pub(crate) fn new(alloc: Global, nodes: u8) -> Result<Self, NoMemory>
        requires { nodes ≤ MAX_NODES }
        ensures { IfOk result (λ cluster. cluster ≡ clusters.new_cluster nodes) }
    {
        Ok(Cluster {
            members: Members::new(alloc, nodes)?,
            bag: Bag::new(alloc),
            committed: List::new(alloc),
            terms: List::new(alloc),
            leds: List::new(alloc),
            takens: List::new(alloc),
            givens: List::new(alloc),
        })
    }

    /// One step.
    pub(crate) fn step(&mut self, step: &RaftStep) -> Result<(), NoMemory>
        requires { (n : ℕ) × between.IsRunnable n self.old }
        ensures { OnOk result (self.new ≡ clusters.happened self.old step.now) }
    {
        match step {
            RaftStep::Made { input } => self.make(input),
            RaftStep::Halt {
                input,
                saved,
                added,
            } => self.halt(input, *saved, *added),
        }
    }

    /// A step that is made.
    fn make(&mut self, input: &NodeInput) -> Result<(), NoMemory>
        requires { (n : ℕ) × between.IsRunnable n self.old }
        ensures { OnOk result (self.new ≡ clusters.made self.old input.now) }
    {
        match input {
            NodeInput::Crash { node } => {
                self.crash(*node);
                Ok(())
            }
            NodeInput::Start { node } => {
                self.start(*node);
                Ok(())
            }
            _ => self.make_intake(input),
        }
    }

    /// A node goes down.
    fn crash(&mut self, node: NodeId)
        ensures { self.new ≡ clusters.crashed self.old node (lists.at_place self.old.members node) }
    {
        self.members.crash(node);
    }

    /// A node comes up.
    fn start(&mut self, node: NodeId)
        ensures { self.new ≡ clusters.started self.old node (lists.at_place self.old.members node) }
    {
        self.members.start(node);
    }

    /// A step of the node that takes an input.
    fn make_intake(&mut self, input: &NodeInput) -> Result<(), NoMemory>
        requires { (n : ℕ) × between.IsRunnable n self.old }
        ensures { OnOk result (self.new ≡ clusters.made_intake self.old (clusters.intake self.old input.now)) }
    {
        let Some(taken) = take_in(&self.members, &self.bag, input)? else {
            return Ok(());
        };
        let node = taken.node;
        let packet = taken.packet;
        let before = self.read_point(node);
        let out = self.members.step(node, taken.input)?;
        mark_taken(&mut self.bag, packet);
        self.gain(node, before, out)
    }

    /// A step in which the node's store failed after so many of its saves, with so many entries of a failed add left. The node
    /// makes it on a copy, so that it is as before where the store cannot fail so.
    fn halt(&mut self, input: &NodeInput, saved: u64, added: u64) -> Result<(), NoMemory>
        requires { (n : ℕ) × between.IsRunnable n self.old }
        ensures { OnOk result (self.new ≡ clusters.halted_intake self.old (clusters.intake self.old input.now) saved added) }
    {
        let Some(taken) = take_in(&self.members, &self.bag, input)? else {
            return Ok(());
        };
        let node = taken.node;
        let packet = taken.packet;
        let mut stepping = self.members.node(node).copy()?;
        let out = step_node(&mut stepping, taken.input)?;
        if !may_fail(&out.saves, saved, added) {
            return Ok(());
        }
        mark_taken(&mut self.bag, packet);
        self.members.halt(node, out.saves, saved, added)
    }

    /// Where a read would be taken at a node.
    fn read_point(&self, node: NodeId) -> ReadPoint
        requires { node ≤ length self.now.members }
        ensures { option_map (λ m. gaining.point_of m.node) (lists.at_place self.now.members node) ≡ Some result }
    {
        let node = self.members.node(node);
        ReadPoint {
            term: node.term(),
            place: node.read_place(),
            round: node.round(),
        }
    }

    /// What a step of a node brings to the cluster, in which the node is after it already.
    fn gain(&mut self, node: NodeId, before: ReadPoint, out: Out) -> Result<(), NoMemory>
        requires member { node ≤ length self.old.members }
        requires grows { (m : clusters.Member) → lists.at_place self.old.members node ≡ Some m → between.GrowsAtEnd self.old.committed (clusters.entries_so_far self.old.committed m.node) }
        ensures { OnOk result ((m : clusters.Member) → lists.at_place self.old.members node ≡ Some m → self.new ≡ gaining.gained self.old node before m.node out) }
    {
        let after = self.members.node(node);
        let committed = self.committed.len() as u64;
        send_all(&mut self.bag, out.packets)?;
        keep_led(&mut self.leds, node, after, out.led)?;
        keep_taken(&mut self.takens, node, before, committed, out.reached)?;
        keep_givens(&mut self.givens, node, after, out.reads)?;
        commit_terms(&mut self.terms, after)?;
        commit_entries(&mut self.committed, after)
    }
}
