ghost use Rattle.std.specs.Prelude.{◌≡◌, ◌≤◌, ◌-◌, ◌^◌, ◌<◌, true, false, IfOk, OnOk, OnErr};
ghost use Rattle.ax_types.specs.declared.limits.TheConstants.{MAX_NODES, MAX_TIMEOUT};
ghost use Rattle.ax_types.specs.declared.sessions.ServerInput.TheVariants as asks;
ghost use Rattle.spec_node.specs.Node as raft_nodes;
ghost use Rattle.spec_server.specs.Servers as servers;
ghost use Rattle.spec_server.specs.ServerStep as server_steps;
ghost use Rattle.server_node.specs.ServerConditions as conditions;

use crate::rules;
use ax_types::{Entry, Loaded, NoMemory, NodeId, Packet, ServerInput, ServerOut};
use raft_node::RaftNode;
use server_parts::Parts;
use std::alloc::Global;
use std::marker::Model;

/// A server node, which contracts see as the server of the definitions. After want of memory in a step it is spent: the step
/// may be half done, and no further step is to be made.
#[derive(Drop)]
pub struct ServerNode {
    parts: Parts,
    is_spent: bool,
}

impl Model for ServerNode {
    ghost use Rattle.std.specs.Prelude.{◌≡◌, false};
    ghost use Rattle.server_parts.specs.ServerStates as states;

    ghost Value = { states.ServerState };

    ghost view = { λ a. record { server = a.parts.server; is_spent = a.is_spent } };

    ghost invariant = { λ a. a.is_spent ≡ false → a.parts.is_spent ≡ false };
}

impl ServerNode {
    /// A server of a cluster, to which nothing has happened. A live session that gives no sign for `timeout` units of log time
    /// may be ended. It takes no memory.
    pub fn new(alloc: Global, me: NodeId, nodes: u8, timeout: u64) -> Self
        requires member { me ≤ nodes }
        requires within { nodes ≤ MAX_NODES }
        requires low { 1 ≤ timeout }
        requires high { timeout ≤ MAX_TIMEOUT }
        ensures { result ≡ record { server = servers.new_server me nodes timeout; is_spent = false } }
    {
        ServerNode {
            parts: Parts::around(alloc, RaftNode::new(alloc, me, nodes), timeout),
            is_spent: false,
        }
    }

    /// A server after its store was loaded: all but what was kept is as at the beginning. It takes no memory.
    pub fn restart(alloc: Global, me: NodeId, nodes: u8, timeout: u64, kept: Loaded) -> Self
        requires member { me ≤ nodes }
        requires within { nodes ≤ MAX_NODES }
        requires low { 1 ≤ timeout }
        requires high { timeout ≤ MAX_TIMEOUT }
        ensures { result ≡ record { server = servers.server_from me nodes timeout kept; is_spent = false } }
    {
        ServerNode {
            parts: Parts::around(alloc, RaftNode::restart(alloc, me, nodes, kept), timeout),
            is_spent: false,
        }
    }

    /// Whether the node leads.
    pub fn is_leader(&self) -> bool
        ensures { result ≡ servers.leads self.now.server }
    {
        self.parts.raft.is_leader()
    }

    /// The term.
    pub fn term(&self) -> u64
        ensures { result ≡ self.now.server.raft.ballot.term }
    {
        self.parts.raft.term()
    }

    /// The node that has the vote of the term.
    pub fn vote(&self) -> Option<NodeId>
        ensures { result ≡ self.now.server.raft.ballot.vote }
    {
        self.parts.raft.vote()
    }

    /// The log.
    pub fn log(&self) -> &[Entry]
        ensures { result.now ≡ self.now.server.raft.log }
    {
        self.parts.raft.log()
    }

    /// What the node keeps over a crash: its term, its vote and its log. It takes no memory.
    pub fn into_kept(self) -> Loaded
        ensures { result ≡ raft_nodes.kept_of self.server.raft }
    {
        self.parts.raft.into_kept()
    }

    /// One step for an input. What it saves is to be kept before anything else of it counts.
    pub fn step(&mut self, input: &ServerInput) -> Result<ServerOut, NoMemory>
        requires spent { self.old.is_spent ≡ false }
        requires may { conditions.MayStep self.old.server input.now }
        ensures out { IfOk result (λ out. out ≡ server_steps.server_out self.old.server input.now) }
        ensures after { OnOk result (self.new ≡ record { server = server_steps.server_after self.old.server input.now; is_spent = false }) }
        ensures err { OnErr result (self.new.is_spent ≡ true) }
    {
        match input {
            ServerInput::Elect { clock } => self.elect(*clock),
            ServerInput::Beat { clock } => self.beat(*clock),
            ServerInput::Check { clock } => self.check(*clock),
            ServerInput::Packet { clock, packet } => self.receive(*clock, packet),
        }
    }

    /// The step for a candidacy.
    pub fn elect(&mut self, clock: u64) -> Result<ServerOut, NoMemory>
        requires spent { self.old.is_spent ≡ false }
        requires follower { servers.leads self.old.server ≡ false }
        requires term { self.old.server.raft.ballot.term < 2 ^ 64 - 1 }
        ensures out { IfOk result (λ out. out ≡ server_steps.server_out self.old.server (asks.Elect clock)) }
        ensures after { OnOk result (self.new ≡ record { server = server_steps.server_after self.old.server (asks.Elect clock); is_spent = false }) }
        ensures err { OnErr result (self.new.is_spent ≡ true) }
    {
        self.is_spent = true;
        let out = rules::elect(&mut self.parts, clock)?;
        self.is_spent = false;
        Ok(out)
    }

    /// The step for a leader's new round.
    pub fn beat(&mut self, clock: u64) -> Result<ServerOut, NoMemory>
        requires spent { self.old.is_spent ≡ false }
        requires leads { servers.leads self.old.server ≡ true }
        ensures out { IfOk result (λ out. out ≡ server_steps.server_out self.old.server (asks.Beat clock)) }
        ensures after { OnOk result (self.new ≡ record { server = server_steps.server_after self.old.server (asks.Beat clock); is_spent = false }) }
        ensures err { OnErr result (self.new.is_spent ≡ true) }
    {
        self.is_spent = true;
        let out = rules::beat(&mut self.parts, clock)?;
        self.is_spent = false;
        Ok(out)
    }

    /// The step for a leader's check: the sessions that are due are ended through the log (Ongaro 2014, 6.3).
    pub fn check(&mut self, clock: u64) -> Result<ServerOut, NoMemory>
        requires spent { self.old.is_spent ≡ false }
        requires leads { servers.leads self.old.server ≡ true }
        ensures out { IfOk result (λ out. out ≡ server_steps.server_out self.old.server (asks.Check clock)) }
        ensures after { OnOk result (self.new ≡ record { server = server_steps.server_after self.old.server (asks.Check clock); is_spent = false }) }
        ensures err { OnErr result (self.new.is_spent ≡ true) }
    {
        self.is_spent = true;
        let out = rules::check(&mut self.parts, clock)?;
        self.is_spent = false;
        Ok(out)
    }

    /// The step for a packet to this node.
    pub fn receive(&mut self, clock: u64, packet: &Packet) -> Result<ServerOut, NoMemory>
        requires spent { self.old.is_spent ≡ false }
        requires comes { conditions.ComesFrom self.old.server packet.now.«from» packet.now.payload }
        ensures out { IfOk result (λ out. out ≡ server_steps.server_out self.old.server (asks.Packet clock packet.now)) }
        ensures after { OnOk result (self.new ≡ record { server = server_steps.server_after self.old.server (asks.Packet clock packet.now); is_spent = false }) }
        ensures err { OnErr result (self.new.is_spent ≡ true) }
    {
        self.is_spent = true;
        let out = rules::receive(&mut self.parts, clock, packet)?;
        self.is_spent = false;
        Ok(out)
    }
}
