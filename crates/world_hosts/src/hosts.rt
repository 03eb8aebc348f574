ghost use Rattle.std.specs.Prelude.{◌≡◌, ℕ, ◌+◌, ◌≤◌, List, true, false, map, length, IfOk, OnOk, OnErr};
ghost use Rattle.ax_types.specs.declared.limits.TheConstants.{MAX_NODES, MAX_TIMEOUT};
ghost use Rattle.ax_types.specs.Places as lists;
ghost use Rattle.spec_raft.specs.Majority as majorities;
ghost use Rattle.spec_raft.specs.Positions as positions;
ghost use Rattle.spec_world.specs.Worlds as worlds;
ghost use Rattle.net_bag.specs.Reasons as reasons;
ghost use Rattle.world_hosts.specs.HostPlans as plans;
ghost use Rattle.world_hosts.specs.HostViews as views;
ghost use Rattle.world_hosts.specs.StoresMatch as matching;

use crate::host::Host;
use crate::served::Served;
use ax_types::{NoMemory, NodeId, ServerInput, StepOutcome};
use std::alloc::Global;
use std::marker::Model;
use store_journal::NodeStore;

/// The nodes of a world by number, which contracts see as the hosts of the definitions. Their stores stand beside them: each
/// node has the store at its place. After want of memory in a step or a load the nodes are spent, and nothing is said of them.
#[derive(Drop)]
pub struct Hosts {
    alloc: Global,
    timeout: u64,
    hosts: Vec<Host>,
    /// Whether each node is up, the node 1 first.
    up: Vec<bool>,
    is_spent: bool,
}

impl Model for Hosts {
    ghost use Rattle.std.specs.Prelude.{◌≡◌, length, false};
    ghost use Rattle.world_hosts.specs.HostPlans as plans;
    ghost use Rattle.world_hosts.specs.HostViews as views;

    ghost Value = { plans.OpenHosts };

    ghost view = { λ a. record { timeout = a.timeout; hosts = views.hosts_from (length a.hosts.items) a.timeout 1 a.hosts.items; is_spent = a.is_spent } };

    ghost invariant = { λ a. views.ClusterIsWithin (length a.hosts.items) a.timeout × (a.is_spent ≡ false → views.IsReady a.hosts.items a.up.items) };
}

impl Hosts {
    /// Nodes that are up, with empty stores. A live session that gives no sign for `timeout` units of log time may be ended.
    pub fn open(alloc: Global, nodes: u8, timeout: u64) -> Result<Self, NoMemory>
        requires within { nodes ≤ MAX_NODES }
        requires low { 1 ≤ timeout }
        requires high { timeout ≤ MAX_TIMEOUT }
        ensures { IfOk result (λ hosts. hosts ≡ record { timeout = timeout; hosts = map (worlds.new_host nodes timeout) (majorities.cluster_of nodes); is_spent = false }) }
    {
        let mut hosts = Vec::with_capacity(alloc, nodes as usize)?;
        let mut up = Vec::with_capacity(alloc, nodes as usize)?;
        'numbers: for number in 1..nodes + 1 {
            hosts.push(host_at(alloc, number, nodes, timeout))?;
            up.push(true)?;
        }
        Ok(Hosts {
            alloc,
            timeout,
            hosts,
            up,
            is_spent: false,
        })
    }

    /// How many nodes there are.
    pub fn count(&self) -> usize
        ensures count { result ≡ length self.now.hosts }
        ensures within { result ≤ MAX_NODES }
    {
        self.hosts.len()
    }

    /// Whether each node is up, the node 1 first.
    pub fn up(&self) -> &[bool]
        requires { self.now.is_spent ≡ false }
        ensures { reasons.nodes_up result.now ≡ lists.numbers_passing (λ h. h.is_up) 1 self.now.hosts }
    {
        self.up.as_slice()
    }

    /// Whether a node is up.
    pub fn is_up(&self, node: NodeId) -> bool
        requires { node ≤ length self.now.hosts }
        ensures { result ≡ worlds.up_in (lists.at_place self.now.hosts node) }
    {
        self.hosts[index_of(node)].is_up()
    }

    /// Whether a node leads, as far as it knows. One that is down does not.
    pub fn leads(&self, node: NodeId) -> bool
        requires { node ≤ length self.now.hosts }
        ensures { result ≡ plans.leads_in (lists.at_place self.now.hosts node) }
    {
        self.hosts[index_of(node)].leads()
    }

    /// A node's clock, in units of log time.
    pub fn clock(&self, node: NodeId) -> u64
        requires { node ≤ length self.now.hosts }
        ensures { result ≡ plans.clock_in (lists.at_place self.now.hosts node) }
    {
        self.hosts[index_of(node)].clock
    }

    /// The node that is up and leads in the greatest term.
    pub fn leader_now(&self) -> Option<NodeId>
        ensures { result ≡ worlds.leader_now (plans.world_of_hosts self.now) }
    {
        let mut best = None;
        let mut greatest = 0;
        'hosts: for index in 0..self.hosts.len() {
            let term = self.hosts[index].leading_term();
            if term > greatest {
                greatest = term;
                best = NodeId::new(index as u8 + 1);
            }
        }
        best
    }

    /// Sets a node's clock, which it keeps also while it is down.
    pub fn set_clock(&mut self, node: NodeId, time: u64)
        requires { node ≤ length self.old.hosts }
        ensures after { self.new ≡ record self.old { hosts = positions.change_place (plans.with_clock time) self.old.hosts node } }
        ensures matches { (states : List matching.StoreState) → matching.StoresMatch self.old.hosts states → matching.StoresMatch self.new.hosts states }
    {
        self.hosts[index_of(node)].clock = time;
    }

    /// A node that is up goes down. What it keeps is in its store.
    pub fn crash(&mut self, node: NodeId)
        requires whole { self.old.is_spent ≡ false }
        requires up { worlds.up_in (lists.at_place self.old.hosts node) ≡ true }
        ensures after { self.new ≡ record self.old { hosts = positions.change_place (plans.fallen_in self.old node) self.old.hosts node } }
        ensures matches { (states : List matching.StoreState) → matching.StoresMatch self.old.hosts states → matching.StoresMatch self.new.hosts states }
    {
        let index = index_of(node);
        self.up[index] = false;
        self.hosts[index].fall(self.alloc);
    }

    /// One step of a node that is up. What it saves is kept in the node's store before anything else of it counts (Ongaro 2014,
    /// 3.8). A candidacy in the greatest term counts as want of memory. After want of memory the store is as before the step
    /// or after some of its store calls.
    pub fn serve<S: NodeStore>(
        &mut self,
        stores: &mut Vec<S>,
        node: NodeId,
        input: &ServerInput,
    ) -> Result<Served, NoMemory>
        requires whole { self.old.is_spent ≡ false }
        requires may { plans.MayServe node (length self.old.hosts) (lists.at_place self.old.hosts node) input.now }
        requires matches { matching.StoresMatch self.old.hosts (matching.store_states_of S.told S.needs_load stores.old.items) }
        ensures served { IfOk result (λ served. plans.ServesAt self.old node (lists.at_place self.old.hosts node) input.now self.new served) }
        ensures matches { OnOk result (matching.StoresMatch self.new.hosts (matching.store_states_of S.told S.needs_load stores.new.items)) }
        ensures others { matching.OthersStay node stores.old.items stores.new.items }
        ensures telling { matching.AreTelling (matching.store_states_of S.told S.needs_load stores.old.items) → matching.AreTelling (matching.store_states_of S.told S.needs_load stores.new.items) }
        ensures part { OnErr result (matching.KeepsPart (lists.at_place self.old.hosts node) input.now (lists.at_place (matching.store_states_of S.told S.needs_load stores.old.items) node) (lists.at_place (matching.store_states_of S.told S.needs_load stores.new.items) node)) }
        ensures spent { OnErr result (self.new.is_spent ≡ true) }
    {
        self.is_spent = true;
        let index = index_of(node);
        let served = self.hosts[index].serve(self.alloc, &mut stores[index], input)?;
        self.up[index] = self.hosts[index].is_up();
        self.is_spent = false;
        Ok(served)
    }

    /// Loads the store of a node that is down, which then comes up: `Loaded` tells how many entries a failed `add` had left.
    /// `Failed` is answered where the load failed, and where the store holds more than the greatest term or the most entries;
    /// the node stays down. What the store tells stays.
    pub fn load<S: NodeStore>(
        &mut self,
        stores: &mut Vec<S>,
        node: NodeId,
    ) -> Result<StepOutcome, NoMemory>
        requires whole { self.old.is_spent ≡ false }
        requires known { node ≤ length self.old.hosts }
        requires down { worlds.up_in (lists.at_place self.old.hosts node) ≡ false }
        requires matches { matching.StoresMatch self.old.hosts (matching.store_states_of S.told S.needs_load stores.old.items) }
        ensures loaded { IfOk result (λ o. matching.IsTelling (lists.at_place (matching.store_states_of S.told S.needs_load stores.old.items) node) → plans.LoadsAt self.old node (lists.at_place self.old.hosts node) self.new o) }
        ensures matches { OnOk result (matching.StoresMatch self.new.hosts (matching.store_states_of S.told S.needs_load stores.new.items)) }
        ensures unspent { OnOk result (self.new.is_spent ≡ false) }
        ensures others { matching.OthersStay node stores.old.items stores.new.items }
        ensures telling { matching.AreTelling (matching.store_states_of S.told S.needs_load stores.old.items) → matching.AreTelling (matching.store_states_of S.told S.needs_load stores.new.items) }
        ensures told { matching.ToldStays (lists.at_place (matching.store_states_of S.told S.needs_load stores.old.items) node) (lists.at_place (matching.store_states_of S.told S.needs_load stores.new.items) node) }
        ensures spent { OnErr result (self.new.is_spent ≡ true) }
    {
        self.is_spent = true;
        let index = index_of(node);
        let nodes = self.hosts.len() as u8;
        let outcome = self.hosts[index].load(
            self.alloc,
            node,
            nodes,
            self.timeout,
            &mut stores[index],
        )?;
        self.up[index] = self.hosts[index].is_up();
        self.is_spent = false;
        Ok(outcome)
    }
}

/// The node with a number, to which nothing has happened.
fn host_at(alloc: Global, number: u8, nodes: u8, timeout: u64) -> Host
    requires one { 1 ≤ number }
    requires member { number ≤ nodes }
    requires within { nodes ≤ MAX_NODES }
    requires low { 1 ≤ timeout }
    requires high { timeout ≤ MAX_TIMEOUT }
    ensures host { views.host_of nodes timeout number result ≡ worlds.new_host nodes timeout number }
    ensures up { views.stands_up result.standing ≡ true }
    ensures whole { views.StandsWhole result.standing }
{
    let Some(me) = NodeId::new(number) else {
        unreachable!()
    };
    Host::new(alloc, me, nodes, timeout)
}

/// Where a node stands among all.
fn index_of(node: NodeId) -> usize
    ensures { result + 1 ≡ node }
{
    node.number() as usize - 1
}
