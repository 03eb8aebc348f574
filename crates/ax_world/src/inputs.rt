ghost use Rattle.std.specs.Prelude.{◌≡◌, ◌≤◌, ◌-◌, ◌++◌, true, false, Some, List as Items, length, drop, IfOk, OnOk, IsTrue, is_some};
ghost use Rattle.ax_types.specs.Places as lists;
ghost use Rattle.ax_types.specs.declared.sessions.ServerInput.TheVariants as input;
ghost use Rattle.spec_cluster.specs.Bag as bags;
ghost use Rattle.spec_world.specs.Worlds as worlds;
ghost use Rattle.spec_world.specs.Plans as plans;
ghost use Rattle.spec_world.specs.Moves as moves;
ghost use Rattle.world_hosts.specs.HostPlans as host_plans;
ghost use Rattle.world_hosts.specs.StoresMatch as matching;
ghost use Rattle.ax_world.specs.Scenes as scenes;

use crate::brought::Brought;
use crate::scene::Scene;
use crate::sending::send_all;
use ax_types::{
    Act, End, Item, List, NoMemory, NodeId, Packet, ServerInput, ServerOut, SkipReason, StepOutcome,
};
use std::alloc::Global;
use store_journal::NodeStore;
use world_hosts::{Hosts, Served};

/// The acts of the places that a node is the first to apply, where so many places were committed before.
fn first_applied(
    places: usize,
    committed: u64,
    acts: List<(u64, Act)>,
) -> Result<List<(u64, Act)>, NoMemory>
    ensures { IfOk result (λ first. first ≡ drop (places - (committed - length acts)) acts) }
{
    let begun = committed.saturating_sub(acts.len() as u64);
    let known = (places as u64).saturating_sub(begun);
    let mut all = acts.into_vec();
    if known == 0 {
        return Ok(List::from_vec(all));
    }
    if known >= all.len() as u64 {
        all.clear();
        return Ok(List::from_vec(all));
    }
    Ok(List::from_vec(all.split_off(known as usize)?))
}

/// The items of a server's step: a new leader, the greatest committed place where it rose, a read that was taken.
fn server_items(
    alloc: Global,
    places: usize,
    node: NodeId,
    led: Option<u64>,
    committed: u64,
    reach: Option<Item>,
) -> Result<List<Item>, NoMemory>
    ensures { IfOk result (λ items. items ≡ moves.leader_item node led ++ moves.commit_item places committed ++ moves.option_item reach) }
{
    let mut items = List::new(alloc);
    if let Some(term) = led {
        items.push(Item::Leader { node, term })?;
    }
    if (places as u64) < committed {
        items.push(Item::Commit { place: committed })?;
    }
    if let Some(item) = reach {
        items.push(item)?;
    }
    Ok(items)
}

#[tactic(auto, using(crate::proofs::Doing::telling_at))]
/// A node that is down is loaded.
fn load<S: NodeStore>(
    hosts: &mut Hosts,
    stores: &mut Vec<S>,
    node: NodeId,
) -> Result<StepOutcome, NoMemory>
    requires whole { hosts.old.is_spent ≡ false }
    requires known { node ≤ length hosts.old.hosts }
    requires there { is_some (lists.at_place hosts.old.hosts node) ≡ true }
    requires down { worlds.up_in (lists.at_place hosts.old.hosts node) ≡ false }
    requires stores { matching.StoresMatch hosts.old.hosts (matching.store_states_of S.told S.needs_load stores.old.items) }
    ensures loaded { matching.AreTelling (matching.store_states_of S.told S.needs_load stores.old.items)
        → IfOk result (λ o. host_plans.LoadsAt hosts.old node (lists.at_place hosts.old.hosts node) hosts.new o) }
    ensures stores { OnOk result (matching.StoresMatch hosts.new.hosts (matching.store_states_of S.told S.needs_load stores.new.items)) }
    ensures told { matching.AreTelling (matching.store_states_of S.told S.needs_load stores.old.items) → matching.AreTelling (matching.store_states_of S.told S.needs_load stores.new.items) }
    ensures whole { OnOk result (hosts.new.is_spent ≡ false) }
{
    hosts.load(stores, node)
}

impl Scene {
    /// A server's step whose store calls succeeded: its packets are sent.
    fn serves(&mut self, node: NodeId, out: ServerOut) -> Result<Brought, NoMemory>
        ensures brought { IfOk result (λ b. b ≡ scenes.server_served self.old.world node out) }
        ensures after { OnOk result (self.new ≡ record self.old { world = record self.old.world { bag = bags.with_packets self.old.world.bag out.packets } }) }
        ensures history { self.new.world.history ≡ self.old.world.history }
    {
        let places = self.history.len();
        send_all(&mut self.bag, out.packets)?;
        Ok(Brought {
            items: server_items(self.alloc, places, node, out.led, out.committed, out.reach)?,
            acts: first_applied(places, out.committed, out.acts)?,
            outcome: StepOutcome::Fine,
        })
    }

    #[tactic(auto, using(crate::proofs::Doing::served_fine, crate::proofs::Doing::served_failed))]
    /// A step of a node's server, with its store calls.
    pub(crate) fn served<S: NodeStore>(
        &mut self,
        stores: &mut Vec<S>,
        node: NodeId,
        input: &ServerInput,
    ) -> Result<Brought, NoMemory>
        requires ready { scenes.MayTakeStep self.old }
        requires known { node ≤ length self.old.world.hosts }
        requires may { host_plans.MayServe node (length self.old.world.hosts) (lists.at_place self.old.world.hosts node) input.now }
        requires stores { matching.StoresMatch self.old.world.hosts (matching.store_states_of S.told S.needs_load stores.old.items) }
        ensures does { IfOk result (λ b. scenes.Does self.new.world b (scenes.serves_at self.old.world node (lists.at_place self.old.world.hosts node) input.now)) }
        ensures open { OnOk result (scenes.StaysOpen self.old self.new) }
        ensures history { self.new.world.history ≡ self.old.world.history }
        ensures stores { OnOk result (matching.StoresMatch self.new.world.hosts (matching.store_states_of S.told S.needs_load stores.new.items)) }
        ensures told { matching.AreTelling (matching.store_states_of S.told S.needs_load stores.old.items) → matching.AreTelling (matching.store_states_of S.told S.needs_load stores.new.items) }
    {
        match self.hosts.serve(stores, node, input)? {
            Served::Fine { out } => self.serves(node, out),
            Served::Failed { saved } => Brought::halted(self.alloc, node, saved),
        }
    }
}

impl Scene {
    #[tactic(auto, using(crate::proofs::Doing::elect_none, crate::proofs::Doing::elect_down, crate::proofs::Doing::elect_leads, crate::proofs::Doing::elect_serves, crate::proofs::Doing::may_elect))]
    /// A node stands for election; one that leads already is skipped.
    pub(crate) fn elects<S: NodeStore>(
        &mut self,
        stores: &mut Vec<S>,
        node: NodeId,
    ) -> Result<Brought, NoMemory>
        requires ready { scenes.MayTakeStep self.old }
        requires stores { matching.StoresMatch self.old.world.hosts (matching.store_states_of S.told S.needs_load stores.old.items) }
        ensures does { IfOk result (λ b. scenes.Does self.new.world b (plans.elects self.old.world node (lists.at_place self.old.world.hosts node))) }
        ensures open { OnOk result (scenes.StaysOpen self.old self.new) }
        ensures history { self.new.world.history ≡ self.old.world.history }
        ensures stores { OnOk result (matching.StoresMatch self.new.world.hosts (matching.store_states_of S.told S.needs_load stores.new.items)) }
        ensures told { matching.AreTelling (matching.store_states_of S.told S.needs_load stores.old.items) → matching.AreTelling (matching.store_states_of S.told S.needs_load stores.new.items) }
    {
        if !self.has_node(node) {
            return Ok(self.shows_nothing());
        }
        if !self.hosts.is_up(node) {
            return self.skips(SkipReason::NodeDown);
        }
        if self.hosts.leads(node) {
            return self.skips(SkipReason::IsLeader);
        }
        let clock = self.hosts.clock(node);
        self.served(stores, node, &ServerInput::Elect { clock })
    }

    #[tactic(auto, using(crate::proofs::Doing::led_none, crate::proofs::Doing::led_down, crate::proofs::Doing::led_follows, crate::proofs::Doing::beat_serves, crate::proofs::Doing::may_beat))]
    /// A leader begins a round.
    pub(crate) fn beats<S: NodeStore>(
        &mut self,
        stores: &mut Vec<S>,
        node: NodeId,
    ) -> Result<Brought, NoMemory>
        requires ready { scenes.MayTakeStep self.old }
        requires stores { matching.StoresMatch self.old.world.hosts (matching.store_states_of S.told S.needs_load stores.old.items) }
        ensures does { IfOk result (λ b. scenes.Does self.new.world b (plans.led_step self.old.world node (lists.at_place self.old.world.hosts node) input.Beat)) }
        ensures open { OnOk result (scenes.StaysOpen self.old self.new) }
        ensures history { self.new.world.history ≡ self.old.world.history }
        ensures stores { OnOk result (matching.StoresMatch self.new.world.hosts (matching.store_states_of S.told S.needs_load stores.new.items)) }
        ensures told { matching.AreTelling (matching.store_states_of S.told S.needs_load stores.old.items) → matching.AreTelling (matching.store_states_of S.told S.needs_load stores.new.items) }
    {
        if !self.has_node(node) {
            return Ok(self.shows_nothing());
        }
        if !self.hosts.is_up(node) {
            return self.skips(SkipReason::NodeDown);
        }
        if !self.hosts.leads(node) {
            return self.skips(SkipReason::NotLeader);
        }
        let clock = self.hosts.clock(node);
        self.served(stores, node, &ServerInput::Beat { clock })
    }

    #[tactic(auto, using(crate::proofs::Doing::led_none, crate::proofs::Doing::led_down, crate::proofs::Doing::led_follows, crate::proofs::Doing::check_serves, crate::proofs::Doing::may_check))]
    /// A leader ends the sessions that are due.
    pub(crate) fn checks<S: NodeStore>(
        &mut self,
        stores: &mut Vec<S>,
        node: NodeId,
    ) -> Result<Brought, NoMemory>
        requires ready { scenes.MayTakeStep self.old }
        requires stores { matching.StoresMatch self.old.world.hosts (matching.store_states_of S.told S.needs_load stores.old.items) }
        ensures does { IfOk result (λ b. scenes.Does self.new.world b (plans.led_step self.old.world node (lists.at_place self.old.world.hosts node) input.Check)) }
        ensures open { OnOk result (scenes.StaysOpen self.old self.new) }
        ensures history { self.new.world.history ≡ self.old.world.history }
        ensures stores { OnOk result (matching.StoresMatch self.new.world.hosts (matching.store_states_of S.told S.needs_load stores.new.items)) }
        ensures told { matching.AreTelling (matching.store_states_of S.told S.needs_load stores.old.items) → matching.AreTelling (matching.store_states_of S.told S.needs_load stores.new.items) }
    {
        if !self.has_node(node) {
            return Ok(self.shows_nothing());
        }
        if !self.hosts.is_up(node) {
            return self.skips(SkipReason::NodeDown);
        }
        if !self.hosts.leads(node) {
            return self.skips(SkipReason::NotLeader);
        }
        let clock = self.hosts.clock(node);
        self.served(stores, node, &ServerInput::Check { clock })
    }

    #[tactic(auto, using(crate::proofs::Doing::crash_none, crate::proofs::Doing::crash_down, crate::proofs::Doing::crash_falls))]
    /// A node goes down.
    pub(crate) fn crashes(&mut self, node: NodeId) -> Result<Brought, NoMemory>
        requires ready { scenes.MayTakeStep self.old }
        ensures does { IfOk result (λ b. scenes.Does self.new.world b (plans.crashes self.old.world node (lists.at_place self.old.world.hosts node))) }
        ensures open { OnOk result (scenes.StaysOpen self.old self.new) }
        ensures history { self.new.world.history ≡ self.old.world.history }
        ensures stores { (seen : Items matching.StoreState) → matching.StoresMatch self.old.world.hosts seen → matching.StoresMatch self.new.world.hosts seen }
    {
        if !self.has_node(node) {
            return Ok(self.shows_nothing());
        }
        if !self.hosts.is_up(node) {
            return self.skips(SkipReason::NodeDown);
        }
        self.hosts.crash(node);
        Ok(self.shows_nothing())
    }

    #[tactic(auto, using(crate::proofs::Doing::clock_none, crate::proofs::Doing::clock_sets))]
    /// A node's clock is set.
    pub(crate) fn sets_clock(&mut self, node: NodeId, time: u64) -> Brought
        requires ready { scenes.MayTakeStep self.old }
        ensures does { scenes.Does self.new.world result (plans.sets_clock self.old.world node time (lists.at_place self.old.world.hosts node)) }
        ensures open { scenes.StaysOpen self.old self.new }
        ensures history { self.new.world.history ≡ self.old.world.history }
        ensures stores { (seen : Items matching.StoreState) → matching.StoresMatch self.old.world.hosts seen → matching.StoresMatch self.new.world.hosts seen }
    {
        if self.has_node(node) {
            self.hosts.set_clock(node, time);
        }
        self.shows_nothing()
    }

    #[tactic(auto, using(crate::proofs::Doing::start_none, crate::proofs::Doing::start_up, crate::proofs::Doing::start_loads))]
    /// A node comes up with what its store has.
    pub(crate) fn starts<S: NodeStore>(
        &mut self,
        stores: &mut Vec<S>,
        node: NodeId,
    ) -> Result<Brought, NoMemory>
        requires ready { scenes.MayTakeStep self.old }
        requires stores { matching.StoresMatch self.old.world.hosts (matching.store_states_of S.told S.needs_load stores.old.items) }
        ensures does { matching.AreTelling (matching.store_states_of S.told S.needs_load stores.old.items)
            → IfOk result (λ b. scenes.Does self.new.world b (plans.starts self.old.world node (lists.at_place self.old.world.hosts node))) }
        ensures open { OnOk result (scenes.StaysOpen self.old self.new) }
        ensures history { self.new.world.history ≡ self.old.world.history }
        ensures stores { OnOk result (matching.StoresMatch self.new.world.hosts (matching.store_states_of S.told S.needs_load stores.new.items)) }
        ensures told { matching.AreTelling (matching.store_states_of S.told S.needs_load stores.old.items) → matching.AreTelling (matching.store_states_of S.told S.needs_load stores.new.items) }
    {
        if !self.has_node(node) {
            return Ok(self.shows_nothing());
        }
        if self.hosts.is_up(node) {
            return self.skips(SkipReason::NodeUp);
        }
        let outcome = load(&mut self.hosts, stores, node)?;
        Brought::started(self.alloc, node, outcome)
    }

    #[tactic(auto, using(crate::proofs::Doing::reach_serves, crate::proofs::Doing::may_take, crate::proofs::Delivered::up_known))]
    /// A packet reaches a node that is up. One that comes from the node itself, or from none of the cluster, was never sent, and
    /// counts as want of memory.
    pub(crate) fn reaches_node<S: NodeStore>(
        &mut self,
        stores: &mut Vec<S>,
        node: NodeId,
        packet: Packet,
    ) -> Result<Brought, NoMemory>
        requires ready { scenes.MayTakeStep self.old }
        requires up { worlds.up_in (lists.at_place self.old.world.hosts node) ≡ true }
        requires stores { matching.StoresMatch self.old.world.hosts (matching.store_states_of S.told S.needs_load stores.old.items) }
        ensures does { IfOk result (λ b. scenes.Does self.new.world b (plans.reaches_node self.old.world node packet (lists.at_place self.old.world.hosts node))) }
        ensures open { OnOk result (scenes.StaysOpen self.old self.new) }
        ensures history { self.new.world.history ≡ self.old.world.history }
        ensures stores { OnOk result (matching.StoresMatch self.new.world.hosts (matching.store_states_of S.told S.needs_load stores.new.items)) }
        ensures told { matching.AreTelling (matching.store_states_of S.told S.needs_load stores.old.items) → matching.AreTelling (matching.store_states_of S.told S.needs_load stores.new.items) }
    {
        if !self.is_other(node, &packet.from) {
            return Err(NoMemory);
        }
        let clock = self.hosts.clock(node);
        self.served(stores, node, &ServerInput::Packet { clock, packet })
    }

    /// Whether an end is a client, or another node of the cluster than this one.
    fn is_other(&self, node: NodeId, end: &End) -> bool
        ensures { IsTrue result → host_plans.IsFromOther node (length self.now.world.hosts) end.now }
    {
        match end {
            End::Node(from) => from.number() != node.number() && self.has_node(*from),
            End::Client(_) => true,
        }
    }
}
