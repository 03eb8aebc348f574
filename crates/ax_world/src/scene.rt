ghost use Rattle.std.specs.Prelude.{◌≡◌, ◌≤◌, false, [], is_some, length, IfOk, OnOk, IsTrue};
ghost use Rattle.ax_types.specs.Places as lists;
ghost use Rattle.ax_types.specs.declared.limits.TheConstants.{MAX_NODES, MAX_CLIENTS, MAX_TIMEOUT};
ghost use Rattle.spec_world.specs.Worlds as worlds;
ghost use Rattle.spec_world.specs.Plans as plans;
ghost use Rattle.net_bag.specs.Reasons as reasons;
ghost use Rattle.world_hosts.specs.StoresMatch as matching;
ghost use Rattle.ax_world.specs.Scenes as scenes;

use crate::brought::Brought;
use ax_types::{Act, ClientId, NoMemory, NodeId, SkipReason, Step, TakeRefused};
use net_bag::Bag;
use std::alloc::Global;
use std::marker::Model;
use store_journal::NodeStore;
use watch_hooks::Filters;
use world_hosts::Hosts;
use world_seats::Seats;

/// The nodes, the clients, the network and the history of a run, which contracts see as the world of the definitions. What a
/// step adds to the history is told by the step, and is not in it yet.
#[derive(Drop)]
pub(crate) struct Scene {
    pub(crate) alloc: Global,
    pub(crate) hosts: Hosts,
    pub(crate) seats: Seats,
    pub(crate) bag: Bag,
    pub(crate) history: Vec<(u64, Act)>,
    /// The bytes of the packet that is delivered.
    pub(crate) buffer: Vec<u8>,
}

impl Model for Scene {
    ghost use Rattle.ax_world.specs.Scenes as scenes;

    ghost Value = { scenes.OpenScene };

    ghost view = { λ a. record {
      world = record { timeout = a.hosts.timeout; hosts = a.hosts.hosts; seats = a.seats.seats; bag = a.bag; history = a.history.items };
      calls = a.seats.calls;
      hosts_spent = a.hosts.is_spent;
      seats_spent = a.seats.is_spent;
    } };
}

/// The reason of a skip where the network gives no packet.
pub(crate) fn reason_of(refused: TakeRefused) -> SkipReason
    ensures { result ≡ reasons.reason_of refused }
{
    match refused {
        TakeRefused::NeverSent => SkipReason::NeverSent,
        TakeRefused::Gone => SkipReason::Gone,
        TakeRefused::Cut => SkipReason::Cut,
        TakeRefused::Down => SkipReason::NodeDown,
    }
}

impl Scene {
    /// All nodes up with empty stores, no session, no packet.
    pub(crate) fn new(
        alloc: Global,
        nodes: u8,
        clients: u8,
        timeout: u64,
    ) -> Result<Scene, NoMemory>
        requires some { 1 ≤ nodes }
        requires nodes { nodes ≤ MAX_NODES }
        requires clients { clients ≤ MAX_CLIENTS }
        requires low { 1 ≤ timeout }
        requires high { timeout ≤ MAX_TIMEOUT }
        ensures { IfOk result (λ scene. scene ≡ record { world = worlds.new_world nodes clients timeout; calls = 0; hosts_spent = false; seats_spent = false }) }
    {
        Ok(Scene {
            alloc,
            hosts: Hosts::open(alloc, nodes, timeout)?,
            seats: Seats::open(alloc, clients)?,
            bag: Bag::new(alloc),
            history: Vec::new(alloc),
            buffer: Vec::new(alloc),
        })
    }

    #[tactic(auto, using(crate::proofs::Placed::there_some, crate::proofs::Placed::there_none))]
    /// Whether a node is of the cluster.
    pub(crate) fn has_node(&self, node: NodeId) -> bool
        ensures there { result ≡ is_some (lists.at_place self.now.world.hosts node) }
        ensures known { IsTrue result → node ≤ length self.now.world.hosts }
    {
        node.number() as usize <= self.hosts.count()
    }

    #[tactic(auto, using(crate::proofs::Placed::there_some, crate::proofs::Placed::there_none))]
    /// Whether a client is of the cluster.
    pub(crate) fn has_client(&self, client: ClientId) -> bool
        ensures there { result ≡ is_some (lists.at_place self.now.world.seats client) }
        ensures known { IsTrue result → client ≤ length self.now.world.seats }
    {
        client.number() as usize <= self.seats.count()
    }

    /// A step that is skipped.
    pub(crate) fn skips(&self, reason: SkipReason) -> Result<Brought, NoMemory>
        ensures { IfOk result (λ b. b ≡ scenes.skipped reason) }
    {
        Brought::skipped(self.alloc, reason)
    }

    /// A step that shows nothing.
    pub(crate) fn shows_nothing(&self) -> Brought
        ensures { result ≡ scenes.only_shown [] }
    {
        Brought::nothing(self.alloc)
    }

    /// What a step asks for is done.
    pub(crate) fn step<S: NodeStore>(
        &mut self,
        stores: &mut Vec<S>,
        step: &Step,
        filters: &Filters,
    ) -> Result<Brought, NoMemory>
        requires ready { scenes.MayTakeStep self.old }
        requires stores { matching.StoresMatch self.old.world.hosts (matching.store_states_of S.told S.needs_load stores.old.items) }
        ensures does { matching.AreTelling (matching.store_states_of S.told S.needs_load stores.old.items)
            → IfOk result (λ b. scenes.Does self.new.world b (plans.plan self.old.world step.now)) }
        ensures open { OnOk result (scenes.StaysOpen self.old self.new) }
        ensures history { self.new.world.history ≡ self.old.world.history }
        ensures stores { OnOk result (matching.StoresMatch self.new.world.hosts (matching.store_states_of S.told S.needs_load stores.new.items)) }
        ensures told { matching.AreTelling (matching.store_states_of S.told S.needs_load stores.old.items) → matching.AreTelling (matching.store_states_of S.told S.needs_load stores.new.items) }
    {
        match step {
            Step::Elect { node } => self.elects(stores, *node),
            Step::Beat { node } => self.beats(stores, *node),
            Step::Crash { node } => self.crashes(*node),
            Step::Start { node } => self.starts(stores, *node),
            Step::Clock { node, time } => Ok(self.sets_clock(*node, *time)),
            Step::Expire { node } => self.checks(stores, *node),
            Step::Cut { one, other } => Ok(self.cuts(*one, *other)),
            Step::Join { one, other } => Ok(self.joins(*one, *other)),
            Step::Deliver { number } => self.delivers(stores, *number, None, filters),
            Step::Drop { number } => self.drops(*number),
            Step::Short { number, bytes } => self.delivers(stores, *number, Some(*bytes), filters),
            Step::List => self.lists(),
            Step::Open { client, node } => self.opens(*client, *node),
            Step::Switch { client, node } => self.switches(*client, *node),
            Step::Resend { client } => self.resends(*client),
            Step::Keep { client } => self.keeps(*client),
            Step::Close { client } => self.closes(*client),
            Step::Watch { client, kind } => self.watches(*client, *kind),
            Step::Call { client, name, op } => self.calls(*client, name, op),
            Step::Query {
                client,
                level,
                name,
                query,
            } => self.queries(*client, *level, name, query),
        }
    }
}
