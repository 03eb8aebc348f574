ghost use Rattle.std.specs.Prelude.{◌≡◌, None, IfOk, OnOk};
ghost use Rattle.ax_types.specs.Places as lists;
ghost use Rattle.spec_cluster.specs.Bag as bags;
ghost use Rattle.spec_world.specs.Worlds as worlds;
ghost use Rattle.spec_world.specs.Plans as plans;
ghost use Rattle.world_hosts.specs.StoresMatch as matching;
ghost use Rattle.ax_world.specs.Scenes as scenes;

use crate::brought::Brought;
use crate::scene::{Scene, reason_of};
use ax_types::{ClientId, End, NoMemory, Packet, Payload, SkipReason};
use net_arrival::arrive;
use std::alloc::Global;
use store_journal::NodeStore;
use watch_hooks::Filters;

/// What comes of a packet that is to be delivered: why it is not, or what arrives of it. One that is cut short is ignored.
#[derive(Drop)]
enum Arrival {
    Refused(SkipReason),
    Comes(Option<Packet>),
}

#[tactic(auto, using(crate::proofs::Delivered::comes_whole, crate::proofs::Delivered::comes_cut))]
/// What arrives of a packet through its bytes, where all of them do, or the first so many.
fn arrived_whole(
    alloc: Global,
    buffer: &mut Vec<u8>,
    packet: &Packet,
    bytes: Option<u64>,
) -> Result<Option<Packet>, NoMemory>
    ensures { IfOk result (λ arrived. arrived ≡ scenes.arrived_whole bytes packet.now) }
{
    let from = packet.from;
    let to = packet.to;
    match arrive(alloc, buffer, &packet.payload, bytes)? {
        Some(payload) => Ok(Some(Packet { from, to, payload })),
        None => Ok(None),
    }
}

impl Scene {
    /// What comes of the packet with a number, where all of its bytes arrive, or the first so many.
    fn arrives(&mut self, number: u64, bytes: Option<u64>) -> Result<Arrival, NoMemory>
        requires ready { scenes.MayTakeStep self.old }
        ensures arrives { IfOk result (λ a. scenes.ArrivesAs self.old.world number bytes a) }
        ensures same { self.new ≡ self.old }
    {
        match self.bag.look(number, self.hosts.up()) {
            Ok(packet) => {
                let arrived = arrived_whole(self.alloc, &mut self.buffer, packet, bytes)?;
                Ok(Arrival::Comes(arrived))
            }
            Err(refused) => Ok(Arrival::Refused(reason_of(refused))),
        }
    }

    #[tactic(auto, using(crate::proofs::Delivered::mark_free))]
    /// A packet that can be delivered is marked.
    fn marks(&mut self, number: u64)
        requires { bags.take_refusal self.old.world.bag (worlds.up_nodes self.old.world) number ≡ None }
        ensures { self.new ≡ record self.old { world = record self.old.world { bag = bags.with_mark self.old.world.bag number } } }
    {
        let _marked = self.bag.mark(number);
    }

    #[tactic(auto, using(crate::proofs::Delivered::deliver_refused, crate::proofs::Delivered::deliver_taken, crate::proofs::Delivered::reachable))]
    /// A packet is delivered, or the first so many of its bytes: it is marked, and reaches its receiver whole or is ignored.
    pub(crate) fn delivers<S: NodeStore>(
        &mut self,
        stores: &mut Vec<S>,
        number: u64,
        bytes: Option<u64>,
        filters: &Filters,
    ) -> Result<Brought, NoMemory>
        requires ready { scenes.MayTakeStep self.old }
        requires stores { matching.StoresMatch self.old.world.hosts (matching.store_states_of S.told S.needs_load stores.old.items) }
        ensures does { IfOk result (λ b. scenes.Does self.new.world b (plans.delivers self.old.world number (scenes.is_whole bytes))) }
        ensures open { OnOk result (scenes.StaysOpen self.old self.new) }
        ensures history { self.new.world.history ≡ self.old.world.history }
        ensures stores { OnOk result (matching.StoresMatch self.new.world.hosts (matching.store_states_of S.told S.needs_load stores.new.items)) }
        ensures told { matching.AreTelling (matching.store_states_of S.told S.needs_load stores.old.items) → matching.AreTelling (matching.store_states_of S.told S.needs_load stores.new.items) }
    {
        match self.arrives(number, bytes)? {
            Arrival::Refused(reason) => self.skips(reason),
            Arrival::Comes(arrived) => {
                self.marks(number);
                self.takes(stores, arrived, filters)
            }
        }
    }

    /// What arrived of a packet reaches its receiver, or is ignored.
    fn takes<S: NodeStore>(
        &mut self,
        stores: &mut Vec<S>,
        arrived: Option<Packet>,
        filters: &Filters,
    ) -> Result<Brought, NoMemory>
        requires ready { scenes.MayTakeStep self.old }
        requires reachable { scenes.IsReachableBy self.old.world arrived }
        requires stores { matching.StoresMatch self.old.world.hosts (matching.store_states_of S.told S.needs_load stores.old.items) }
        ensures does { IfOk result (λ b. scenes.Does self.new.world b (scenes.taken self.old.world arrived)) }
        ensures open { OnOk result (scenes.StaysOpen self.old self.new) }
        ensures history { self.new.world.history ≡ self.old.world.history }
        ensures stores { OnOk result (matching.StoresMatch self.new.world.hosts (matching.store_states_of S.told S.needs_load stores.new.items)) }
        ensures told { matching.AreTelling (matching.store_states_of S.told S.needs_load stores.old.items) → matching.AreTelling (matching.store_states_of S.told S.needs_load stores.new.items) }
    {
        match arrived {
            Some(packet) => self.reaches(stores, packet, filters),
            None => Ok(self.shows_nothing()),
        }
    }

    /// A packet reaches its receiver.
    fn reaches<S: NodeStore>(
        &mut self,
        stores: &mut Vec<S>,
        packet: Packet,
        filters: &Filters,
    ) -> Result<Brought, NoMemory>
        requires ready { scenes.MayTakeStep self.old }
        requires reachable { scenes.IsReachable self.old.world packet.to }
        requires stores { matching.StoresMatch self.old.world.hosts (matching.store_states_of S.told S.needs_load stores.old.items) }
        ensures does { IfOk result (λ b. scenes.Does self.new.world b (plans.reaches self.old.world packet packet.to)) }
        ensures open { OnOk result (scenes.StaysOpen self.old self.new) }
        ensures history { self.new.world.history ≡ self.old.world.history }
        ensures stores { OnOk result (matching.StoresMatch self.new.world.hosts (matching.store_states_of S.told S.needs_load stores.new.items)) }
        ensures told { matching.AreTelling (matching.store_states_of S.told S.needs_load stores.old.items) → matching.AreTelling (matching.store_states_of S.told S.needs_load stores.new.items) }
    {
        let to = packet.to;
        match to {
            End::Node(node) => self.reaches_node(stores, node, packet),
            End::Client(client) => {
                let from = packet.from;
                self.receives_from(client, &packet.payload, from, filters)
            }
        }
    }

    #[tactic(auto, using(crate::proofs::Lifted::receives_from_client))]
    /// A packet reaches a client: it takes what comes from a node.
    fn receives_from(
        &mut self,
        client: ClientId,
        payload: &Payload,
        from: End,
        filters: &Filters,
    ) -> Result<Brought, NoMemory>
        requires ready { scenes.MayTakeStep self.old }
        ensures does { IfOk result (λ b. scenes.Does self.new.world b (plans.receives_from self.old.world client payload.now from (lists.at_place self.old.world.seats client))) }
        ensures open { OnOk result (scenes.StaysOpen self.old self.new) }
        ensures history { self.new.world.history ≡ self.old.world.history }
        ensures hosts { self.new.world.hosts ≡ self.old.world.hosts }
    {
        match from {
            End::Node(node) => self.receives(client, node, payload, filters),
            End::Client(_) => Ok(self.shows_nothing()),
        }
    }
}
