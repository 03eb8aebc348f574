ghost use Rattle.std.specs.Prelude.{◌≡◌, ◌≤◌, ◌<◌, ◌+◌, ◌++◌, ◌∷◌, [], suc, false, length, vec_len, vec_capacity, IfOk, OnOk, OnErr};
ghost use Rattle.ax_types.specs.Places as lists;
ghost use Rattle.ax_types.specs.declared.limits.TheConstants.{MAX_NODES, MAX_CLIENTS, MAX_TIMEOUT, MAX_STEPS};
ghost use Rattle.spec_world.specs.Worlds as worlds;
ghost use Rattle.world_hosts.specs.StoresMatch as matching;
ghost use Rattle.ax_world.specs.OpenWorlds as open_worlds;
ghost use Rattle.ax_world.specs.Scenes as scenes;
ghost use Rattle.ax_world.specs.StandingRuns as standing;

use crate::brought::Brought;
use crate::scene::Scene;
use ax_types::{Act, ClientId, ClientState, Duplicate, Item, KeptStep, NoMemory, NodeId, Step};
use std::alloc::Global;
use std::marker::Model;
use store_journal::NodeStore;
use watch_hooks::Filters;

/// A run: its world, the steps that were made with how the stores fared in them, and the items that they showed. After want of
/// memory in a step it is spent: what it showed, its history and its steps are as before, and no further step is made.
#[derive(Drop)]
pub struct World {
    scene: Scene,
    kept: Vec<KeptStep>,
    transcript: Vec<Item>,
    is_spent: bool,
}

impl Model for World {
    ghost use Rattle.std.specs.Prelude.{◌≡◌, false};
    ghost use Rattle.ax_world.specs.OpenWorlds as open_worlds;

    ghost Value = { open_worlds.OpenWorld };

    ghost view = { λ a. record { world = a.scene.world; kept = a.kept.items; transcript = a.transcript.items; is_spent = a.is_spent } };

    ghost invariant = { λ a. a.is_spent ≡ false → open_worlds.IsSoundRun a.scene a.kept.items };
}

/// Items are put behind a list that has room for them.
fn append_reserved<T: Drop>(list: &mut Vec<T>, more: Vec<T>)
    requires { vec_len list.old + vec_len more ≤ vec_capacity list.old }
    ensures { list.new.items ≡ list.old.items ++ more.items }
{
    let mut rest = more;
    let Ok(()) = list.append(&mut rest) else {
        unreachable!()
    };
}

/// Room for so many acts and items and for one step more. What the lists hold stays.
fn make_room(
    history: &mut Vec<(u64, Act)>,
    kept: &mut Vec<KeptStep>,
    transcript: &mut Vec<Item>,
    acts: usize,
    items: usize,
) -> Result<(), NoMemory>
    ensures history { history.new.items ≡ history.old.items }
    ensures kept { kept.new.items ≡ kept.old.items }
    ensures transcript { transcript.new.items ≡ transcript.old.items }
    ensures for_acts { OnOk result (vec_len history.new + acts ≤ vec_capacity history.new) }
    ensures for_step { OnOk result (vec_len kept.new + 1 ≤ vec_capacity kept.new) }
    ensures for_items { OnOk result (vec_len transcript.new + items ≤ vec_capacity transcript.new) }
{
    history.reserve(acts)?;
    kept.reserve(1)?;
    transcript.reserve(items)?;
    Ok(())
}

/// A step is kept with what it brought, or nothing after want of memory.
fn keep(
    history: &mut Vec<(u64, Act)>,
    kept: &mut Vec<KeptStep>,
    transcript: &mut Vec<Item>,
    step: Step,
    brought: Brought,
) -> Result<(), NoMemory>
    ensures history { OnOk result (history.new.items ≡ history.old.items ++ brought.acts) }
    ensures kept { OnOk result (kept.new.items ≡ kept.old.items ++ record { step = step; outcome = brought.outcome } ∷ []) }
    ensures transcript { OnOk result (transcript.new.items ≡ transcript.old.items ++ brought.items) }
    ensures same_history { OnErr result (history.new.items ≡ history.old.items) }
    ensures same_kept { OnErr result (kept.new.items ≡ kept.old.items) }
    ensures same_transcript { OnErr result (transcript.new.items ≡ transcript.old.items) }
{
    let Brought {
        items,
        acts,
        outcome,
    } = brought;
    make_room(history, kept, transcript, acts.len(), items.len())?;
    append_reserved(history, acts.into_vec());
    append_reserved(transcript, items.into_vec());
    kept.push_reserved(KeptStep { step, outcome });
    Ok(())
}

/// A step is made and kept with what it brought.
fn make<S: NodeStore>(
    scene: &mut Scene,
    kept: &mut Vec<KeptStep>,
    transcript: &mut Vec<Item>,
    stores: &mut Vec<S>,
    step: &Step,
    filters: &Filters,
) -> Result<(), NoMemory>
    requires ready { scenes.MayTakeStep scene.old }
    requires stores { matching.StoresMatch scene.old.world.hosts (matching.store_states_of S.told S.needs_load stores.old.items) }
    ensures made { matching.AreTelling (matching.store_states_of S.told S.needs_load stores.old.items)
        → OnOk result (open_worlds.IsMade scene.old.world step.now scene.new.world kept.old.items kept.new.items transcript.old.items transcript.new.items) }
    ensures open { OnOk result (scenes.StaysOpen scene.old scene.new) }
    ensures grows { OnOk result (length kept.new.items ≡ suc (length kept.old.items)) }
    ensures stores { OnOk result (matching.StoresMatch scene.new.world.hosts (matching.store_states_of S.told S.needs_load stores.new.items)) }
    ensures told { matching.AreTelling (matching.store_states_of S.told S.needs_load stores.old.items) → matching.AreTelling (matching.store_states_of S.told S.needs_load stores.new.items) }
    ensures same_history { OnErr result (scene.new.world.history ≡ scene.old.world.history) }
    ensures same_kept { OnErr result (kept.new.items ≡ kept.old.items) }
    ensures same_transcript { OnErr result (transcript.new.items ≡ transcript.old.items) }
{
    let made = step.copy()?;
    let brought = scene.step(stores, step, filters)?;
    keep(&mut scene.history, kept, transcript, made, brought)
}

impl World {
    #[tactic(auto, using(crate::proofs::StandsStep::is_reached))]
    /// A run of a cluster of 1 to 9 nodes with up to 16 clients, before its first step. A session may be ended after `timeout`
    /// units of log time without a sign (Ongaro 2014, 6.3).
    pub fn open(alloc: Global, nodes: u8, clients: u8, timeout: u64) -> Result<World, NoMemory>
        requires some { 1 ≤ nodes }
        requires nodes { nodes ≤ MAX_NODES }
        requires clients { clients ≤ MAX_CLIENTS }
        requires low { 1 ≤ timeout }
        requires high { timeout ≤ MAX_TIMEOUT }
        ensures opened { IfOk result (λ world. world ≡ open_worlds.opened nodes clients timeout) }
        ensures reached { IfOk result (λ world. standing.IsReachedRun nodes clients timeout world) }
    {
        Ok(World {
            scene: Scene::new(alloc, nodes, clients, timeout)?,
            kept: Vec::new(alloc),
            transcript: Vec::new(alloc),
            is_spent: false,
        })
    }

    #[tactic(auto, using(crate::proofs::StandsStep::leads_on))]
    /// One step. The stores are those of the nodes, as the last step left them, before the first one empty and loaded. A node or
    /// a client that is not of the cluster does nothing. After want of memory the run is spent.
    pub fn step<S: NodeStore>(
        &mut self,
        stores: &mut Vec<S>,
        step: &Step,
        filters: &Filters,
    ) -> Result<(), NoMemory>
        requires whole { self.old.is_spent ≡ false }
        requires room { length self.old.kept < MAX_STEPS }
        requires stores { matching.StoresMatch self.old.world.hosts (matching.store_states_of S.told S.needs_load stores.old.items) }
        ensures made { matching.AreTelling (matching.store_states_of S.told S.needs_load stores.old.items) → OnOk result (open_worlds.MakesStep self.old step.now self.new) }
        // The headline after each step: where steps led to this run from empty stores, they lead on to one whose transcript is faithful
        // to its history and hands out once, and whose stores keep that history.
        ensures stands { matching.AreTelling (matching.store_states_of S.told S.needs_load stores.old.items)
            → OnOk result (standing.LeadsToStanding self.old self.new (matching.store_states_of S.told S.needs_load stores.new.items)) }
        ensures whole { OnOk result (self.new.is_spent ≡ false) }
        ensures grows { OnOk result (length self.new.kept ≡ suc (length self.old.kept)) }
        ensures stores { OnOk result (matching.StoresMatch self.new.world.hosts (matching.store_states_of S.told S.needs_load stores.new.items)) }
        ensures told { matching.AreTelling (matching.store_states_of S.told S.needs_load stores.old.items) → matching.AreTelling (matching.store_states_of S.told S.needs_load stores.new.items) }
        ensures err { OnErr result (open_worlds.StaysShown self.old self.new) }
    {
        self.is_spent = true;
        make(
            &mut self.scene,
            &mut self.kept,
            &mut self.transcript,
            stores,
            step,
            filters,
        )?;
        self.is_spent = false;
        Ok(())
    }

    /// The number of the packet that a flush delivers next: the first one that waits and that nothing hinders.
    pub fn flush_next(&self) -> Option<u64>
        requires { self.now.is_spent ≡ false }
        ensures { result ≡ worlds.flush_next self.now.world }
    {
        self.scene.bag.next_up(self.scene.hosts.up())
    }

    /// The leader of the greatest term among the nodes that are up.
    pub fn leader_now(&self) -> Option<NodeId>
        ensures { result ≡ worlds.leader_now self.now.world }
    {
        self.scene.hosts.leader_now()
    }

    /// Whether a node is of the cluster and up.
    pub fn is_up(&self, node: NodeId) -> bool
        ensures { result ≡ worlds.is_up self.now.world node }
    {
        self.scene.has_node(node) && self.scene.hosts.is_up(node)
    }

    /// The state of a client of the cluster.
    pub fn client_state(&self, client: ClientId) -> ClientState
        ensures { result ≡ worlds.client_state self.now.world client }
    {
        if !self.scene.has_client(client) {
            return ClientState::NoneYet;
        }
        self.scene.seats.state(client)
    }

    /// The time and the act of each committed place, the place 1 first.
    pub fn history(&self) -> &[(u64, Act)]
        ensures { result.now ≡ self.now.world.history }
    {
        self.scene.history.as_slice()
    }

    /// The steps that were made.
    pub fn kept(&self) -> &[KeptStep]
        ensures { result.now ≡ self.now.kept }
    {
        self.kept.as_slice()
    }

    /// The items of all steps.
    pub fn transcript(&self) -> &[Item]
        ensures { result.now ≡ self.now.transcript }
    {
        self.transcript.as_slice()
    }

    /// The items of all steps, and the history.
    pub fn into_shown(self) -> (Vec<Item>, Vec<(u64, Act)>)
        ensures items { result.0.items ≡ self.transcript }
        ensures history { result.1.items ≡ self.world.history }
    {
        (self.transcript, self.scene.history)
    }
}
