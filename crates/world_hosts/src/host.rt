ghost use Rattle.std.specs.Prelude.{◌≡◌, ◌↔◌, ◌-◌, ◌≤◌, [], true, false, length, IfOk, OnOk, OnErr, IsTrue};
ghost use Rattle.ax_types.specs.declared.entries.Loaded.{Loaded as KeptLoaded};
ghost use Rattle.ax_types.specs.declared.limits.TheConstants.{MAX_NODES, MAX_TIMEOUT};
ghost use Rattle.spec_node.specs.Node as raft_nodes;
ghost use Rattle.spec_node.specs.Saving as saving;
ghost use Rattle.spec_server.specs.Servers as servers;
ghost use Rattle.spec_server.specs.ServerStep as server_steps;
ghost use Rattle.spec_world.specs.Worlds as worlds;
ghost use Rattle.world_saves.specs.SaveChain as chains;
ghost use Rattle.world_saves.specs.Replacing as replacing;
ghost use Rattle.world_hosts.specs.HostViews as views;
ghost use Rattle.world_hosts.specs.HostSteps as host_steps;
ghost use Rattle.world_hosts.specs.StoresMatch as matching;
ghost use Rattle.world_hosts.specs.declared.host.Standing.TheVariants as standing;

use crate::conflicts::in_conflict;
use crate::served::Served;
use ax_types::limits::{MAX_LOADED, MAX_LOADED_TERM};
use ax_types::{
    Entry, List, Loaded, NoMemory, NodeId, Saves, ServerInput, ServerOut, StepOutcome, StoreError,
};
use server_node::ServerNode;
use std::alloc::Global;
use std::mem;
use store_journal::NodeStore;
use world_saves::{
    Replaced, SaveCall, SaveError, calls_before, entries_at_stake, kept_before, save_all,
};

/// The server of a node that is up; of one that is down what it keeps, and of an `add` that failed the entries of which some
/// may have stayed in its store.
#[derive(Drop)]
pub enum Standing {
    Up { server: ServerNode },
    Down { kept: Loaded, at_stake: List<Entry> },
}

/// A node: its clock, in units of log time, and how it stands.
#[derive(Drop)]
pub struct Host {
    pub clock: u64,
    pub standing: Standing,
}

impl Host {
    /// A node that is up, to which nothing has happened.
    pub(crate) fn new(alloc: Global, me: NodeId, nodes: u8, timeout: u64) -> Self
        requires member { me ≤ nodes }
        requires within { nodes ≤ MAX_NODES }
        requires low { 1 ≤ timeout }
        requires high { timeout ≤ MAX_TIMEOUT }
        ensures { result ≡ record { clock = 0; standing = standing.Up (record { server = servers.new_server me nodes timeout; is_spent = false }) } }
    {
        Host {
            clock: 0,
            standing: Standing::Up {
                server: ServerNode::new(alloc, me, nodes, timeout),
            },
        }
    }

    /// Whether the node is up.
    pub(crate) fn is_up(&self) -> bool
        ensures { result ≡ views.stands_up self.now.standing }
    {
        matches!(self.standing, Standing::Up { .. })
    }

    /// Whether the node is up and leads.
    pub(crate) fn leads(&self) -> bool
        ensures { result ≡ servers.leads (views.server_of 0 0 0 self.now.standing) }
    {
        match &self.standing {
            Standing::Up { server } => server.is_leader(),
            Standing::Down { .. } => false,
        }
    }

    /// The term of a node that is up and leads, 0 of another one.
    pub(crate) fn leading_term(&self) -> u64
        ensures { result ≡ views.leading_term self.now.standing }
    {
        match &self.standing {
            Standing::Up { server } => { if server.is_leader() { server.term() } else { 0 } }
            Standing::Down { .. } => 0,
        }
    }

    /// Takes what the node keeps, and leaves a node that is down.
    fn take_kept(&mut self, alloc: Global) -> Loaded
        ensures kept { result ≡ views.kept_for_sure self.old.standing }
        ensures clock { self.new.clock ≡ self.old.clock }
        ensures down { views.stands_up self.new.standing ≡ false }
    {
        let nothing = Standing::Down {
            kept: Loaded {
                term: 0,
                vote: None,
                log: List::new(alloc),
            },
            at_stake: List::new(alloc),
        };
        match mem::replace(&mut self.standing, nothing) {
            Standing::Up { server } => server.into_kept(),
            Standing::Down { kept, .. } => kept,
        }
    }

    /// The node goes down, with all that it keeps in its store.
    pub(crate) fn fall(&mut self, alloc: Global)
        ensures { self.new ≡ record { clock = self.old.clock; standing = standing.Down (views.kept_for_sure self.old.standing) [] } }
    {
        let kept = self.take_kept(alloc);
        self.standing = Standing::Down {
            kept,
            at_stake: List::new(alloc),
        };
    }

    /// The node goes down where one of the store calls of a step failed, behind which its server stands.
    fn halt(
        &mut self,
        alloc: Global,
        call: SaveCall,
        saves: Saves,
        replaced: Replaced,
    ) -> Result<(), NoMemory>
        requires made { chains.has_call call saves ≡ true }
        ensures halted { OnOk result ((kept : KeptLoaded) → replacing.LeadsTo kept saves replaced (views.kept_for_sure self.old.standing) → self.new ≡ host_steps.halted_host self.old kept (saving.calls_of saves) (chains.saves_before call saves)) }
        ensures memory { OnErr result (chains.leaves_nothing call ≡ true) }
    {
        let after = self.take_kept(alloc);
        let kept = kept_before(call, after, &saves, replaced)?;
        let at_stake = entries_at_stake(alloc, call, saves);
        self.standing = Standing::Down { kept, at_stake };
        Ok(())
    }

    /// The same, and the answer to the step.
    fn fall_at(
        &mut self,
        alloc: Global,
        call: SaveCall,
        saves: Saves,
        replaced: Replaced,
    ) -> Result<Served, NoMemory>
        requires made { chains.has_call call saves ≡ true }
        ensures fallen { IfOk result (λ served. host_steps.FallsAt self.old saves replaced self.new call served) }
        ensures memory { OnErr result (chains.leaves_nothing call ≡ true) }
    {
        let saved = calls_before(call, &saves);
        self.halt(alloc, call, saves, replaced)?;
        Ok(Served::Failed { saved })
    }

    /// One step of a node that is up: what it saves is kept in its store, before anything else of it counts. Where a store
    /// call fails the node goes down.
    pub(crate) fn serve<S: NodeStore>(
        &mut self,
        alloc: Global,
        store: &mut S,
        input: &ServerInput,
    ) -> Result<Served, NoMemory>
        requires may { host_steps.MayBeServed self.old.standing input.now }
        requires matches { host_steps.MatchesStore self.old.standing (S.told store.old) (S.needs_load store.old) }
        ensures served { IfOk result (λ served. host_steps.ServesAs self.old input.now self.new served) }
        ensures matches { OnOk result (host_steps.MatchesStore self.new.standing (S.told store.new) (S.needs_load store.new)) }
        ensures part { OnErr result (chains.IsSomeOf (saving.calls_of (server_steps.server_out (host_steps.server_in self.old.standing) input.now).saves) (S.told store.old) (S.told store.new)) }
        ensures tells { matching.Tells (S.told store.old) → matching.Tells (S.told store.new) }
    {
        let replaced = self.replaced_by(alloc, input)?;
        let out = self.step(input)?;
        self.keep(alloc, store, out, replaced)
    }

    /// What a step of a node that is up may replace of what it keeps.
    fn replaced_by(&self, alloc: Global, input: &ServerInput) -> Result<Replaced, NoMemory>
        requires { host_steps.MayBeServed self.now.standing input.now }
        ensures { IfOk result (λ replaced. host_steps.IsReplacedBy (host_steps.server_in self.now.standing) input.now replaced) }
    {
        match &self.standing {
            Standing::Up { server } => replaced_at(alloc, server, input),
            Standing::Down { .. } => unreachable!(),
        }
    }

    /// The step of the server of a node that is up.
    fn step(&mut self, input: &ServerInput) -> Result<ServerOut, NoMemory>
        requires { host_steps.MayBeServed self.old.standing input.now }
        ensures out { IfOk result (λ out. out ≡ server_steps.server_out (host_steps.server_in self.old.standing) input.now) }
        ensures after { OnOk result (self.new ≡ host_steps.served_host self.old input.now) }
    {
        match &mut self.standing {
            Standing::Up { server } => step_server(server, input),
            Standing::Down { .. } => unreachable!(),
        }
    }

    /// Keeps in its store what a step of the node saves. Where a store call fails the node goes down.
    #[tactic(auto, using(crate::proofs::Falling::fell, world_saves::proofs::ChainCases::part_failed))]
    fn keep<S: NodeStore>(
        &mut self,
        alloc: Global,
        store: &mut S,
        out: ServerOut,
        replaced: Replaced,
    ) -> Result<Served, NoMemory>
        requires loaded { S.needs_load store.old ≡ false }
        requires within { chains.CutsWithinTold out.saves.cut (S.told store.old) }
        ensures kept { IfOk result (λ served. host_steps.KeepsOrFalls self.old out replaced self.new (S.told store.old) (S.told store.new) (S.needs_load store.new) served) }
        ensures part { OnErr result (chains.IsSomeOf (saving.calls_of out.saves) (S.told store.old) (S.told store.new)) }
    {
        match save_all(store, &out.saves) {
            Ok(()) => Ok(Served::Fine { out }),
            Err(SaveError::NoMemory) => Err(NoMemory),
            Err(SaveError::Failed { call }) => self.fall_at(alloc, call, saves_of(out), replaced),
        }
    }

    /// Loads the store of a node that is down, which then comes up, unless the load failed.
    pub(crate) fn load<S: NodeStore>(
        &mut self,
        alloc: Global,
        me: NodeId,
        nodes: u8,
        timeout: u64,
        store: &mut S,
    ) -> Result<StepOutcome, NoMemory>
        requires down { views.stands_up self.old.standing ≡ false }
        requires member { me ≤ nodes }
        requires within { nodes ≤ MAX_NODES }
        requires low { 1 ≤ timeout }
        requires high { timeout ≤ MAX_TIMEOUT }
        requires matches { host_steps.MatchesStore self.old.standing (S.told store.old) (S.needs_load store.old) }
        ensures loaded { IfOk result (λ o. host_steps.LoadsAs nodes timeout me (S.told store.old) self.old self.new o) }
        ensures matches { OnOk result (host_steps.MatchesStore self.new.standing (S.told store.new) (S.needs_load store.new)) }
        ensures told { S.told store.new ≡ S.told store.old }
    {
        let Some(loaded) = load_store(store)? else {
            return Ok(StepOutcome::Failed { saved: 0 });
        };
        let added = self.added_in(&loaded);
        self.standing = Standing::Up {
            server: ServerNode::restart(alloc, me, nodes, timeout, loaded),
        };
        Ok(StepOutcome::Loaded { added })
    }

    /// How many entries what was loaded has beyond those that the node keeps for sure.
    fn added_in(&self, loaded: &Loaded) -> u64
        ensures { result ≡ length loaded.now.log - length (views.kept_for_sure self.now.standing).log }
    {
        let kept = match &self.standing {
            Standing::Up { server } => server.log().len(),
            Standing::Down { kept, .. } => kept.log.len(),
        };
        loaded.log.len().saturating_sub(kept) as u64
    }
}

/// What a server's step gives to be kept.
fn saves_of(out: ServerOut) -> Saves
    ensures { result ≡ out.saves }
{
    out.saves
}

/// What a step of a server may replace of what its node keeps.
fn replaced_at(
    alloc: Global,
    server: &ServerNode,
    input: &ServerInput,
) -> Result<Replaced, NoMemory>
    ensures { IfOk result (λ replaced. host_steps.IsReplacedBy server.now.server input.now replaced) }
{
    Ok(Replaced {
        term: server.term(),
        vote: server.vote(),
        cut_off: in_conflict(alloc, server.log(), input)?,
    })
}

/// One step of a server. A candidacy in the greatest term counts as want of memory.
#[tactic(auto, using(crate::proofs::ServedHosts::may_step))]
fn step_server(server: &mut ServerNode, input: &ServerInput) -> Result<ServerOut, NoMemory>
    requires whole { server.old.is_spent ≡ false }
    requires fits { host_steps.FitsStep server.old.server input.now }
    ensures out { IfOk result (λ out. out ≡ server_steps.server_out server.old.server input.now) }
    ensures after { OnOk result (server.new ≡ record { server = server_steps.server_after server.old.server input.now; is_spent = false }) }
{
    if is_last_election(server, input) {
        return Err(NoMemory);
    }
    server.step(input)
}

/// Whether a server would stand for election in a term above the greatest one.
fn is_last_election(server: &ServerNode, input: &ServerInput) -> bool
    ensures last { IsTrue result ↔ host_steps.IsLastElection server.now.server input.now }
    ensures below { result ≡ false → host_steps.IsBelowLast server.now.server input.now }
{
    match input {
        ServerInput::Elect { .. } => server.term() == u64::MAX,
        _ => false,
    }
}

/// What a store holds, none where the load failed: one of more than the greatest term or the most entries counts as failed.
fn load_store<S: NodeStore>(store: &mut S) -> Result<Option<Loaded>, NoMemory>
    ensures loaded { IfOk result (λ loaded. host_steps.LoadGives (S.told store.old) loaded) }
    ensures told { S.told store.new ≡ S.told store.old }
    ensures ready { IfOk result (λ loaded. host_steps.ReadyIfLoaded loaded (S.needs_load store.new)) }
{
    match store.load() {
        Ok(loaded) => Ok(if_loadable(loaded)),
        Err(StoreError::NoMemory) => Err(NoMemory),
        Err(_) => Ok(None),
    }
}

/// What was loaded, unless it is more than counts.
fn if_loadable(loaded: Loaded) -> Option<Loaded>
    ensures { result ≡ host_steps.if_loadable loaded }
{
    if loaded.term <= MAX_LOADED_TERM && loaded.log.len() as u64 <= MAX_LOADED {
        Some(loaded)
    } else {
        None
    }
}
