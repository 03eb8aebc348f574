ghost use Rattle.std.specs.Prelude.{◌≡◌, IfOk, OnOk};
ghost use Rattle.ax_types.specs.Places as lists;
ghost use Rattle.ax_types.specs.declared.ids.End.TheVariants as end;
ghost use Rattle.ax_types.specs.declared.steps.Step.TheVariants as steps;
ghost use Rattle.spec_cluster.specs.Bag as bags;
ghost use Rattle.spec_world.specs.Plans as plans;
ghost use Rattle.ax_world.specs.Scenes as scenes;

use crate::brought::Brought;
use crate::scene::Scene;
use crate::sending::send_all;
use ax_types::{ClientId, Level, Name, NoMemory, NodeId, Op, Payload, Query, WatchKind};
use watch_hooks::Filters;
use world_seats::SeatStep;

impl Scene {
    /// What a client's step sends goes into the network.
    fn client_served(&mut self, step: SeatStep) -> Result<Brought, NoMemory>
        ensures brought { IfOk result (λ b. b ≡ scenes.only_shown step.items) }
        ensures after { OnOk result (self.new ≡ record self.old { world = record self.old.world { bag = bags.with_packets self.old.world.bag step.packets } }) }
        ensures history { self.new.world.history ≡ self.old.world.history }
        ensures hosts { self.new.world.hosts ≡ self.old.world.hosts }
    {
        send_all(&mut self.bag, step.packets)?;
        Ok(Brought::shown(self.alloc, step.items))
    }

    #[tactic(auto, using(crate::proofs::Lifted::asks_none, crate::proofs::Lifted::asks_some))]
    /// A client opens a session at a node.
    pub(crate) fn opens(&mut self, client: ClientId, node: NodeId) -> Result<Brought, NoMemory>
        requires ready { scenes.MayTakeStep self.old }
        ensures does { IfOk result (λ b. scenes.Does self.new.world b (plans.plan self.old.world (steps.Open client node))) }
        ensures open { OnOk result (scenes.StaysOpen self.old self.new) }
        ensures history { self.new.world.history ≡ self.old.world.history }
        ensures hosts { self.new.world.hosts ≡ self.old.world.hosts }
    {
        if !self.has_client(client) {
            return Ok(self.shows_nothing());
        }
        let step = self.seats.open_session(client, node)?;
        self.client_served(step)
    }

    #[tactic(auto, using(crate::proofs::Lifted::asks_none, crate::proofs::Lifted::asks_some))]
    /// A client goes on with another node.
    pub(crate) fn switches(&mut self, client: ClientId, node: NodeId) -> Result<Brought, NoMemory>
        requires ready { scenes.MayTakeStep self.old }
        ensures does { IfOk result (λ b. scenes.Does self.new.world b (plans.plan self.old.world (steps.Switch client node))) }
        ensures open { OnOk result (scenes.StaysOpen self.old self.new) }
        ensures history { self.new.world.history ≡ self.old.world.history }
        ensures hosts { self.new.world.hosts ≡ self.old.world.hosts }
    {
        if !self.has_client(client) {
            return Ok(self.shows_nothing());
        }
        let step = self.seats.switch(client, node)?;
        self.client_served(step)
    }

    #[tactic(auto, using(crate::proofs::Lifted::asks_none, crate::proofs::Lifted::asks_some))]
    /// A client sends again what may have been lost.
    pub(crate) fn resends(&mut self, client: ClientId) -> Result<Brought, NoMemory>
        requires ready { scenes.MayTakeStep self.old }
        ensures does { IfOk result (λ b. scenes.Does self.new.world b (plans.plan self.old.world (steps.Resend client))) }
        ensures open { OnOk result (scenes.StaysOpen self.old self.new) }
        ensures history { self.new.world.history ≡ self.old.world.history }
        ensures hosts { self.new.world.hosts ≡ self.old.world.hosts }
    {
        if !self.has_client(client) {
            return Ok(self.shows_nothing());
        }
        let step = self.seats.resend(client)?;
        self.client_served(step)
    }

    #[tactic(auto, using(crate::proofs::Lifted::asks_none, crate::proofs::Lifted::asks_some))]
    /// A client gives a sign of life.
    pub(crate) fn keeps(&mut self, client: ClientId) -> Result<Brought, NoMemory>
        requires ready { scenes.MayTakeStep self.old }
        ensures does { IfOk result (λ b. scenes.Does self.new.world b (plans.plan self.old.world (steps.Keep client))) }
        ensures open { OnOk result (scenes.StaysOpen self.old self.new) }
        ensures history { self.new.world.history ≡ self.old.world.history }
        ensures hosts { self.new.world.hosts ≡ self.old.world.hosts }
    {
        if !self.has_client(client) {
            return Ok(self.shows_nothing());
        }
        let step = self.seats.keep(client)?;
        self.client_served(step)
    }

    #[tactic(auto, using(crate::proofs::Lifted::asks_none, crate::proofs::Lifted::asks_some))]
    /// A client closes its session.
    pub(crate) fn closes(&mut self, client: ClientId) -> Result<Brought, NoMemory>
        requires ready { scenes.MayTakeStep self.old }
        ensures does { IfOk result (λ b. scenes.Does self.new.world b (plans.plan self.old.world (steps.Close client))) }
        ensures open { OnOk result (scenes.StaysOpen self.old self.new) }
        ensures history { self.new.world.history ≡ self.old.world.history }
        ensures hosts { self.new.world.hosts ≡ self.old.world.hosts }
    {
        if !self.has_client(client) {
            return Ok(self.shows_nothing());
        }
        let step = self.seats.close(client)?;
        self.client_served(step)
    }

    #[tactic(auto, using(crate::proofs::Lifted::watches_none, crate::proofs::Lifted::watches_some))]
    /// A watch is set at a client, once.
    pub(crate) fn watches(&mut self, client: ClientId, kind: WatchKind) -> Result<Brought, NoMemory>
        requires ready { scenes.MayTakeStep self.old }
        ensures does { IfOk result (λ b. scenes.Does self.new.world b (plans.plan self.old.world (steps.Watch client kind))) }
        ensures open { OnOk result (scenes.StaysOpen self.old self.new) }
        ensures history { self.new.world.history ≡ self.old.world.history }
        ensures hosts { self.new.world.hosts ≡ self.old.world.hosts }
    {
        if !self.has_client(client) {
            return Ok(self.shows_nothing());
        }
        let step = self.seats.watch(client, kind)?;
        self.client_served(step)
    }

    #[tactic(auto, using(crate::proofs::Lifted::calls_none, crate::proofs::Lifted::calls_some))]
    /// A client calls a command.
    pub(crate) fn calls(
        &mut self,
        client: ClientId,
        name: &Name,
        op: &Op,
    ) -> Result<Brought, NoMemory>
        requires ready { scenes.MayTakeStep self.old }
        ensures does { IfOk result (λ b. scenes.Does self.new.world b (plans.plan self.old.world (steps.Call client name.now op.now))) }
        ensures open { OnOk result (scenes.StaysOpen self.old self.new) }
        ensures history { self.new.world.history ≡ self.old.world.history }
        ensures hosts { self.new.world.hosts ≡ self.old.world.hosts }
    {
        if !self.has_client(client) {
            return Ok(self.shows_nothing());
        }
        let step = self.seats.call(client, name, op)?;
        self.client_served(step)
    }

    #[tactic(auto, using(crate::proofs::Lifted::calls_none, crate::proofs::Lifted::calls_some))]
    /// A client calls a query.
    pub(crate) fn queries(
        &mut self,
        client: ClientId,
        level: Level,
        name: &Name,
        query: &Query,
    ) -> Result<Brought, NoMemory>
        requires ready { scenes.MayTakeStep self.old }
        ensures does { IfOk result (λ b. scenes.Does self.new.world b (plans.plan self.old.world (steps.Query client level name.now query.now))) }
        ensures open { OnOk result (scenes.StaysOpen self.old self.new) }
        ensures history { self.new.world.history ≡ self.old.world.history }
        ensures hosts { self.new.world.hosts ≡ self.old.world.hosts }
    {
        if !self.has_client(client) {
            return Ok(self.shows_nothing());
        }
        let step = self.seats.query(client, level, name, query)?;
        self.client_served(step)
    }

    #[tactic(auto, using(crate::proofs::Lifted::receives_none, crate::proofs::Lifted::receives_some))]
    /// A client takes a payload from a node, or ignores it.
    pub(crate) fn receives(
        &mut self,
        client: ClientId,
        from: NodeId,
        payload: &Payload,
        filters: &Filters,
    ) -> Result<Brought, NoMemory>
        requires ready { scenes.MayTakeStep self.old }
        ensures does { IfOk result (λ b. scenes.Does self.new.world b (plans.receives_from self.old.world client payload.now (end.Node from) (lists.at_place self.old.world.seats client))) }
        ensures open { OnOk result (scenes.StaysOpen self.old self.new) }
        ensures history { self.new.world.history ≡ self.old.world.history }
        ensures hosts { self.new.world.hosts ≡ self.old.world.hosts }
    {
        if !self.has_client(client) {
            return Ok(self.shows_nothing());
        }
        let step = self.seats.receive(client, from, payload, filters)?;
        self.client_served(step)
    }
}
