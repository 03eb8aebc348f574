ghost use Rattle.std.specs.Prelude.{◌≡◌, ◌≤◌, ◌<◌, ◌^◌, suc, true, false, length, map, IfOk, OnOk, OnErr};
ghost use Rattle.ax_types.specs.Places as lists;
ghost use Rattle.ax_types.specs.declared.limits.TheConstants.{MAX_CLIENTS};
ghost use Rattle.ax_types.specs.declared.steps.Step.TheVariants as step;
ghost use Rattle.spec_raft.specs.Majority as majorities;
ghost use Rattle.spec_world.specs.Worlds as worlds;
ghost use Rattle.world_seats.specs.SeatPlans as plans;
ghost use Rattle.world_seats.specs.Seated as seated;

use crate::given::SeatStep;
use crate::seat::Seat;
use ax_types::{
    ClientId, ClientState, Level, Name, NoMemory, NodeId, Op, Payload, Query, WatchKind,
};
use std::alloc::Global;
use std::marker::Model;
use watch_hooks::Filters;

/// The clients of a world by number, each with its watches. Contracts see the list of them, how many calls changed it, fewer
/// than 2^32 before each, and whether it is spent: after want of memory in a step it is, and no further step is made.
#[derive(Drop)]
pub struct Seats {
    alloc: Global,
    seats: Vec<Seat>,
    calls: u64,
    is_spent: bool,
}

impl Model for Seats {
    ghost use Rattle.std.specs.Prelude.{map};
    ghost use Rattle.world_seats.specs.SeatPlans as plans;
    ghost use Rattle.world_seats.specs.Seated as seated;

    ghost Value = { plans.CountedSeats };

    ghost view = { λ a. record { seats = map (λ s. s.watcher) a.seats.items; calls = a.calls; is_spent = a.is_spent } };

    ghost invariant = { λ a. seated.AreSeated a.seats.items a.calls a.is_spent };
}

#[tactic(auto, using(crate::proofs::Opening::one_more))]
/// Clients that have no session yet and no watches, numbered from 1.
fn first_seats(alloc: Global, clients: u8) -> Result<Vec<Seat>, NoMemory>
    requires { clients ≤ MAX_CLIENTS }
    ensures { IfOk result (λ seats. seats.items ≡ seated.first_seats clients) }
{
    let mut seats = Vec::with_capacity(alloc, clients as usize)?;
    'clients: for count in 0..clients {
        match ClientId::new(count + 1) {
            Some(me) => seats.push(Seat::new(alloc, me))?,
            None => unreachable!(),
        }
    }
    Ok(seats)
}

/// Where a client's seat is.
fn index_of(client: ClientId) -> usize
    ensures { suc result ≡ client }
{
    client.number() as usize - 1
}

impl Seats {
    #[tactic(auto, using(crate::proofs::Opening::new_seated, crate::proofs::Opening::new_watchers))]
    /// Clients that have no session yet and no watches, numbered from 1.
    pub fn open(alloc: Global, clients: u8) -> Result<Self, NoMemory>
        requires { clients ≤ MAX_CLIENTS }
        ensures { IfOk result (λ seats. seats ≡ record { seats = map worlds.new_watcher (majorities.cluster_of clients); calls = 0; is_spent = false }) }
    {
        let seats = first_seats(alloc, clients)?;
        Ok(Seats {
            alloc,
            seats,
            calls: 0,
            is_spent: false,
        })
    }

    /// How many clients there are.
    pub fn count(&self) -> usize
        ensures { result ≡ length self.now.seats }
    {
        self.seats.len()
    }

    /// The state of a client.
    pub fn state(&self, client: ClientId) -> ClientState
        requires { client ≤ length self.now.seats }
        ensures { result ≡ worlds.state_in (lists.at_place self.now.seats client) }
    {
        self.seats[index_of(client)].state()
    }

    /// A client opens a session at a node, or skips it.
    pub fn open_session(&mut self, client: ClientId, node: NodeId) -> Result<SeatStep, NoMemory>
        requires whole { self.old.is_spent ≡ false }
        requires room { self.old.calls < 2 ^ 32 }
        requires known { client ≤ length self.old.seats }
        ensures ok { IfOk result (λ s. s ≡ plans.seat_step_of (plans.plan_at self.old (step.Open client node))) }
        ensures after { OnOk result (self.new ≡ plans.seats_after self.old (plans.plan_at self.old (step.Open client node))) }
        ensures err { OnErr result (self.new.is_spent ≡ true) }
    {
        self.is_spent = true;
        self.calls += 1;
        let seat = &mut self.seats[index_of(client)];
        let step = seat.open(self.alloc, client, node)?;
        self.is_spent = false;
        Ok(step)
    }

    /// A client goes on with another node.
    pub fn switch(&mut self, client: ClientId, node: NodeId) -> Result<SeatStep, NoMemory>
        requires whole { self.old.is_spent ≡ false }
        requires room { self.old.calls < 2 ^ 32 }
        requires known { client ≤ length self.old.seats }
        ensures ok { IfOk result (λ s. s ≡ plans.seat_step_of (plans.plan_at self.old (step.Switch client node))) }
        ensures after { OnOk result (self.new ≡ plans.seats_after self.old (plans.plan_at self.old (step.Switch client node))) }
        ensures err { OnErr result (self.new.is_spent ≡ true) }
    {
        self.is_spent = true;
        self.calls += 1;
        let seat = &mut self.seats[index_of(client)];
        let step = seat.switch(self.alloc, client, node)?;
        self.is_spent = false;
        Ok(step)
    }

    /// A client sends again what may have been lost, or skips it.
    pub fn resend(&mut self, client: ClientId) -> Result<SeatStep, NoMemory>
        requires whole { self.old.is_spent ≡ false }
        requires room { self.old.calls < 2 ^ 32 }
        requires known { client ≤ length self.old.seats }
        ensures ok { IfOk result (λ s. s ≡ plans.seat_step_of (plans.plan_at self.old (step.Resend client))) }
        ensures after { OnOk result (self.new ≡ plans.seats_after self.old (plans.plan_at self.old (step.Resend client))) }
        ensures err { OnErr result (self.new.is_spent ≡ true) }
    {
        self.is_spent = true;
        self.calls += 1;
        let seat = &mut self.seats[index_of(client)];
        let step = seat.resend(self.alloc, client)?;
        self.is_spent = false;
        Ok(step)
    }

    /// A client gives a sign of life, or skips it.
    pub fn keep(&mut self, client: ClientId) -> Result<SeatStep, NoMemory>
        requires whole { self.old.is_spent ≡ false }
        requires room { self.old.calls < 2 ^ 32 }
        requires known { client ≤ length self.old.seats }
        ensures ok { IfOk result (λ s. s ≡ plans.seat_step_of (plans.plan_at self.old (step.Keep client))) }
        ensures after { OnOk result (self.new ≡ plans.seats_after self.old (plans.plan_at self.old (step.Keep client))) }
        ensures err { OnErr result (self.new.is_spent ≡ true) }
    {
        self.is_spent = true;
        self.calls += 1;
        let seat = &mut self.seats[index_of(client)];
        let step = seat.keep(self.alloc, client)?;
        self.is_spent = false;
        Ok(step)
    }

    /// A client closes its session, or skips it.
    pub fn close(&mut self, client: ClientId) -> Result<SeatStep, NoMemory>
        requires whole { self.old.is_spent ≡ false }
        requires room { self.old.calls < 2 ^ 32 }
        requires known { client ≤ length self.old.seats }
        ensures ok { IfOk result (λ s. s ≡ plans.seat_step_of (plans.plan_at self.old (step.Close client))) }
        ensures after { OnOk result (self.new ≡ plans.seats_after self.old (plans.plan_at self.old (step.Close client))) }
        ensures err { OnErr result (self.new.is_spent ≡ true) }
    {
        self.is_spent = true;
        self.calls += 1;
        let seat = &mut self.seats[index_of(client)];
        let step = seat.close(self.alloc, client)?;
        self.is_spent = false;
        Ok(step)
    }

    /// A client has a watch from now on; one that it has is skipped.
    pub fn watch(&mut self, client: ClientId, kind: WatchKind) -> Result<SeatStep, NoMemory>
        requires whole { self.old.is_spent ≡ false }
        requires room { self.old.calls < 2 ^ 32 }
        requires known { client ≤ length self.old.seats }
        ensures ok { IfOk result (λ s. s ≡ plans.seat_step_of (plans.plan_at self.old (step.Watch client kind))) }
        ensures after { OnOk result (self.new ≡ plans.seats_after self.old (plans.plan_at self.old (step.Watch client kind))) }
        ensures err { OnErr result (self.new.is_spent ≡ true) }
    {
        self.is_spent = true;
        self.calls += 1;
        let seat = &mut self.seats[index_of(client)];
        let step = seat.watch(self.alloc, kind)?;
        self.is_spent = false;
        Ok(step)
    }

    /// A client calls a command, or skips it; where its session has ended, the call is unsent.
    pub fn call(&mut self, client: ClientId, name: &Name, op: &Op) -> Result<SeatStep, NoMemory>
        requires whole { self.old.is_spent ≡ false }
        requires room { self.old.calls < 2 ^ 32 }
        requires known { client ≤ length self.old.seats }
        ensures ok { IfOk result (λ s. s ≡ plans.seat_step_of (plans.plan_at self.old (step.Call client name.now op.now))) }
        ensures after { OnOk result (self.new ≡ plans.seats_after self.old (plans.plan_at self.old (step.Call client name.now op.now))) }
        ensures err { OnErr result (self.new.is_spent ≡ true) }
    {
        self.is_spent = true;
        self.calls += 1;
        let seat = &mut self.seats[index_of(client)];
        let step = seat.call(self.alloc, client, name, op)?;
        self.is_spent = false;
        Ok(step)
    }

    /// A client calls a query, or skips it; where its session has ended, the call is unsent.
    pub fn query(
        &mut self,
        client: ClientId,
        level: Level,
        name: &Name,
        query: &Query,
    ) -> Result<SeatStep, NoMemory>
        requires whole { self.old.is_spent ≡ false }
        requires room { self.old.calls < 2 ^ 32 }
        requires known { client ≤ length self.old.seats }
        ensures ok { IfOk result (λ s. s ≡ plans.seat_step_of (plans.plan_at self.old (step.Query client level name.now query.now))) }
        ensures after { OnOk result (self.new ≡ plans.seats_after self.old (plans.plan_at self.old (step.Query client level name.now query.now))) }
        ensures err { OnErr result (self.new.is_spent ≡ true) }
    {
        self.is_spent = true;
        self.calls += 1;
        let seat = &mut self.seats[index_of(client)];
        let step = seat.query(self.alloc, client, level, name, query)?;
        self.is_spent = false;
        Ok(step)
    }

    /// A payload from a node reaches a client, which takes or ignores it. Below each event stand the items of the watches that
    /// hold it.
    pub fn receive(
        &mut self,
        client: ClientId,
        from: NodeId,
        payload: &Payload,
        filters: &Filters,
    ) -> Result<SeatStep, NoMemory>
        requires whole { self.old.is_spent ≡ false }
        requires room { self.old.calls < 2 ^ 32 }
        requires known { client ≤ length self.old.seats }
        ensures ok { IfOk result (λ s. s ≡ plans.seat_step_of (plans.receipt_at self.old client from payload.now)) }
        ensures after { OnOk result (self.new ≡ plans.seats_after self.old (plans.receipt_at self.old client from payload.now)) }
        ensures err { OnErr result (self.new.is_spent ≡ true) }
    {
        self.is_spent = true;
        self.calls += 1;
        let seat = &mut self.seats[index_of(client)];
        let step = seat.receive(self.alloc, client, from, payload, filters)?;
        self.is_spent = false;
        Ok(step)
    }
}
