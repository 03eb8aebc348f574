ghost use Rattle.std.specs.Prelude.{◌≡◌, ◌<◌, ◌^◌, false, None, IfOk, OnOk};
ghost use Rattle.std.specs.List.{list_any};
ghost use Rattle.ax_types.specs.declared.sessions.ClientState.TheVariants as state;
ghost use Rattle.spec_client.specs.Clients as clients;
ghost use Rattle.spec_client.specs.Receipts as receipts;
ghost use Rattle.spec_world.specs.Worlds as worlds;
ghost use Rattle.spec_world.specs.Plans as plans;
ghost use Rattle.world_seats.specs.SeatAnswers as answers;

use crate::given::{SeatStep, answered, packets_from, shows_item};
use crate::shown::with_shown;
use ax_types::{
    ClientId, ClientState, Item, Level, List, Name, NoMemory, NodeId, Op, Payload, Query,
    SkipReason, WatchKind,
};
use cli_session::Client;
use std::alloc::Global;
use std::marker::Model;
use watch_hooks::Filters;

/// A client with its watches, in the order in which they were set.
#[derive(Drop)]
pub struct Seat {
    client: Client,
    watches: Vec<WatchKind>,
}

impl Model for Seat {
    ghost use Rattle.world_seats.specs.SeatAnswers as answers;

    ghost Value = { answers.CountedWatcher };

    ghost view = { λ a. record { watcher = record { client = a.client.client; watches = a.watches.items }; calls = a.client.calls; is_spent = a.client.is_spent } };
}

/// Whether two kinds of watches are the same.
fn is_same(one: WatchKind, other: WatchKind) -> bool
    ensures { result ≡ plans.same_kind one other }
{
    matches!(
        (one, other),
        (WatchKind::All, WatchKind::All)
            | (WatchKind::Changes, WatchKind::Changes)
            | (WatchKind::Grants, WatchKind::Grants)
    )
}

impl Seat {
    /// A client that has no session yet and no watches. It takes no memory.
    pub fn new(alloc: Global, me: ClientId) -> Self
        ensures { result ≡ record { watcher = worlds.new_watcher me; calls = 0; is_spent = false } }
    {
        Seat {
            client: Client::new(alloc, me),
            watches: Vec::new(alloc),
        }
    }

    /// Its state.
    pub fn state(&self) -> ClientState
        ensures { result ≡ self.now.watcher.client.state }
    {
        self.client.state()
    }

    /// The client opens a session at a node, or skips it.
    pub fn open(&mut self, alloc: Global, me: ClientId, node: NodeId) -> Result<SeatStep, NoMemory>
        requires whole { self.old.is_spent ≡ false }
        requires room { self.old.calls < 2 ^ 32 }
        ensures ok { IfOk result (λ s. s ≡ answers.asked_step me self.old.watcher (clients.open_refusal self.old.watcher.client) (clients.opens self.old.watcher.client node)) }
        ensures after { OnOk result (answers.IsChanged self.old self.new (answers.asked_watcher self.old.watcher (clients.open_refusal self.old.watcher.client) (clients.opens self.old.watcher.client node))) }
    {
        answered(alloc, me, self.client.open(node))
    }

    /// The client goes on with another node.
    pub fn switch(
        &mut self,
        alloc: Global,
        me: ClientId,
        node: NodeId,
    ) -> Result<SeatStep, NoMemory>
        requires whole { self.old.is_spent ≡ false }
        requires room { self.old.calls < 2 ^ 32 }
        ensures ok { IfOk result (λ s. s ≡ answers.asked_step me self.old.watcher (plans.never self.old.watcher.client) (clients.switches self.old.watcher.client node)) }
        ensures after { OnOk result (answers.IsChanged self.old self.new (answers.asked_watcher self.old.watcher (plans.never self.old.watcher.client) (clients.switches self.old.watcher.client node))) }
    {
        answered(alloc, me, self.client.switch(node))
    }

    /// The client sends again what may have been lost, or skips it.
    pub fn resend(&mut self, alloc: Global, me: ClientId) -> Result<SeatStep, NoMemory>
        requires { self.old.is_spent ≡ false }
        ensures ok { IfOk result (λ s. s ≡ answers.asked_step me self.old.watcher (clients.resend_refusal self.old.watcher.client) (clients.resends self.old.watcher.client)) }
        ensures after { OnOk result (answers.IsChanged self.old self.new (answers.asked_watcher self.old.watcher (clients.resend_refusal self.old.watcher.client) (clients.resends self.old.watcher.client))) }
    {
        answered(alloc, me, self.client.resend())
    }

    /// The client gives a sign of life, or skips it.
    pub fn keep(&mut self, alloc: Global, me: ClientId) -> Result<SeatStep, NoMemory>
        requires { self.old.is_spent ≡ false }
        ensures ok { IfOk result (λ s. s ≡ answers.asked_step me self.old.watcher (clients.keep_refusal self.old.watcher.client) (clients.keeps self.old.watcher.client)) }
        ensures after { OnOk result (answers.IsChanged self.old self.new (answers.asked_watcher self.old.watcher (clients.keep_refusal self.old.watcher.client) (clients.keeps self.old.watcher.client))) }
    {
        answered(alloc, me, self.client.keep())
    }

    /// The client closes its session, or skips it.
    pub fn close(&mut self, alloc: Global, me: ClientId) -> Result<SeatStep, NoMemory>
        requires whole { self.old.is_spent ≡ false }
        requires room { self.old.calls < 2 ^ 32 }
        ensures ok { IfOk result (λ s. s ≡ answers.asked_step me self.old.watcher (clients.close_refusal self.old.watcher.client) (clients.closes self.old.watcher.client)) }
        ensures after { OnOk result (answers.IsChanged self.old self.new (answers.asked_watcher self.old.watcher (clients.close_refusal self.old.watcher.client) (clients.closes self.old.watcher.client))) }
    {
        answered(alloc, me, self.client.close())
    }

    /// A call at a client whose session has ended: it uses up a number, and is unsent.
    fn unsent(&mut self, alloc: Global, session: u64) -> Result<SeatStep, NoMemory>
        requires whole { self.old.is_spent ≡ false }
        requires room { self.old.calls < 2 ^ 32 }
        requires ended { self.old.watcher.client.state ≡ state.Ended session }
        ensures ok { IfOk result (λ s. s ≡ answers.unsent_step self.old.watcher) }
        ensures after { OnOk result (answers.IsChanged self.old self.new (record self.old.watcher { client = clients.unsent self.old.watcher.client })) }
    {
        let number = self.client.unsent();
        shows_item(alloc, Item::Unsent { session, number })
    }

    /// The client calls a command, or skips it; where its session has ended, the call is unsent.
    pub fn call(
        &mut self,
        alloc: Global,
        me: ClientId,
        name: &Name,
        op: &Op,
    ) -> Result<SeatStep, NoMemory>
        requires whole { self.old.is_spent ≡ false }
        requires room { self.old.calls < 2 ^ 32 }
        ensures ok { IfOk result (λ s. s ≡ answers.called_step me self.old.watcher (clients.makes_call self.old.watcher.client name.now op.now)) }
        ensures after { OnOk result (answers.IsChanged self.old self.new (answers.called_watcher self.old.watcher (clients.makes_call self.old.watcher.client name.now op.now))) }
    {
        match self.client.state() {
            ClientState::Ended { session } => self.unsent(alloc, session),
            _ => answered(alloc, me, self.client.call(name, op)),
        }
    }

    /// The client calls a query, or skips it; where its session has ended, the call is unsent.
    pub fn query(
        &mut self,
        alloc: Global,
        me: ClientId,
        level: Level,
        name: &Name,
        query: &Query,
    ) -> Result<SeatStep, NoMemory>
        requires whole { self.old.is_spent ≡ false }
        requires room { self.old.calls < 2 ^ 32 }
        ensures ok { IfOk result (λ s. s ≡ answers.called_step me self.old.watcher (clients.queries self.old.watcher.client level name.now query.now)) }
        ensures after { OnOk result (answers.IsChanged self.old self.new (answers.called_watcher self.old.watcher (clients.queries self.old.watcher.client level name.now query.now))) }
    {
        match self.client.state() {
            ClientState::Ended { session } => self.unsent(alloc, session),
            _ => answered(alloc, me, self.client.query(level, name, query)),
        }
    }

    /// Whether the client has a watch.
    fn has_watch(&self, kind: WatchKind) -> bool
        ensures { result ≡ list_any (plans.same_kind kind) self.now.watcher.watches }
    {
        self.watches.iter().any(|own| is_same(kind, *own))
    }

    /// The client has a watch from now on; one that it has is skipped.
    pub fn watch(&mut self, alloc: Global, kind: WatchKind) -> Result<SeatStep, NoMemory>
        requires { self.old.is_spent ≡ false }
        ensures ok { IfOk result (λ s. s ≡ answers.watching_step self.old.watcher kind) }
        ensures after { OnOk result (answers.IsChanged self.old self.new (answers.watching self.old.watcher kind)) }
    {
        if self.has_watch(kind) {
            let reason = SkipReason::Watched;
            return shows_item(alloc, Item::Skip { reason });
        }
        self.watches.push(kind)?;
        Ok(SeatStep {
            items: List::new(alloc),
            packets: List::new(alloc),
        })
    }

    /// A payload from a node is taken, or ignored. Below each event stand the items of the watches that hold it.
    pub fn receive(
        &mut self,
        alloc: Global,
        me: ClientId,
        from: NodeId,
        payload: &Payload,
        filters: &Filters,
    ) -> Result<SeatStep, NoMemory>
        requires whole { self.old.is_spent ≡ false }
        requires room { self.old.calls < 2 ^ 32 }
        ensures ok { IfOk result (λ s. s ≡ answers.asked_step me self.old.watcher None (receipts.receives self.old.watcher.client from payload.now)) }
        ensures after { OnOk result (answers.IsChanged self.old self.new (answers.asked_watcher self.old.watcher None (receipts.receives self.old.watcher.client from payload.now))) }
    {
        let out = self.client.receive(from, payload)?;
        Ok(SeatStep {
            items: with_shown(alloc, me, out.items, self.watches.as_slice(), filters)?,
            packets: packets_from(alloc, me, out.sends)?,
        })
    }
}
