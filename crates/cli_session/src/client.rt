ghost use Rattle.std.specs.Prelude.{◌≡◌, ℕ, ◌<◌, ◌^◌, suc, true, false, None, IfOk, IfErr, OnOk, OnErr};
ghost use Rattle.ax_types.specs.declared.refusals.ClientRefused.TheVariants as refused;
ghost use Rattle.spec_client.specs.Clients as clients;
ghost use Rattle.spec_client.specs.Receipts as receipts;
ghost use Rattle.cli_session.specs.Refusals as refusals;
ghost use Rattle.cli_session.specs.CountedClients as counted;

use crate::parts::Parts;
use ax_types::{
    ClientId, ClientOut, ClientRefused, ClientState, Level, Name, NoMemory, NodeId, Op, Payload,
    Query,
};
use std::alloc::Global;
use std::marker::Model;

/// A client: its session, its calls and their answers, and its server (Ongaro 2014, 6.3). Contracts see the client of the
/// definitions, how many calls changed it, fewer than 2^32 before each, and whether it is spent: after want of memory in
/// `receive` it is, and no further call is made.
#[derive(Drop)]
pub struct Client {
    parts: Parts,
    calls: u64,
    is_spent: bool,
}

impl Model for Client {
    ghost use Rattle.cli_session.specs.Numbered as numbered;
    ghost use Rattle.cli_session.specs.CountedClients as counted;

    ghost Value = { counted.CountedClient };

    ghost view = { λ a. record { client = a.parts.client; calls = a.calls; is_spent = a.is_spent } };

    ghost invariant = { λ a. numbered.FitTogether a.parts a.calls a.is_spent };
}

impl Client {
    /// A client that has no session yet. It takes no memory.
    pub fn new(alloc: Global, me: ClientId) -> Self
        ensures { result ≡ record { client = clients.new_client me; calls = 0; is_spent = false } }
    {
        Client {
            parts: Parts::new(alloc, me),
            calls: 0,
            is_spent: false,
        }
    }

    /// Its state.
    pub fn state(&self) -> ClientState
        ensures { result ≡ self.now.client.state }
    {
        self.parts.state
    }

    /// Opens a session at a node: `SessionOpen` exactly where it has one, or is opening one. The client is unchanged
    /// after a refusal.
    pub fn open(&mut self, node: NodeId) -> Result<ClientOut, ClientRefused>
        requires whole { self.old.is_spent ≡ false }
        requires room { self.old.calls < 2 ^ 32 }
        ensures ok { IfOk result (λ out. out ≡ (clients.opens self.old.client node).out) }
        ensures after { OnOk result (self.new ≡ counted.changed_to self.old (clients.opens self.old.client node).client) }
        ensures free { OnOk result (clients.open_refusal self.old.client ≡ None) }
        ensures refused { IfErr result (λ e. e ≡ refusals.error_by (clients.open_refusal self.old.client)) }
        ensures err { OnErr result (self.new ≡ self.old) }
    {
        if let Some(refusal) = self.parts.open_refusal() {
            return Err(refusal);
        }
        let out = self.parts.open(node)?;
        self.calls += 1;
        Ok(out)
    }

    #[tactic(auto, using(crate::proofs::Refused::room_by))]
    /// Calls a command: `NoSession` exactly where no session is open, `WindowFull` exactly where as many calls of it as
    /// may be are unanswered. The client is unchanged after a refusal.
    pub fn call(&mut self, name: &Name, op: &Op) -> Result<ClientOut, ClientRefused>
        requires whole { self.old.is_spent ≡ false }
        requires room { self.old.calls < 2 ^ 32 }
        ensures ok { IfOk result (λ out. out ≡ (clients.makes_call self.old.client name.now op.now).out) }
        ensures after { OnOk result (self.new ≡ counted.changed_to self.old (clients.makes_call self.old.client name.now op.now).client) }
        ensures free { OnOk result (clients.call_refusal self.old.client ≡ None) }
        ensures refused { IfErr result (λ e. e ≡ refusals.error_by (clients.call_refusal self.old.client)) }
        ensures err { OnErr result (self.new ≡ self.old) }
    {
        if let Some(refusal) = self.parts.call_refusal() {
            return Err(refusal);
        }
        let out = self.parts.call(name, op)?;
        self.calls += 1;
        Ok(out)
    }

    #[tactic(auto, using(crate::proofs::Refused::room_by))]
    /// Calls a query, at a level (Ongaro 2014, 6.4): refused as a command is. The client is unchanged after a refusal.
    pub fn query(
        &mut self,
        level: Level,
        name: &Name,
        query: &Query,
    ) -> Result<ClientOut, ClientRefused>
        requires whole { self.old.is_spent ≡ false }
        requires room { self.old.calls < 2 ^ 32 }
        ensures ok { IfOk result (λ out. out ≡ (clients.queries self.old.client level name.now query.now).out) }
        ensures after { OnOk result (self.new ≡ counted.changed_to self.old (clients.queries self.old.client level name.now query.now).client) }
        ensures free { OnOk result (clients.call_refusal self.old.client ≡ None) }
        ensures refused { IfErr result (λ e. e ≡ refusals.error_by (clients.call_refusal self.old.client)) }
        ensures err { OnErr result (self.new ≡ self.old) }
    {
        if let Some(refusal) = self.parts.call_refusal() {
            return Err(refusal);
        }
        let out = self.parts.query(level, name, query)?;
        self.calls += 1;
        Ok(out)
    }

    /// Closes the session: `NoSession` exactly where none is open, `Busy` exactly where calls of it are unanswered. The
    /// client is unchanged after a refusal.
    pub fn close(&mut self) -> Result<ClientOut, ClientRefused>
        requires whole { self.old.is_spent ≡ false }
        requires room { self.old.calls < 2 ^ 32 }
        ensures ok { IfOk result (λ out. out ≡ (clients.closes self.old.client).out) }
        ensures after { OnOk result (self.new ≡ counted.changed_to self.old (clients.closes self.old.client).client) }
        ensures free { OnOk result (clients.close_refusal self.old.client ≡ None) }
        ensures refused { IfErr result (λ e. e ≡ refusals.error_by (clients.close_refusal self.old.client)) }
        ensures err { OnErr result (self.new ≡ self.old) }
    {
        if let Some(refusal) = self.parts.close_refusal() {
            return Err(refusal);
        }
        let out = self.parts.close()?;
        self.calls += 1;
        Ok(out)
    }

    /// Gives a sign of life (Ongaro 2014, 6.3): `NoSession` exactly where no session is open or closing. It changes
    /// nothing.
    pub fn keep(&self) -> Result<ClientOut, ClientRefused>
        ensures ok { IfOk result (λ out. out ≡ (clients.keeps self.now.client).out) }
        ensures free { OnOk result (clients.keep_refusal self.now.client ≡ None) }
        ensures refused { IfErr result (λ e. e ≡ refusals.error_by (clients.keep_refusal self.now.client)) }
    {
        if let Some(refusal) = self.parts.keep_refusal() {
            return Err(refusal);
        }
        Ok(self.parts.keep()?)
    }

    /// Sends again what may have been lost: `NoSession` exactly where no session is open, closing or being opened. It
    /// changes nothing.
    pub fn resend(&self) -> Result<ClientOut, ClientRefused>
        ensures ok { IfOk result (λ out. out ≡ (clients.resends self.now.client).out) }
        ensures free { OnOk result (clients.resend_refusal self.now.client ≡ None) }
        ensures refused { IfErr result (λ e. e ≡ refusals.error_by (clients.resend_refusal self.now.client)) }
    {
        if let Some(refusal) = self.parts.resend_refusal() {
            return Err(refusal);
        }
        Ok(self.parts.resend()?)
    }

    /// Goes on with another server, and sends it what may have been lost: `NoMemory` alone refuses it. The client is
    /// unchanged then.
    pub fn switch(&mut self, node: NodeId) -> Result<ClientOut, ClientRefused>
        requires whole { self.old.is_spent ≡ false }
        requires room { self.old.calls < 2 ^ 32 }
        ensures ok { IfOk result (λ out. out ≡ (clients.switches self.old.client node).out) }
        ensures after { OnOk result (self.new ≡ counted.changed_to self.old (clients.switches self.old.client node).client) }
        ensures refused { IfErr result (λ e. e ≡ refused.NoMemory) }
        ensures err { OnErr result (self.new ≡ self.old) }
    {
        let out = self.parts.move_to(node)?;
        self.calls += 1;
        Ok(out)
    }

    /// The number of a call at a client whose session has ended, which is used up.
    pub fn unsent(&mut self) -> u64
        requires whole { self.old.is_spent ≡ false }
        requires room { self.old.calls < 2 ^ 32 }
        requires ended { clients.has_ended self.old.client.state ≡ true }
        ensures number { result ≡ clients.unsent_number self.old.client }
        ensures after { self.new ≡ counted.changed_to self.old (clients.unsent self.old.client) }
    {
        let number = self.parts.unsent();
        self.calls += 1;
        number
    }

    /// A payload from a node: it is taken, or ignored. After want of memory the client is spent.
    pub fn receive(&mut self, from: NodeId, payload: &Payload) -> Result<ClientOut, NoMemory>
        requires whole { self.old.is_spent ≡ false }
        requires room { self.old.calls < 2 ^ 32 }
        ensures ok { IfOk result (λ out. out ≡ (receipts.receives self.old.client from payload.now).out) }
        ensures after { OnOk result (self.new ≡ counted.changed_to self.old (receipts.receives self.old.client from payload.now).client) }
        ensures err { OnErr result (self.new.is_spent ≡ true) }
    {
        self.is_spent = true;
        self.calls += 1;
        let out = self.parts.receive(from, payload)?;
        self.is_spent = false;
        Ok(out)
    }
}
