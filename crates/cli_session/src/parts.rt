ghost use Rattle.std.specs.Prelude.{◌≡◌, ℕ, ◌++◌, ◌∷◌, [], ◌<◌, ◌^◌, suc, map, filter, find, nat_eq, IfOk, OnOk, OnErr};
ghost use Rattle.std.specs.Option.{option_copied};
ghost use Rattle.spec_client.specs.Clients as clients;
ghost use Rattle.spec_client.specs.Receipts as receipts;
ghost use Rattle.spec_sequencer.specs.Sequencers as sequencers;

use crate::requests::Request;
use crate::states::{is_closing, is_joined, is_opening, own_session};
use ax_types::{ClientId, ClientState, Duplicate, List, NoMemory, NodeId, Payload, WindowCall};
use cli_sequencer::Sequencer;
use server_switch::Switch;
use std::alloc::Global;
use std::collections::VecDeque;
use std::marker::Model;

/// The parts of a client. Contracts see the client of the definitions, and how many times its switch was moved.
#[derive(Drop)]
pub struct Parts {
    pub alloc: Global,
    pub me: ClientId,
    pub state: ClientState,
    pub switch: Switch,
    /// How many calls were made in the session.
    pub calls: u64,
    /// How many of them were commands.
    pub commands: u64,
    pub sequencer: Sequencer,
    /// What the calls without an outcome ask, in order of call.
    pub requests: VecDeque<Request>,
}

impl Model for Parts {
    ghost use Rattle.cli_session.specs.CountedClients as counted;

    ghost Value = { counted.MovedClient };

    ghost view = { λ a. record { client = record { me = a.me; state = a.state; switch = a.switch.switch; calls = a.calls; commands = a.commands; sequencer = a.sequencer; requests = a.requests.items }; moves = a.switch.calls } };
}

/// A list of one item.
pub fn one<T: Drop>(alloc: Global, item: T) -> Result<List<T>, NoMemory>
    ensures { IfOk result (λ items. items ≡ item ∷ []) }
{
    let mut items = List::with_capacity(alloc, 1)?;
    items.push(item)?;
    Ok(items)
}

impl Parts {
    /// The parts of a new client. They take no memory.
    pub fn new(alloc: Global, me: ClientId) -> Self
        ensures { result ≡ record { client = clients.new_client me; moves = 0 } }
    {
        Parts {
            alloc,
            me,
            state: ClientState::NoneYet,
            switch: Switch::new(),
            calls: 0,
            commands: 0,
            sequencer: Sequencer::new(alloc, 0),
            requests: VecDeque::new(alloc),
        }
    }

    /// The client's session.
    pub fn session(&self) -> u64
        ensures { result ≡ clients.own_session self.now.client.state }
    {
        own_session(self.state)
    }

    /// A payload for the connected server.
    pub fn send(&self, payload: Payload) -> Result<List<(NodeId, Payload)>, NoMemory>
        ensures { IfOk result (λ sends. sends ≡ clients.to_server self.now.client (payload ∷ [])) }
    {
        match self.switch.server() {
            Some(node) => one(self.alloc, (node, payload)),
            None => Ok(List::new(self.alloc)),
        }
    }

    /// Payloads for the connected server.
    pub fn send_all(&self, payloads: Vec<Payload>) -> Result<List<(NodeId, Payload)>, NoMemory>
        ensures { IfOk result (λ sends. sends ≡ clients.to_server self.now.client payloads.items) }
    {
        match self.switch.server() {
            Some(node) => addressed(self.alloc, node, payloads),
            None => Ok(List::new(self.alloc)),
        }
    }

    /// What is sent for a request: a query names what its session has seen by now.
    pub fn payload_of(&self, request: &Request) -> Result<Payload, NoMemory>
        ensures { IfOk result (λ payload. payload ≡ clients.payload_of self.now.client request.now) }
    {
        match &request.call {
            WindowCall::Command { name, op } => Ok(Payload::Command {
                client: self.me,
                session: self.session(),
                seq: request.seq,
                name: name.copy()?,
                op: op.copy()?,
            }),
            WindowCall::Query { level, name, query } => Ok(Payload::Query {
                client: self.me,
                session: self.session(),
                call: request.number,
                level: *level,
                seen: self.sequencer.seen(),
                seq: request.seq,
                name: name.copy()?,
                query: query.copy()?,
            }),
        }
    }

    /// What opens a session (Ongaro 2014, 6.3).
    pub fn register(&self) -> Payload
        ensures { result ≡ clients.register_of self.now.client }
    {
        Payload::Register {
            client: self.me,
            opening: self.switch.opening(),
        }
    }

    /// What tells a server how far the session has heard.
    pub fn connect(&self) -> Payload
        ensures { result ≡ clients.connect_of self.now.client }
    {
        Payload::Connect {
            client: self.me,
            session: self.session(),
            heard: self.sequencer.heard(),
        }
    }

    /// What ends a session without calls.
    pub fn close_payload(&self) -> Payload
        ensures { result ≡ clients.close_of self.now.client }
    {
        Payload::Close {
            client: self.me,
            session: self.session(),
        }
    }

    /// Whether a request's call lacks an answer.
    fn lacks_answer(&self, request: &Request) -> bool
        ensures { result ≡ clients.lacks_answer self.now.client.sequencer.calls request.now.number }
    {
        self.sequencer.lacks_answer(request.number)
    }

    #[tactic(auto, using(crate::proofs::Sent::open_push))]
    /// What is sent for the calls that lack an answer, in order, after other payloads.
    fn with_open_requests(&self, payloads: Vec<Payload>) -> Result<Vec<Payload>, NoMemory>
        ensures { IfOk result (λ all. all.items ≡ payloads.items ++ map (clients.payload_of self.now.client) (clients.open_requests self.now.client)) }
    {
        let mut payloads = payloads;
        'requests: for request in self.requests.iter() {
            if self.lacks_answer(request) {
                payloads.push(self.payload_of(request)?)?;
            }
        }
        Ok(payloads)
    }

    /// What may have been lost, and is sent again.
    pub fn again(&self) -> Result<Vec<Payload>, NoMemory>
        ensures { IfOk result (λ payloads. payloads.items ≡ clients.again_of self.now.client) }
    {
        let mut payloads = Vec::new(self.alloc);
        if is_opening(self.state) {
            payloads.push(self.register())?;
        } else if is_joined(self.state) {
            payloads.push(self.connect())?;
            payloads = self.with_open_requests(payloads)?;
            if is_closing(self.state) {
                payloads.push(self.close_payload())?;
            }
        }
        Ok(payloads)
    }

    #[tactic(auto, using(crate::proofs::Sent::gap_push))]
    /// The commands above the last one that the session state knows, in order.
    pub fn gap(&self, last: u64) -> Result<Vec<Payload>, NoMemory>
        ensures { IfOk result (λ payloads. payloads.items ≡ receipts.gap_of self.now.client last) }
    {
        let mut payloads = Vec::new(self.alloc);
        'requests: for request in self.requests.iter() {
            if self.lacks_answer(request) && request.is_command_above(last) {
                payloads.push(self.payload_of(request)?)?;
            }
        }
        Ok(payloads)
    }

    /// The request with a number.
    pub fn request(&self, number: u64) -> Option<&Request>
        ensures { option_copied result ≡ receipts.request self.now.client.requests number }
    {
        self.requests
            .iter()
            .find(|request| request.number() == number)
    }
}

/// Payloads, each for one node.
pub fn addressed(
    alloc: Global,
    node: NodeId,
    payloads: Vec<Payload>,
) -> Result<List<(NodeId, Payload)>, NoMemory>
    ensures { IfOk result (λ sends. sends ≡ clients.sends_of (Some node) payloads.items) }
{
    let mut sends = List::with_capacity(alloc, payloads.len())?;
    'payloads: for payload in payloads {
        sends.push((node, payload))?;
    }
    Ok(sends)
}
