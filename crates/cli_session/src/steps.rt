ghost use Rattle.std.specs.Prelude.{◌≡◌, ℕ, ◌++◌, ◌∷◌, [], ◌<◌, ◌+◌, ◌≤◌, ◌^◌, suc, true, length, Some, None, IfOk, OnOk, OnErr, IfSome};
ghost use Rattle.spec_client.specs.Clients as clients;
ghost use Rattle.spec_sequencer.specs.Sequencers as sequencers;
ghost use Rattle.cli_session.specs.Numbered as numbered;

use crate::parts::{Parts, addressed, one};
use crate::requests::Request;
use ax_types::{
    AskedCall, ClientOut, ClientState, Duplicate, Item, Level, List, Name, NoMemory, NodeId, Op,
    Payload, Query, WindowCall,
};

impl Parts {
    /// A new session is opened, by a new opening number (Ongaro 2014, 6.3). Nothing changes after want of memory.
    pub fn open(&mut self, node: NodeId) -> Result<ClientOut, NoMemory>
        requires { self.old.moves + 2 ≤ 2 ^ 62 }
        ensures ok { IfOk result (λ out. out ≡ (clients.opens self.old.client node).out) }
        ensures after { OnOk result (self.new ≡ record { client = (clients.opens self.old.client node).client; moves = self.old.moves + 2 }) }
        ensures err { OnErr result (self.new ≡ self.old) }
    {
        let mut sends = Vec::with_capacity(self.alloc, 1)?;
        self.switch.move_to(node);
        self.switch.next_opening();
        self.state = ClientState::Opening;
        sends.push_reserved((node, self.register()));
        Ok(ClientOut {
            items: List::new(self.alloc),
            sends: List::from_vec(sends),
        })
    }

    /// A command is called. Nothing changes after want of memory.
    pub fn call(&mut self, name: &Name, op: &Op) -> Result<ClientOut, NoMemory>
        requires sound { numbered.IsSound self.old.client }
        requires room { length self.old.client.sequencer.calls < sequencers.most_unanswered }
        requires calls { self.old.client.calls < 2 ^ 63 }
        requires commands { self.old.client.commands < 2 ^ 63 }
        ensures ok { IfOk result (λ out. out ≡ (clients.makes_call self.old.client name.now op.now).out) }
        ensures after { OnOk result (self.new ≡ record self.old { client = (clients.makes_call self.old.client name.now op.now).client }) }
        ensures err { OnErr result (self.new ≡ self.old) }
    {
        let request = Request {
            number: self.calls + 1,
            seq: self.commands + 1,
            call: WindowCall::Command {
                name: name.copy()?,
                op: op.copy()?,
            },
        };
        let out = self.called_out(&request)?;
        self.add_request(Some(request.seq), None, request)?;
        self.commands += 1;
        Ok(out)
    }

    /// A query is called. Nothing changes after want of memory.
    pub fn query(&mut self, level: Level, name: &Name, query: &Query) -> Result<ClientOut, NoMemory>
        requires sound { numbered.IsSound self.old.client }
        requires room { length self.old.client.sequencer.calls < sequencers.most_unanswered }
        requires calls { self.old.client.calls < 2 ^ 63 }
        ensures ok { IfOk result (λ out. out ≡ (clients.queries self.old.client level name.now query.now).out) }
        ensures after { OnOk result (self.new ≡ record self.old { client = (clients.queries self.old.client level name.now query.now).client }) }
        ensures err { OnErr result (self.new ≡ self.old) }
    {
        let request = Request {
            number: self.calls + 1,
            seq: self.commands,
            call: WindowCall::Query {
                level,
                name: name.copy()?,
                query: query.copy()?,
            },
        };
        let out = self.called_out(&request)?;
        self.add_request(None, Some(level), request)?;
        Ok(out)
    }

    /// What a new call shows and sends.
    fn called_out(&self, request: &Request) -> Result<ClientOut, NoMemory>
        ensures { IfOk result (λ out. out ≡ record { items = clients.called_item self.now.client request.now.number request.now.call ∷ []; sends = clients.to_server self.now.client (clients.payload_of self.now.client request.now ∷ []) }) }
    {
        let item = Item::Called {
            session: self.session(),
            number: request.number,
            call: request.call.copy()?,
        };
        Ok(ClientOut {
            items: one(self.alloc, item)?,
            sends: self.send(self.payload_of(request)?)?,
        })
    }

    /// A call takes the next number, and waits for its outcome. Nothing changes after want of memory.
    fn add_request(
        &mut self,
        seq: Option<u64>,
        level: Option<Level>,
        request: Request,
    ) -> Result<(), NoMemory>
        requires sound { numbered.IsSound self.old.client }
        requires room { length self.old.client.sequencer.calls < sequencers.most_unanswered }
        requires calls { self.old.client.calls < 2 ^ 63 }
        requires number { request.number ≡ suc self.old.client.calls }
        requires seq { IfSome seq (λ n. n ≡ suc self.old.client.commands) }
        ensures ok { OnOk result (self.new ≡ record self.old { client = clients.with_request self.old.client seq level request.seq request.call }) }
        ensures err { OnErr result (self.new ≡ self.old) }
    {
        self.requests.reserve(1)?;
        self.sequencer.called(AskedCall {
            number: request.number,
            seq,
            level,
        })?;
        self.requests.push_back_reserved(request);
        self.calls += 1;
        Ok(())
    }

    /// A call is not sent, since the session has ended: the number that it uses up.
    pub fn unsent(&mut self) -> u64
        requires { self.old.client.calls < 2 ^ 63 }
        ensures number { result ≡ clients.unsent_number self.old.client }
        ensures after { self.new ≡ record self.old { client = clients.unsent self.old.client } }
    {
        self.calls += 1;
        self.calls
    }

    /// A sign of life, which says what the client has (Ongaro 2014, 6.3).
    pub fn keep(&self) -> Result<ClientOut, NoMemory>
        ensures { IfOk result (λ out. out ≡ (clients.keeps self.now.client).out) }
    {
        Ok(ClientOut {
            items: List::new(self.alloc),
            sends: self.send(Payload::Keep {
                client: self.me,
                session: self.session(),
                answered: self.sequencer.received(),
                heard: self.sequencer.heard(),
            })?,
        })
    }

    /// The session is to end. Nothing changes after want of memory.
    pub fn close(&mut self) -> Result<ClientOut, NoMemory>
        ensures ok { IfOk result (λ out. out ≡ (clients.closes self.old.client).out) }
        ensures after { OnOk result (self.new ≡ record self.old { client = (clients.closes self.old.client).client }) }
        ensures err { OnErr result (self.new ≡ self.old) }
    {
        let sends = self.send(self.close_payload())?;
        self.state = ClientState::Closing {
            session: self.session(),
        };
        Ok(ClientOut {
            items: List::new(self.alloc),
            sends,
        })
    }

    /// What may have been lost is sent again.
    pub fn resend(&self) -> Result<ClientOut, NoMemory>
        ensures { IfOk result (λ out. out ≡ (clients.resends self.now.client).out) }
    {
        Ok(ClientOut {
            items: List::new(self.alloc),
            sends: self.send_all(self.again()?)?,
        })
    }

    /// Another server is asked, and what may have been lost is sent again. Nothing changes after want of memory.
    pub fn move_to(&mut self, node: NodeId) -> Result<ClientOut, NoMemory>
        requires { self.old.moves < 2 ^ 62 }
        ensures ok { IfOk result (λ out. out ≡ (clients.switches self.old.client node).out) }
        ensures after { OnOk result (self.new ≡ record { client = (clients.switches self.old.client node).client; moves = suc self.old.moves }) }
        ensures err { OnErr result (self.new ≡ self.old) }
    {
        let sends = addressed(self.alloc, node, self.again()?)?;
        self.switch.move_to(node);
        Ok(ClientOut {
            items: List::new(self.alloc),
            sends,
        })
    }
}
