ghost use Rattle.std.specs.Prelude.{◌≡◌, ℕ, ◌++◌, ◌∷◌, [], ◌<◌, ◌+◌, ◌≤◌, ◌^◌, suc, map, true, length, Some, None, IfOk, OnOk, OnErr};
ghost use Rattle.ax_types.specs.declared.items.Item.TheVariants as item;
ghost use Rattle.ax_types.specs.declared.packets.Payload.TheVariants as payload;
ghost use Rattle.spec_client.specs.Clients as clients;
ghost use Rattle.spec_client.specs.Receipts as receipts;
ghost use Rattle.spec_sequencer.specs.Sequencers as sequencers;
ghost use Rattle.cli_session.specs.Numbered as numbered;

use crate::parts::{Parts, one};
use crate::states::{is_joined, is_live, is_opening};
use ax_types::{
    Batch, ClientOut, ClientState, Duplicate, Event, Got, Heard, How, Item, Level, List, NoMemory,
    NodeId, Payload, Reply,
};
use cli_sequencer::Sequencer;

/// Where a linearizable query reached its leader.
fn reach_of(level: Level, term: u64, arrival: u64) -> Option<(u64, u64)>
    ensures { result ≡ receipts.reach_of level term arrival }
{
    match level {
        Level::Seq => None,
        Level::Lin => Some((term, arrival)),
    }
}

impl Parts {
    /// A payload from a node is taken, or ignored. After want of memory it may be half taken.
    pub fn receive(&mut self, from: NodeId, payload: &Payload) -> Result<ClientOut, NoMemory>
        requires sound { numbered.IsSound self.old.client }
        requires room { self.old.moves < 2 ^ 62 }
        ensures ok { IfOk result (λ out. out ≡ (receipts.receives self.old.client from payload.now).out) }
        ensures after { OnOk result (self.new.client ≡ (receipts.receives self.old.client from payload.now).client) }
        ensures moves { self.new.moves ≤ suc self.old.moves }
    {
        match payload {
            Payload::Opened { opening, session } => {
                if is_opening(self.state) && self.switch.accepts(*opening) {
                    return self.take_opened(*session);
                }
                Ok(self.nothing())
            }
            Payload::Reply {
                session,
                seq,
                place,
                events,
                reply,
            } => {
                if self.is_own_live(*session) {
                    return self.take_reply(*seq, *place, *events, reply);
                }
                Ok(self.nothing())
            }
            Payload::Answer {
                session,
                call,
                level,
                place,
                events,
                term,
                arrival,
                reply,
            } => {
                if self.is_own_live(*session) {
                    let reach = reach_of(*level, *term, *arrival);
                    return self.take_answer(*call, *level, *place, *events, reach, reply);
                }
                Ok(self.nothing())
            }
            Payload::Gap { session, last } => {
                if self.is_own_live(*session) {
                    return self.fill_gap(*last);
                }
                Ok(self.nothing())
            }
            Payload::Batch {
                session,
                place,
                prev,
                events,
            } => {
                if self.is_own(*session) {
                    return self.take_batch(from, *place, *prev, events);
                }
                Ok(self.nothing())
            }
            Payload::Ended {
                session,
                place,
                how,
            } => {
                if self.is_own(*session) {
                    return self.take_end(*session, *place, *how);
                }
                Ok(self.nothing())
            }
            _ => Ok(self.nothing()),
        }
    }

    /// No item, and nothing sent.
    fn nothing(&self) -> ClientOut
        ensures { result ≡ (clients.ignores self.now.client).out }
    {
        ClientOut {
            items: List::new(self.alloc),
            sends: List::new(self.alloc),
        }
    }

    /// Whether a payload is for the client's session, where it is open.
    fn is_own_live(&self, session: u64) -> bool
        ensures { result ≡ receipts.is_own_live self.now.client session }
    {
        is_live(self.state) && session == self.session()
    }

    /// Whether a payload is for the client's session, where it is open or closing.
    fn is_own(&self, session: u64) -> bool
        ensures { result ≡ receipts.is_own self.now.client session }
    {
        is_joined(self.state) && session == self.session()
    }

    /// The session of the current opening is taken. Nothing changes after want of memory.
    fn take_opened(&mut self, session: u64) -> Result<ClientOut, NoMemory>
        requires { self.old.moves < 2 ^ 62 }
        ensures ok { IfOk result (λ out. out ≡ (receipts.takes_opened self.old.client session).out) }
        ensures after { OnOk result (self.new.client ≡ (receipts.takes_opened self.old.client session).client) }
        ensures moves { self.new.moves ≤ suc self.old.moves }
    {
        let item = Item::Opened {
            session,
            client: self.me,
        };
        let items = one(self.alloc, item)?;
        let sends = self.send(Payload::Connect {
            client: self.me,
            session,
            heard: 0,
        })?;
        self.state = ClientState::Live { session };
        self.switch.answered();
        self.calls = 0;
        self.commands = 0;
        self.sequencer = Sequencer::new(self.alloc, session);
        self.requests.clear();
        Ok(ClientOut { items, sends })
    }

    #[tactic(auto, using(crate::proofs::Refused::gets_none, crate::proofs::Refused::gets_some))]
    /// A command gets its reply: the first one is kept.
    fn take_reply(
        &mut self,
        seq: u64,
        place: u64,
        events: u64,
        reply: &Reply,
    ) -> Result<ClientOut, NoMemory>
        requires { numbered.IsSound self.old.client }
        ensures ok { IfOk result (λ out. out ≡ (receipts.gets self.old.client (receipts.asked_command self.old.client.sequencer.calls seq) (record { place = place; events = events; reach = None; reply = reply.now })).out) }
        ensures after { OnOk result (self.new.client ≡ (receipts.gets self.old.client (receipts.asked_command self.old.client.sequencer.calls seq) (record { place = place; events = events; reach = None; reply = reply.now })).client) }
        ensures moves { self.new.moves ≡ self.old.moves }
    {
        match self.sequencer.waiting_command(seq) {
            Some(number) => {
                let got = Got {
                    place,
                    events,
                    reach: None,
                    reply: reply.copy()?,
                };
                self.get(number, got)
            }
            None => Ok(self.nothing()),
        }
    }

    #[tactic(auto, using(crate::proofs::Refused::gets_none, crate::proofs::Refused::gets_some))]
    /// A query gets its answer: the first one is kept.
    fn take_answer(
        &mut self,
        number: u64,
        level: Level,
        place: u64,
        events: u64,
        reach: Option<(u64, u64)>,
        reply: &Reply,
    ) -> Result<ClientOut, NoMemory>
        requires { numbered.IsSound self.old.client }
        ensures ok { IfOk result (λ out. out ≡ (receipts.gets self.old.client (receipts.asked_query self.old.client.sequencer.calls number level) (record { place = place; events = events; reach = reach; reply = reply.now })).out) }
        ensures after { OnOk result (self.new.client ≡ (receipts.gets self.old.client (receipts.asked_query self.old.client.sequencer.calls number level) (record { place = place; events = events; reach = reach; reply = reply.now })).client) }
        ensures moves { self.new.moves ≡ self.old.moves }
    {
        match self.sequencer.waiting_query(number, level) {
            Some(number) => {
                let got = Got {
                    place,
                    events,
                    reach,
                    reply: reply.copy()?,
                };
                self.get(number, got)
            }
            None => Ok(self.nothing()),
        }
    }

    #[tactic(auto, using(crate::proofs::Sound::sound_answered))]
    /// A call that lacks an answer gets it, and what may be given out by now is.
    fn get(&mut self, number: u64, got: Got) -> Result<ClientOut, NoMemory>
        requires { numbered.IsSound self.old.client }
        ensures ok { IfOk result (λ out. out ≡ (receipts.releases (record self.old.client { sequencer = sequencers.with_answer self.old.client.sequencer number got }) []).out) }
        ensures after { OnOk result (self.new.client ≡ (receipts.releases (record self.old.client { sequencer = sequencers.with_answer self.old.client.sequencer number got }) []).client) }
        ensures moves { self.new.moves ≡ self.old.moves }
    {
        self.sequencer.answered(number, got);
        self.release(Vec::new(self.alloc))
    }

    /// The commands above the last one that the session state knows are sent again.
    fn fill_gap(&self, last: u64) -> Result<ClientOut, NoMemory>
        ensures { IfOk result (λ out. out ≡ record { items = []; sends = clients.to_server self.now.client (receipts.gap_of self.now.client last) }) }
    {
        Ok(ClientOut {
            items: List::new(self.alloc),
            sends: self.send_all(self.gap(last)?)?,
        })
    }

    #[tactic(auto, using(crate::proofs::Sound::sound_heard))]
    /// A batch of events: the next one is told, and lets answers go that waited for it.
    fn take_batch(
        &mut self,
        node: NodeId,
        place: u64,
        prev: u64,
        events: &List<Event>,
    ) -> Result<ClientOut, NoMemory>
        requires { numbered.IsSound self.old.client }
        ensures ok { IfOk result (λ out. out ≡ (receipts.takes_batch self.old.client node (record { place = place; prev = prev; events = events.now }) (sequencers.heard_of self.old.client.sequencer (record { place = place; prev = prev; events = events.now }))).out) }
        ensures after { OnOk result (self.new.client ≡ (receipts.takes_batch self.old.client node (record { place = place; prev = prev; events = events.now }) (sequencers.heard_of self.old.client.sequencer (record { place = place; prev = prev; events = events.now }))).client) }
        ensures moves { self.new.moves ≡ self.old.moves }
    {
        // The sequencer looks at the places alone: an old batch is not copied.
        let places = Batch {
            place,
            prev,
            events: List::new(self.alloc),
        };
        match self.sequencer.batch(&places) {
            Heard::Old => Ok(self.nothing()),
            Heard::Taken => self.tell(place, prev, events.copy()?),
            Heard::Missing { heard } => self.reset(node, heard),
        }
    }

    /// A batch of events is told, and what waited for it is given out.
    fn tell(&mut self, place: u64, prev: u64, events: List<Event>) -> Result<ClientOut, NoMemory>
        requires { numbered.IsSound self.old.client }
        ensures ok { IfOk result (λ out. out ≡ (receipts.releases self.old.client (item.Event (clients.own_session self.old.client.state) place prev events ∷ [])).out) }
        ensures after { OnOk result (self.new.client ≡ (receipts.releases self.old.client (item.Event (clients.own_session self.old.client.state) place prev events ∷ [])).client) }
        ensures moves { self.new.moves ≡ self.old.moves }
    {
        let mut items = Vec::with_capacity(self.alloc, 1)?;
        items.push(Item::Event {
            session: self.session(),
            place,
            prev,
            events,
        })?;
        self.release(items)
    }

    /// A node is asked for the batches above the last one heard.
    fn reset(&self, node: NodeId, heard: u64) -> Result<ClientOut, NoMemory>
        ensures { IfOk result (λ out. out ≡ record { items = []; sends = (node, payload.Reset self.now.client.me (clients.own_session self.now.client.state) heard) ∷ [] }) }
    {
        let payload = Payload::Reset {
            client: self.me,
            session: self.session(),
            heard,
        };
        Ok(ClientOut {
            items: List::new(self.alloc),
            sends: one(self.alloc, (node, payload))?,
        })
    }

    #[tactic(auto, using(crate::proofs::Numbers::outcomes_of))]
    /// The session ends: its calls without an outcome are in doubt, or lost. Nothing changes after want of memory.
    fn take_end(&mut self, session: u64, place: u64, how: How) -> Result<ClientOut, NoMemory>
        requires { numbered.IsSound self.old.client }
        ensures ok { IfOk result (λ out. out ≡ (receipts.takes_end self.old.client session place how).out) }
        ensures after { OnOk result (self.new.client ≡ (receipts.takes_end self.old.client session place how).client) }
        ensures moves { self.new.moves ≡ self.old.moves }
    {
        let items = self.end_items(session, place, how)?;
        self.state = ClientState::Ended { session };
        self.sequencer.clear();
        self.requests.clear();
        Ok(ClientOut {
            items: List::from_vec(items),
            sends: List::new(self.alloc),
        })
    }
}
