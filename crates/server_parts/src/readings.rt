ghost use Rattle.std.specs.Prelude.{◌≡◌, [], nat_eq, IfOk, OnOk};
ghost use Rattle.spec_server.specs.Gates as gates;
ghost use Rattle.spec_server.specs.ServerStep as server_steps;
ghost use Rattle.server_parts.specs.StepAsks as asked;

use ax_types::{Duplicate, Held, Item, NoMemory};
use raft_node::RaftNode;
use std::alloc::Global;
use std::marker::Model;

/// A linearizable query whose read waits for a round, by the number of its arrival.
#[derive(Drop)]
struct WaitingQuery {
    arrival: u64,
    held: Held,
}

impl Model for WaitingQuery {
    ghost use Rattle.spec_server.specs.Gates as gates;

    ghost Value = { gates.WaitingQuery };

    ghost view = { λ a. record { arrival = a.arrival; held = a.held } };
}

impl WaitingQuery {
    /// Whether its read has this number.
    fn is_of(&self, arrival: u64) -> bool
        ensures { result ≡ nat_eq self.now.arrival arrival }
    {
        self.arrival == arrival
    }

    /// Whether its read is among these.
    fn is_given(&self, reads: &[(u64, u64)]) -> bool
        ensures { result ≡ gates.is_given reads.now self.now.arrival }
    {
        is_given(reads, self.arrival)
    }

    /// The query, to be held until the greater of a place and its own.
    fn held_at(&self, place: u64) -> Result<Held, NoMemory>
        ensures { IfOk result (λ held. held ≡ gates.held_at place self.now.held) }
    {
        held_at(place, &self.held)
    }
}

/// The linearizable queries whose reads wait for a round, in order of arrival: at most the 256 reads of a leader.
#[derive(Drop)]
pub struct Readings {
    waiting: Vec<WaitingQuery>,
}

impl Model for Readings {
    ghost use Rattle.std.specs.Prelude.{List as Items};
    ghost use Rattle.spec_server.specs.Gates as gates;

    ghost Value = { Items gates.WaitingQuery };

    ghost view = { λ a. a.waiting.items };
}

impl Readings {
    /// No query. It takes no memory.
    pub fn new(alloc: Global) -> Self
        ensures { result ≡ [] }
    {
        Readings {
            waiting: Vec::new(alloc),
        }
    }

    /// A read that was taken waits with its query, and how it reached its leader is told.
    pub fn begin(
        &mut self,
        raft: &RaftNode,
        read: Option<Held>,
        reached: Option<u64>,
    ) -> Result<Option<Item>, NoMemory>
        ensures reach { IfOk result (λ reach. reach ≡ server_steps.reach_item raft.now read reached) }
        ensures after { OnOk result (self.new ≡ server_steps.with_reading self.old raft.now.ballot.term read reached) }
    {
        let Some(held) = read else {
            return Ok(None);
        };
        let Some(arrival) = reached else {
            return Ok(None);
        };
        let term = raft.term();
        let reach = Item::Reach {
            node: raft.me(),
            term,
            arrival,
            session: held.session,
            number: held.call,
        };
        let held = Held {
            reach: Some((term, arrival)),
            ..held
        };
        self.waiting.push(WaitingQuery { arrival, held })?;
        Ok(Some(reach))
    }

    /// The query of a read that is ready at a place, to be held until the greater of that place and what its session has
    /// seen; `None` where no query waits for the read.
    pub fn reading_at(&self, arrival: u64, place: u64) -> Result<Option<Held>, NoMemory>
        ensures { IfOk result (λ held. asked.listed held ≡ gates.reading_at place (gates.reading self.now arrival)) }
    {
        'waiting: for waiting in &self.waiting {
            if waiting.is_of(arrival) {
                let held = waiting.held_at(place)?;
                return Ok(Some(held));
            }
        }
        Ok(None)
    }

    /// The queries of these reads wait no more, and a node that does not lead has no reads.
    pub fn end(&mut self, raft: &RaftNode, reads: &[(u64, u64)])
        ensures { self.new ≡ server_steps.readings_after raft.now self.old reads.now }
    {
        if raft.is_leader() {
            self.forget(reads);
        } else {
            self.waiting.clear();
        }
    }

    /// The queries of these reads wait no more.
    fn forget(&mut self, reads: &[(u64, u64)])
        ensures { self.new ≡ gates.without_ready self.old reads.now }
    {
        if !reads.is_empty() {
            self.waiting.retain(|waiting| !waiting.is_given(reads));
        }
    }
}

/// Whether a read is among these.
fn is_given(reads: &[(u64, u64)], arrival: u64) -> bool
    ensures { result ≡ gates.is_given reads.now arrival }
{
    'reads: for read in reads {
        if read.0 == arrival {
            return true;
        }
    }
    false
}

/// The query, to be held until the greater of a place and its own.
fn held_at(place: u64, held: &Held) -> Result<Held, NoMemory>
    ensures { IfOk result (λ other. other ≡ gates.held_at place held.now) }
{
    Ok(Held {
        client: held.client,
        session: held.session,
        call: held.call,
        place: held.place.max(place),
        seq: held.seq,
        level: held.level,
        reach: held.reach,
        name: held.name.copy()?,
        query: held.query.copy()?,
    })
}
