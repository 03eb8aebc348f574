ghost use Rattle.std.specs.Prelude.{◌≡◌, ℕ, Bool};

use crate::{
    Act, Batch, ClientId, How, Item, Level, List, Name, NodeId, Packet, Payload, Query, Reply,
    Saves,
};

/// What is known of a session (Ongaro 2014, 6.3).
#[derive(Clone, Copy)]
pub enum SessionState {
    Unknown,
    Live,
    Ended { place: u64, how: How },
}

/// A reply that is kept for a command that comes again.
#[derive(Drop)]
pub struct KeptReply {
    pub seq: u64,
    pub place: u64,
    /// The place of the session's last batch after the command, or 0.
    pub events: u64,
    pub reply: Reply,
}

/// What a committed entry did, and what is answered and told.
#[derive(Drop)]
pub struct Applied {
    pub act: Act,
    pub reply: Option<Reply>,
    pub answer: Option<(ClientId, Payload)>,
    /// Each session that is told events, with its batch.
    pub batches: List<(u64, Batch)>,
}

/// What a query is answered.
#[derive(Drop)]
pub enum Asked {
    Answer {
        place: u64,
        events: u64,
        reply: Reply,
    },
    Ended {
        place: u64,
        how: How,
    },
}

/// A query that waits until a server's state is new enough for it.
#[derive(Drop)]
pub struct Held {
    pub client: ClientId,
    pub session: u64,
    pub call: u64,
    pub place: u64,
    pub seq: u64,
    pub level: Level,
    /// The term and the arrival number of a linearizable query.
    pub reach: Option<(u64, u64)>,
    pub name: Name,
    pub query: Query,
}

/// What a server node is asked to do. A clock is in units of log time.
#[derive(Drop)]
pub enum ServerInput {
    Elect { clock: u64 },
    Beat { clock: u64 },
    Check { clock: u64 },
    Packet { clock: u64, packet: Packet },
}

/// What a step of a server node gives.
#[derive(Drop)]
pub struct ServerOut {
    pub saves: Saves,
    pub packets: List<Packet>,
    pub committed: u64,
    /// The time and the act of each place that the step applied, the last of them being `committed`.
    pub acts: List<(u64, Act)>,
    /// The term in which the node became leader.
    pub led: Option<u64>,
    pub reach: Option<Item>,
}

/// Whether a state is new enough for a query.
pub trait Ready {
    ghost is_ready: { Self → ℕ → ℕ → ℕ → Bool };

    /// Whether the applied place is at least `place`, and the session has ended, or is live with at least `seq` commands.
    fn ready(&self, session: u64, place: u64, seq: u64) -> bool
        ensures { result ≡ is_ready self.now session place seq };
}

/// A call as the sequencer is told of it. A query has no sequence, a command no level.
#[derive(Clone, Copy)]
pub struct AskedCall {
    pub number: u64,
    pub seq: Option<u64>,
    pub level: Option<Level>,
}

/// The answer that a call has got.
#[derive(Drop)]
pub struct Got {
    pub place: u64,
    pub events: u64,
    pub reach: Option<(u64, u64)>,
    pub reply: Reply,
}

/// What became of a batch of events at a client.
#[derive(Clone, Copy)]
pub enum Heard {
    Old,
    Taken,
    Missing { heard: u64 },
}

/// The answers that are released in order, and the query that is asked again.
#[derive(Drop)]
pub struct Released {
    pub items: List<(u64, Got)>,
    pub again: Option<u64>,
}

/// The state of a client.
#[derive(Clone, Copy)]
pub enum ClientState {
    NoneYet,
    Opening,
    Live { session: u64 },
    Closing { session: u64 },
    Ended { session: u64 },
}

/// What a step of a client gives: its items, and the requests that it sends, each with its node.
#[derive(Drop)]
pub struct ClientOut {
    pub items: List<Item>,
    pub sends: List<(NodeId, Payload)>,
}
