ghost use Rattle.std.specs.Prelude.{◌≡◌};
ghost use Rattle.server_parts.specs.StepAsks as asked;

use ax_types::{ClientId, Held, Packet};

/// A Connect or a Reset: which session, whose, and what it has heard.
#[derive(Clone, Copy)]
pub struct Hearing {
    pub client: ClientId,
    pub session: u64,
    /// The place of the last batch that the client has, 0 where it has none.
    pub heard: u64,
}

/// What an input asks beside its part for the Raft node: a payload for another node, a query for the gate, a read, a
/// connection, an answer of batches.
#[derive(Drop)]
pub struct Asks {
    /// A packet that goes on to the known leader.
    pub passed: Option<Packet>,
    /// A sequential query, which waits at the gate.
    pub held: Option<Held>,
    /// A linearizable query, whose read the Raft node may have taken.
    pub read: Option<Held>,
    /// A session that is connected to this server from now on.
    pub connect: Option<Hearing>,
    /// A session that is told its end, or its batches above what it has heard.
    pub hearing: Option<Hearing>,
}

impl Asks {
    /// Nothing.
    pub fn nothing() -> Self
        ensures { asked.asks_of result ≡ asked.no_asks }
    {
        Asks {
            passed: None,
            held: None,
            read: None,
            connect: None,
            hearing: None,
        }
    }
}
