use crate::{
    ClientId, Duplicate, End, Entry, Event, How, Level, List, Name, NoMemory, Op, Query, Reply,
};

/// What a packet says. The first four are between nodes, the next seven ask a node, the last six tell a client.
#[derive(Clone, Drop)]
pub enum Payload {
    Vote {
        term: u64,
        last: u64,
        last_term: u64,
    },
    VoteReply {
        term: u64,
        granted: bool,
    },
    Append {
        term: u64,
        prev: u64,
        prev_term: u64,
        commit: u64,
        round: u64,
        entries: List<Entry>,
    },
    AppendReply {
        term: u64,
        ok: bool,
        place: u64,
        round: u64,
    },
    Register {
        client: ClientId,
        opening: u64,
    },
    Keep {
        client: ClientId,
        session: u64,
        answered: u64,
        heard: u64,
    },
    Command {
        client: ClientId,
        session: u64,
        seq: u64,
        name: Name,
        op: Op,
    },
    Close {
        client: ClientId,
        session: u64,
    },
    Query {
        client: ClientId,
        session: u64,
        call: u64,
        level: Level,
        seen: u64,
        seq: u64,
        name: Name,
        query: Query,
    },
    Connect {
        client: ClientId,
        session: u64,
        heard: u64,
    },
    Reset {
        client: ClientId,
        session: u64,
        heard: u64,
    },
    Opened {
        opening: u64,
        session: u64,
    },
    Reply {
        session: u64,
        seq: u64,
        place: u64,
        events: u64,
        reply: Reply,
    },
    Gap {
        session: u64,
        last: u64,
    },
    Answer {
        session: u64,
        call: u64,
        level: Level,
        place: u64,
        events: u64,
        term: u64,
        arrival: u64,
        reply: Reply,
    },
    Batch {
        session: u64,
        place: u64,
        prev: u64,
        events: List<Event>,
    },
    Ended {
        session: u64,
        place: u64,
        how: How,
    },
}

impl Duplicate for Payload {
    fn copy(&self) -> Result<Payload, NoMemory> {
        Ok(self.clone()?)
    }
}

/// A packet on its way.
#[derive(Drop)]
pub struct Packet {
    pub from: End,
    pub to: End,
    pub payload: Payload,
}

impl Duplicate for Packet {
    fn copy(&self) -> Result<Packet, NoMemory> {
        Ok(Packet {
            from: self.from,
            to: self.to,
            payload: self.payload.copy()?,
        })
    }
}

/// The kind of a payload.
#[derive(Clone, Copy)]
pub enum PayloadKind {
    Vote,
    VoteReply,
    Append,
    AppendReply,
    Register,
    Keep,
    Command,
    Close,
    Query,
    Connect,
    Reset,
    Opened,
    Reply,
    Gap,
    Answer,
    Batch,
    Ended,
}
