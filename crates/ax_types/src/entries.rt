use crate::{ClientId, Duplicate, Event, List, Name, NoMemory, NodeId, Op};

/// What an entry of the log asks for (Ongaro 2014, 3.5 and 6.3).
#[derive(Clone, Drop)]
pub enum Body {
    Blank,
    Register {
        client: ClientId,
        opening: u64,
    },
    Keep {
        client: ClientId,
        session: u64,
        answered: u64,
        heard: u64,
    },
    Command {
        client: ClientId,
        session: u64,
        seq: u64,
        name: Name,
        op: Op,
    },
    Close {
        client: ClientId,
        session: u64,
    },
    Expire {
        session: u64,
    },
}

impl Duplicate for Body {
    fn copy(&self) -> Result<Body, NoMemory> {
        Ok(self.clone()?)
    }
}

/// An entry of a log: the term of the leader that made it, its log time, and what it asks for.
#[derive(Clone, Drop)]
pub struct Entry {
    pub term: u64,
    pub time: u64,
    pub body: Body,
}

impl Duplicate for Entry {
    fn copy(&self) -> Result<Entry, NoMemory> {
        Ok(self.clone()?)
    }
}

/// What a committed entry did. A session is named by the place of its `Open`.
#[derive(Clone, Drop)]
pub enum Act {
    Nothing,
    Open { client: ClientId, opening: u64 },
    Keep { session: u64 },
    Do { session: u64, name: Name, op: Op },
    Close { session: u64 },
    Expire { session: u64 },
}

impl Duplicate for Act {
    fn copy(&self) -> Result<Act, NoMemory> {
        Ok(self.clone()?)
    }
}

/// The events that a session is told at one place, with the place of its batch before, or 0.
#[derive(Clone, Drop)]
pub struct Batch {
    pub place: u64,
    pub prev: u64,
    pub events: List<Event>,
}

impl Duplicate for Batch {
    fn copy(&self) -> Result<Batch, NoMemory> {
        Ok(self.clone()?)
    }
}

/// What a node's store has kept: the term, the vote in it, and the log.
#[derive(Drop)]
pub struct Loaded {
    pub term: u64,
    pub vote: Option<NodeId>,
    pub log: List<Entry>,
}

/// What a store's upgrade found: the version of its journal, and the number of entries.
#[derive(Clone, Copy)]
pub struct Upgraded {
    pub version: u8,
    pub entries: u64,
}
