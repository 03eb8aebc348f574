use crate::{
    ClientId, Duplicate, End, Event, How, Level, List, NoMemory, NodeId, PayloadKind, Reply,
    WatchKind, WindowCall,
};

/// Why a step was skipped.
#[derive(Clone, Copy)]
pub enum SkipReason {
    NodeDown,
    IsLeader,
    NotLeader,
    NodeUp,
    NeverSent,
    Gone,
    Cut,
    SessionOpen,
    NoSession,
    WindowFull,
    Busy { unanswered: u64 },
    Watched,
}

/// What a step shows: one line of the report.
#[derive(Clone, Drop)]
pub enum Item {
    Leader {
        node: NodeId,
        term: u64,
    },
    Commit {
        place: u64,
    },
    Reach {
        node: NodeId,
        term: u64,
        arrival: u64,
        session: u64,
        number: u64,
    },
    Halted {
        node: NodeId,
    },
    Opened {
        session: u64,
        client: ClientId,
    },
    Called {
        session: u64,
        number: u64,
        call: WindowCall,
    },
    Event {
        session: u64,
        place: u64,
        prev: u64,
        events: List<Event>,
    },
    Watched {
        client: ClientId,
        kind: WatchKind,
        session: u64,
        place: u64,
        event: Event,
    },
    Reply {
        session: u64,
        number: u64,
        place: u64,
        reply: Reply,
    },
    Read {
        session: u64,
        number: u64,
        level: Level,
        place: u64,
        reach: Option<(u64, u64)>,
        reply: Reply,
    },
    Ended {
        session: u64,
        place: u64,
        how: How,
    },
    Doubt {
        session: u64,
        number: u64,
    },
    Lost {
        session: u64,
        number: u64,
    },
    Unsent {
        session: u64,
        number: u64,
    },
    Unanswered {
        session: u64,
        number: u64,
    },
    Listed {
        count: u64,
    },
    Pending {
        number: u64,
        from: End,
        to: End,
        kind: PayloadKind,
    },
    Skip {
        reason: SkipReason,
    },
}

impl Duplicate for Item {
    fn copy(&self) -> Result<Item, NoMemory> {
        Ok(self.clone()?)
    }
}
