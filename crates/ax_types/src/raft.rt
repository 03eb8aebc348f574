use crate::{Body, Entry, List, NodeId, Packet, Payload};

/// What a Raft node is asked to do. A clock is in units of log time.
#[derive(Drop)]
pub enum RaftInput {
    Elect {
        clock: u64,
    },
    Beat,
    Append {
        clock: u64,
        bodies: List<Body>,
    },
    Read,
    Message {
        from: NodeId,
        clock: u64,
        payload: Payload,
    },
}

/// What a step of a node has to keep, in the order vote, cut, add, before anything else of it counts.
#[derive(Drop)]
pub struct Saves {
    /// The term and the vote in it, where one of them changed.
    pub vote: Option<(u64, Option<NodeId>)>,
    /// The last place that stays, where entries were cut.
    pub cut: Option<u64>,
    pub add: List<Entry>,
}

/// What a step of a Raft node gives.
#[derive(Drop)]
pub struct Out {
    pub saves: Saves,
    pub packets: List<Packet>,
    /// The commit place after the step.
    pub committed: u64,
    /// The reads that are ready: each arrival number with its place.
    pub reads: List<(u64, u64)>,
    /// The arrival number of the read that was taken.
    pub reached: Option<u64>,
    /// Whether the node became leader.
    pub led: bool,
}

/// What `cut_and_add` did to a log: the place of the first conflict, and how many entries were new.
#[derive(Clone, Copy)]
pub struct Change {
    pub cut: Option<u64>,
    pub added: u64,
}

/// What a node of a cluster of Raft nodes alone is asked to do.
#[derive(Drop)]
pub enum NodeInput {
    Elect {
        node: NodeId,
        clock: u64,
    },
    Beat {
        node: NodeId,
    },
    Append {
        node: NodeId,
        clock: u64,
        bodies: List<Body>,
    },
    Read {
        node: NodeId,
    },
    Deliver {
        number: u64,
        clock: u64,
    },
    Crash {
        node: NodeId,
    },
    Start {
        node: NodeId,
    },
}

/// A step of a cluster of Raft nodes alone.
#[derive(Drop)]
pub enum RaftStep {
    Made {
        input: NodeInput,
    },
    /// The node's store failed after the first `saved` saves of the input; `added` entries of a failed `add` stayed.
    Halt {
        input: NodeInput,
        saved: u64,
        added: u64,
    },
}
