use crate::{ClientId, Event, Loaded, Outcome, RunEnd, WatchKind};

/// What became of a call of a caller, by its number in the session: one caller line of a report.
#[derive(Drop)]
pub struct CallerOutcome {
    pub caller: u8,
    pub number: u64,
    pub outcome: Outcome,
}

/// An event that the listener of a feed heard: one feed line of a report.
#[derive(Drop)]
pub struct FeedEvent {
    pub feed: u8,
    pub client: ClientId,
    pub kind: WatchKind,
    pub session: u64,
    pub place: u64,
    pub event: Event,
}

/// The summary of a generated run: the steps made, the places of the history, and the items of five kinds.
#[derive(Clone, Copy)]
pub struct Summary {
    pub seed: u32,
    pub steps: u64,
    pub places: u64,
    pub called: u64,
    pub replies: u64,
    pub reads: u64,
    pub events: u64,
    pub skips: u64,
    pub end: RunEnd,
}

/// What a salvage found in the store of a node.
#[derive(Drop)]
pub enum Found {
    Good { node: u8, loaded: Loaded },
    /// Its term is 0, and it has no vote and no entry.
    Empty { node: u8 },
    /// Its bytes are no journal; `at` is the offset of the first byte that belongs to no record.
    Bad { node: u8, at: u64 },
}

/// The clauses of an audit, in the order in which they are tried.
#[derive(Clone, Copy)]
pub enum Clause {
    Lawful,
    Right,
    Length,
    Fresh,
    Once,
    Growing,
    Heard,
    Outcomes,
    Ends,
    Waiting,
}

/// What an audit says of a report. `session` is the least one that breaks the clause, or 0 where the clause is of no
/// session.
#[derive(Clone, Copy)]
pub enum Verdict {
    Faithful,
    Broken { clause: Clause, session: u64 },
}
