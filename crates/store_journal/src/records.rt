use ax_types::{Entry, NodeId};

/// A record of a journal.
#[derive(Drop)]
pub enum Record {
    /// The term, and the vote in it.
    Vote { term: u64, vote: Option<NodeId> },
    /// The last place that stays.
    Cut { last: u64 },
    /// An entry of a journal of version 1.
    Plain { entry: Entry },
    /// The number of entries, from which on each entry stands with its place.
    Count { entries: u64 },
    Placed { place: u64, entry: Entry },
}
