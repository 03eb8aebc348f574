use crate::{Act, ClientId, Item, List, NodeId, Step, WatchKind, WindowCall};

/// A line of a script after its cluster line.
#[derive(Drop)]
pub enum Line {
    Do(Step),
    /// Delivers, again and again, the first packet that can be delivered.
    Flush,
    /// `flush`, `beat`, `flush`, `beat`, `flush`.
    Settle(NodeId),
}

/// The calls of a caller: `count` times `call`, appended to the list of caller `caller`.
#[derive(Drop)]
pub struct CallerLine {
    pub line: u64,
    pub caller: u8,
    pub count: u64,
    pub call: WindowCall,
}

/// A script that was read.
#[derive(Drop)]
pub struct Script {
    pub nodes: u8,
    pub clients: u8,
    /// The time without a sign after which a session may be ended, in units of log time.
    pub timeout: u64,
    /// The lines, each with its number in the input.
    pub lines: List<(u64, Line)>,
    pub callers: List<CallerLine>,
    /// The steps that `race` makes in a round, each with the number of its round.
    pub plan: List<(u64, Step)>,
    pub feeds: List<(ClientId, WatchKind)>,
    /// The number of the last line that is not empty.
    pub last_line: u64,
}

/// What the words of a command line ask for. A folder is its path.
#[derive(Drop)]
pub enum Command {
    Run {
        json: bool,
    },
    RunIn {
        folder: List<u8>,
        json: bool,
    },
    Gen {
        seed: u32,
    },
    Race {
        steps: bool,
    },
    Upgrade {
        folder: List<u8>,
    },
    Audit {
        timeout: u64,
    },
    Salvage {
        folder: List<u8>,
        nodes: u8,
        timeout: u64,
    },
}

/// How a run ended: all lines were run, or the line needed one step more than the limit.
#[derive(Clone, Copy)]
pub enum RunEnd {
    Done,
    StepLimit { line: u64 },
}

/// What a report says: the items, the history, the calls without an outcome (session and number), and the end.
#[derive(Drop)]
pub struct Report {
    pub items: List<Item>,
    pub history: List<(u64, Act)>,
    pub waiting: List<(u64, u64)>,
    pub end: RunEnd,
}
