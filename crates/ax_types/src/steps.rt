use crate::{ClientId, Duplicate, End, Level, Name, NoMemory, NodeId, Op, Query};

/// Which events a watch holds.
#[derive(Clone, Copy, PartialEq)]
pub enum WatchKind {
    All,
    Changes,
    Grants,
}

/// One step of a script.
#[derive(Clone, Drop)]
pub enum Step {
    Elect {
        node: NodeId,
    },
    Beat {
        node: NodeId,
    },
    Crash {
        node: NodeId,
    },
    Start {
        node: NodeId,
    },
    Clock {
        node: NodeId,
        time: u64,
    },
    Expire {
        node: NodeId,
    },
    Cut {
        one: End,
        other: End,
    },
    Join {
        one: End,
        other: End,
    },
    Deliver {
        number: u64,
    },
    Drop {
        number: u64,
    },
    Short {
        number: u64,
        bytes: u64,
    },
    List,
    Open {
        client: ClientId,
        node: NodeId,
    },
    Switch {
        client: ClientId,
        node: NodeId,
    },
    Resend {
        client: ClientId,
    },
    Keep {
        client: ClientId,
    },
    Close {
        client: ClientId,
    },
    Watch {
        client: ClientId,
        kind: WatchKind,
    },
    Call {
        client: ClientId,
        name: Name,
        op: Op,
    },
    Query {
        client: ClientId,
        level: Level,
        name: Name,
        query: Query,
    },
}

impl Duplicate for Step {
    fn copy(&self) -> Result<Step, NoMemory> {
        Ok(self.clone()?)
    }
}

/// How the stores fared in a step.
#[derive(Clone, Copy)]
pub enum StepOutcome {
    Fine,
    /// A store call failed, after this many store calls of the step that succeeded.
    Failed { saved: u64 },
    /// A start loaded its store, in which a failed `add` had left this many entries.
    Loaded { added: u64 },
}

/// A step that was made, with how the stores fared in it.
#[derive(Drop)]
pub struct KeptStep {
    pub step: Step,
    pub outcome: StepOutcome,
}
