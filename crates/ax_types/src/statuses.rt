use thiserror::Error;

/// Why a script was refused.
#[derive(Clone, Copy, Debug, PartialEq)]
pub enum Why {
    Cluster,
    LineTooLong,
    TooLong,
    Grammar,
    NoSession,
}

/// Why an input was no report.
#[derive(Clone, Copy, Debug, PartialEq, Error)]
pub enum ReportWhy {
    #[error("longer than a report may be")]
    TooLong,
    #[error("not JSON")]
    Json,
    #[error("not of the form of a report")]
    Shape,
}

/// How a run of the program ended.
#[derive(Clone, Copy, Debug, PartialEq)]
pub enum Status {
    Done,
    Usage,
    Script { line: u64, why: Why },
    ReadFault,
    WriteFault,
    NoMemory,
    StoreNotEmpty { node: u8 },
    StoreFault { node: u8 },
    StepLimit { line: u64 },
    NoThread,
    StoreBad { node: u8, at: u64 },
    NotReport { why: ReportWhy },
    NoMajority { good: u8, nodes: u8 },
}
