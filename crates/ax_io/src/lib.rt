//! Where bytes come from and go to: sources and sinks, each with a count of its faults.
//!
//! A source or a sink may tell its content to contracts. Those in memory do, and fail at the calls
//! that they are given. Those over real input and output tell nothing, so no contract says which
//! bytes they move.
#![tactic(auto)]

mod failures;
mod in_memory;
mod sinks;
mod sources;
mod standard;

pub use failures::{Failed, Faults};
pub use in_memory::{MemSink, MemSource};
pub use sinks::{Sink, put_all};
pub use sources::{ReadError, Source, read_up_to};
pub use standard::{StdSink, StdSource};
