//! A Raft node's log.
#![tactic(auto)]

mod log;

pub use log::{Log, copies, first_conflict};
