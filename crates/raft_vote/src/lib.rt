//! A Raft node's term and vote, and the votes that it got.
#![tactic(auto)]

mod ballot;

pub use ballot::Ballot;
