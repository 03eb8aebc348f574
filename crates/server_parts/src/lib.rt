//! What a server keeps beside its Raft node: the session state, the queries that it holds, the reads that wait for a round and
//! the sessions that are connected to it; and what a step makes of them once the Raft node has stepped (Ongaro 2014, chapter 6).
#![tactic(auto)]

mod answers;
mod connections;
mod holding;
mod parts;
mod places;
mod readings;
mod requests;

pub use parts::Parts;
pub use requests::{Asks, Hearing};
