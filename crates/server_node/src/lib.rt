//! One server node: its Raft node, the session state, the queries that it holds and the sessions that are connected to it, and
//! one step of all (Ongaro 2014, chapter 6).
#![tactic(auto)]

mod rules;
mod server;

pub use server::ServerNode;
