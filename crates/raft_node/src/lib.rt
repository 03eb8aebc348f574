//! One Raft node: what it keeps, and its step for each input (Ongaro 2014, chapters 3 and 6).
#![tactic(auto)]

mod did;
mod election;
mod follower;
mod leader;
mod leading;
mod node;
mod others;
mod packets;
mod step;

pub use node::RaftNode;
