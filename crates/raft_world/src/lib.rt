//! A cluster of Raft nodes joined by a network: whatever is lost, repeated or reordered, and whichever nodes and stores fail,
//! what is committed agrees (Ongaro 2014, chapter 3).
#![tactic(auto)]

mod cluster;
mod gains;
mod history;
mod intakes;
mod members;
mod saves;
mod world;

pub use world::RaftWorld;
