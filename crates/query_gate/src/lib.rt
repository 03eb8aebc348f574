//! Queries that wait until a server's state is new enough for them (Ongaro 2014, 6.4).
#![tactic(auto)]

mod gate;

pub use gate::QueryGate;
