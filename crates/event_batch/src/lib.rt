//! The batches of events that are kept for a session until its client has heard them (Ongaro 2014, 6.3).
#![tactic(auto)]

mod batches;

pub use batches::Batches;
