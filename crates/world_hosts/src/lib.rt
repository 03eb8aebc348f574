//! The nodes of a world: each a server with its clock, over its store.
#![tactic(auto)]

mod conflicts;
mod host;
mod hosts;
mod served;

pub use hosts::Hosts;
pub use served::Served;
