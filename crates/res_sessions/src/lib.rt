//! The sessions of a resource: those that listen, and those that stand in line.
#![tactic(auto)]

mod listeners;
mod queue;

pub use listeners::Listeners;
pub use queue::SessionQueue;
