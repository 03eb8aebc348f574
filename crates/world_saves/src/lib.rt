//! The store calls of a step over a store, and what is kept where one of them fails.
#![tactic(auto)]

mod replaced;
mod save_chain;

pub use replaced::{Replaced, entries_at_stake, kept_before};
pub use save_chain::{SaveCall, SaveError, calls_before, save_all};
