//! The filters of watches, as functions that are stored.
#![tactic(auto)]

mod filters;

pub use filters::{Filters, Hook};
