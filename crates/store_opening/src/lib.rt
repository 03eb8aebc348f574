//! The stores of a cluster are opened before a run, which begins with empty ones.
#![tactic(auto)]

mod opening;

pub use opening::{OpenRefused, open_stores};
