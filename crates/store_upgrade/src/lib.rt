//! The stores of a cluster are brought to the newest version of their journals, and what was found in each is told.
#![tactic(auto)]

mod found_lines;
mod upgrading;

pub use upgrading::{UpgradeRefused, upgrade_stores};
