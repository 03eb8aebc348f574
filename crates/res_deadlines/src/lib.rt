//! The index of the times at which lives end.
#![tactic(auto)]

mod deadlines;

pub use deadlines::Deadlines;
