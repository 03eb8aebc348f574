//! The run of a script over the world and its stores, step by step, to its end or to the line that needs more steps than a run may
//! have.
#![tactic(auto)]

mod lines;
mod telling;
mod whole;

pub use telling::GivenUp;
pub use whole::{Ran, run_script};
