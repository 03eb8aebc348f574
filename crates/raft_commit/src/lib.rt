//! What a leader knows of the other nodes, and the reads that wait for a round.
#![tactic(auto)]

mod progress;
mod reads;

pub use progress::Progress;
pub use reads::Reads;
