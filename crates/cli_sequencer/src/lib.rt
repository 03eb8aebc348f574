//! The calls of a session that lack an outcome: their answers are given out in order of call.
#![tactic(auto)]

mod sequencer;
mod unanswered;

pub use sequencer::Sequencer;
