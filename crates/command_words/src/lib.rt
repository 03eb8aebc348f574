//! Reads the words of the command line.
#![tactic(auto)]

mod words;

pub use words::{WordsRefused, command_of};
