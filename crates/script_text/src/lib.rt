//! Reads and writes the language of scripts.
#![tactic(auto)]

mod drafts;
mod lines;
mod scripts;
mod steps;
mod texts;

pub use scripts::{ScriptRefused, read_script};
pub use steps::watch_kind;
pub use texts::write_step;
