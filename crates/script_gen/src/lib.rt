//! The generator of scripts: a seed gives a script.
#![tactic(auto)]

mod draws;
mod script;
mod turns;

pub use script::gen_script;
