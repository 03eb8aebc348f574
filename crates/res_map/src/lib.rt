//! Maps whose entries may have a life in log time.
#![tactic(auto)]

mod entries;
mod items;
mod map;

pub use map::MapBox;
