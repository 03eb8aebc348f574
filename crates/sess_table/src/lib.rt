//! The table of sessions: which are live, with their last signs of life, and which have ended (Ongaro 2014, 6.3).
#![tactic(auto)]

mod live;
mod signs;
mod table;

pub use table::Table;
