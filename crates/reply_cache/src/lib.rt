//! The replies that are kept for a session, since a command may come again (Ongaro 2014, 6.3).
#![tactic(auto)]

mod cache;

pub use cache::Cache;
