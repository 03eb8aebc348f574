//! What keeps a node's term, vote and log over its halts: a store in memory, and a journal over a keeper of bytes.
#![tactic(auto)]

mod calls;
mod journal_store;
mod keepers;
mod mem_keeper;
mod mem_store;
mod reading;
mod record_reader;
mod record_writer;
mod records;
mod stores;

pub use journal_store::JournalStore;
pub use keepers::Keeper;
pub use mem_keeper::MemKeeper;
pub use mem_store::MemStore;
pub use stores::NodeStore;
