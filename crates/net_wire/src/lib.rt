//! Packets and entries as bytes: written, and read as whole, as a part, or as wrong.
#![tactic(auto)]

mod reader;
mod unread;
mod wire;
mod writer;

pub use reader::Reader;
pub use unread::Unread;
pub use wire::{read, read_entry, write, write_entry};
pub use writer::{put_entry, put_payload, put_u64};
