//! Values appended to bytes: after an `Err` the bytes may have part of a spelling behind what they had.

mod entries;
mod numbers;
mod operations;
mod payloads;
mod queries;
mod replies;
mod texts;

pub use entries::put_entry;
pub use numbers::put_u64;
pub use payloads::put_payload;
