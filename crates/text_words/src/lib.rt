//! Reads the words of a line: numbers, names, operations, queries and calls.
#![tactic(auto)]

mod calls;
mod numbers;
mod operands;
mod operations;
mod queries;

pub use calls::{call, command_call, level, leveled_call};
pub use numbers::{client, life, node, number, packet_number, signed, time, timeout};
pub use operands::{is, key_and_text, name, only_key, only_signed, only_text, without_operands};
