//! The network: packets that may be lost, repeated, delayed and reordered, and links that may be cut.
#![tactic(auto)]

mod bag;
mod ends;
mod fronts;
mod links;
mod packets;
mod slots;
mod ways;

pub use bag::Bag;
