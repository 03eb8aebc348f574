//! What arrives of a packet's payload, which goes over the network as bytes.
#![tactic(auto)]

mod arrival;

pub use arrival::arrive;
