//! The network, and a cluster of Raft nodes alone over it, as definitions: what every list of steps leads to.
#![tactic(auto)]
