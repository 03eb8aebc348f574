//! The whole simulated system, as definitions: servers, clients and the network, and every step with its items.
#![tactic(auto)]
