//! Definitions of a salvage: what the stores of a cluster still tell of its history.
#![tactic(auto)]
