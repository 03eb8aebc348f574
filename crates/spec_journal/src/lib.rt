//! The journal of a node's store: its records, what they leave, and what each call of a store appends.
#![tactic(auto)]
