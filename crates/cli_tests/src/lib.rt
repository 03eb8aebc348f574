//! Tests of a client and its parts, and of the filters of watches.
#![tactic(auto)]

#[cfg(test)]
mod filters;
