//! Tests of packets as bytes, of a store in memory and of a store over a journal.
#![tactic(auto)]

#[cfg(test)]
mod failing;
#[cfg(test)]
mod journals;
#[cfg(test)]
mod packets;
