//! Tests of the program's run, and of the sources and sinks that it reads and writes.
#![tactic(auto)]

#[cfg(test)]
mod runs;
#[cfg(test)]
mod sources_and_sinks;
