//! Tests of reports, scripts and the scripts of seeds.
#![tactic(auto)]

#[cfg(test)]
mod reports;
#[cfg(test)]
mod scripts;
#[cfg(test)]
mod seeds;
