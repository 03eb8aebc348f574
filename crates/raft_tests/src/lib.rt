//! Clusters of nodes, and the network alone: what is committed along schedules of faults.
#![tactic(auto)]

#[cfg(test)]
mod bags;
#[cfg(test)]
mod clusters;
#[cfg(test)]
mod halts;
#[cfg(test)]
mod schedules;
