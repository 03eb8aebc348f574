//! The world of a run: nodes with their stores, clients with their watches, the network between them, and one step of all.
#![tactic(auto)]

mod brought;
mod deliveries;
mod inputs;
mod links_cut;
mod own_steps;
mod scene;
mod sending;
mod worlds;

pub use worlds::World;
