//! A client: its session, its calls and their answers in order, and its server.
#![tactic(auto)]

mod answers;
mod client;
mod parts;
mod receipts;
mod refusals;
mod requests;
mod states;
mod steps;

pub use client::Client;
