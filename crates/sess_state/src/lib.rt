//! The session state of one server, and what each entry of the log does to it (Ongaro 2014, 6.3).
#![tactic(auto)]

mod effects;
mod outbox;
mod outboxes;
mod parts;
mod state;
mod telling;

pub use state::SessState;
