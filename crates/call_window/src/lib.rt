//! The call window: one session that many threads share without a lock. Callers submit calls and poll for their outcomes,
//! and one pump takes the calls in order of their numbers and answers them. No call takes memory, a lock or a wait, but
//! `Window::open`, which takes all of the memory.
#![tactic(auto)]

mod close;
mod open;
mod poll;
mod pump;
mod seats;
mod submit;
mod words;

pub use close::Closed;
pub use seats::{CallerSeat, Pump, Window};
