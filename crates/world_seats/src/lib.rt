//! The clients of a world, each with its watches.
#![tactic(auto)]

mod given;
mod seat;
mod seats;
mod shown;

pub use given::SeatStep;
pub use seats::Seats;
