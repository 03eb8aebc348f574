//! The rule that each atomic step of the call window keeps, over a table of words and slots, and what each step tells the seat
//! that makes it.
#![tactic(auto)]

mod known;
mod law;
mod parcel;
mod plays;

pub use known::Known;
pub use law::{TableSeat, WindowLaw};
pub use parcel::Parcel;
pub use plays::{
    About, Draws, Frees, Gives, Leaves, Meets, Parts, Publishes, Puts, Raises, SeesBase, SeesCall,
    SeesLast, SeesNext, SeesOutcome, SeesPassed, Takes,
};
