//! Values and longs.
#![tactic(auto)]

mod long;
mod value;

pub use long::LongBox;
pub use value::ValueBox;
