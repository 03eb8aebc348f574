//! Reads a report from its JSON form.
#![tactic(auto)]

mod acts;
mod items;
mod operands;
mod replies;
mod report;

pub use report::read_report;
