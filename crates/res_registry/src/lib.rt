//! The book: every resource by its name, and what each act of a history makes of it.
#![tactic(auto)]

mod book;
mod kinds;
mod names;
mod shelf;
mod slot;
mod visits;

pub use crate::book::Book;
