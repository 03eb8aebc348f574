//! Definitions of histories, resources and the book that a history makes.
#![tactic(auto)]
