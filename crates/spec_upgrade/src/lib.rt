//! Definitions of an upgrade: what the command does to nine journals, and what it prints.
#![tactic(auto)]
