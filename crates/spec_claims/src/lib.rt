//! Definitions of the claims that make a transcript and its history faithful.
#![tactic(auto)]
