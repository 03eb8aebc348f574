//! The headline of every run: what it shows is faithful to its history.
#![tactic(auto)]

ghost use Rattle.law_faithful.specs.Faith as laws;

/// Whatever steps are made, and however the stores fare in them, what a run shows is faithful to its history.
pub fn runs_are_faithful()
    ensures { laws.RunsAreFaithful }
{}
