//! The headline of a race: what it shows is faithful, the calls that its pump left without an outcome included.
#![tactic(auto)]

ghost use Rattle.law_race.specs.LeftOpen as laws;

/// Whatever steps are made, and however the stores fare in them, what a run shows stays faithful to its history where each
/// call that a session still waits for is told as unanswered.
pub fn races_are_faithful()
    ensures { laws.RacesAreFaithful }
{}
