//! The law of what is handed out: each offered text goes to at most one poll, in order, and no two replies have one place.
#![tactic(auto)]

ghost use Rattle.law_handed.specs.HandedOnce as laws;

/// What is faithful to a history hands out once: the queues of the history in order, and each act's reply to one call.
pub fn faithful_runs_hand_once()
    ensures { laws.FaithfulRunsHandOnce }
{}

/// Whatever steps are made, and however the stores fare in them, a run hands out once.
pub fn runs_hand_once()
    ensures { laws.RunsHandOnce }
{}
