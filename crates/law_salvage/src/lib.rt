//! The law of a salvage: what it prints begins with what a run committed.
#![tactic(auto)]

ghost use Rattle.law_salvage.specs.SalvagePromise as laws;

/// Where the good stores are more than half of a cluster's and as a run left them, whatever became of the others, the history that
/// a salvage prints begins with the run's.
pub fn salvage_begins_with_history()
    ensures { laws.SalvageBeginsWithHistory }
{}
