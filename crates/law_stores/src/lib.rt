//! The laws of what a run leaves in the stores.
#![tactic(auto)]

ghost use Rattle.law_stores.specs.Stores as laws;

/// After every run, and whichever of the entries at stake they hold, a majority of the stores keeps the history, and the newest log
/// of every majority begins with it.
pub fn stores_keep_history()
    ensures kept { laws.StoresKeepHistory }
    ensures left { laws.NewestBeginsHistory }
{}
