//! The law of the origin of entries: after every list of steps of a cluster, no entry comes from nothing.
#![tactic(auto)]

ghost use Rattle.law_origin.specs.Origin.{EntriesHaveOrigin};

/// Each entry of a log, of what is committed and of a packet is the blank of an election, or has one of the bodies that a step
/// asked a leader of its term to append.
pub fn entries_have_origin()
    ensures { EntriesHaveOrigin }
{}
