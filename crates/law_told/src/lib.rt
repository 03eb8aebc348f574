//! The laws of what a history tells: only the sessions that live then, in a chain of batches; and what a true payload says.
#![tactic(auto)]

ghost use Rattle.law_told.specs.ToldEvents as laws;
ghost use Rattle.law_told.specs.Truth as truths;

/// In a lawful history an act tells only sessions that live then.
pub fn only_live_are_told()
    ensures { laws.OnlyLiveAreTold }
{}

/// The batches of events of a session name each other in order, each once.
pub fn events_chain()
    ensures { laws.EventsChain }
{}

/// What is true when a client is told it stays true as the run goes on.
pub fn payloads_stay_true()
    ensures { truths.PayloadsStayTrue }
{}

/// What a true payload tells of lies within the history.
pub fn truth_is_within()
    ensures { truths.TruthIsWithin }
{}
