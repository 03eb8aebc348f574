//! The laws of agreement (Ongaro 2014, figure 3.2): after every list of steps of a cluster, with packets lost, repeated and in any
//! order, and nodes whose stores fail between any two saves, or within one.
#![tactic(auto)]

ghost use Rattle.law_agreement.specs.Agreement as agreements;

/// Election safety: at most one node leads a term.
pub fn election_safety()
    ensures { agreements.Always agreements.OneLeads }
{}

/// No term is led twice, not even by one node.
pub fn one_election()
    ensures { agreements.Always agreements.LedOnce }
{}

/// Log matching: logs that have one term at a place are equal up to it.
pub fn log_matching()
    ensures { agreements.Always agreements.LogsMatch }
{}

/// Leader completeness: a leader's log holds each place that was committed in an earlier term or by it.
pub fn leader_completeness()
    ensures { agreements.Always agreements.LeadersHold }
{}

/// State machine safety: each node's log up to its commit is the beginning of what is committed.
pub fn state_machine_safety()
    ensures { agreements.Always agreements.LogsBegin }
{}

/// What is committed grows at its end alone.
pub fn committed_grows()
    ensures { agreements.CommittedGrows }
{}

/// Times never fall in a log, nor in what is committed.
pub fn times_never_fall()
    ensures { agreements.Always agreements.TimesRise }
{}

/// A majority of stores keeps what is committed, nodes that are down among them.
pub fn majority_keeps()
    ensures { agreements.Always agreements.MajorityKeeps }
{}

/// A log that is at least as new as each of a majority begins with what is committed.
pub fn newest_begins()
    ensures { agreements.Always agreements.NewestBegins }
{}
