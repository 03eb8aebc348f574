//! The law of the audit: what is faithful is audited faithful.
#![tactic(auto)]

ghost use Rattle.law_audit.specs.FaithfulAudit as laws;

/// The report of what a run showed is audited `Faithful`, for the run's timeout, where that is faithful to the report's history
/// and the calls that wait are those without an outcome.
pub fn faithful_runs_are_audited_faithful()
    ensures { laws.FaithfulIsAudited }
{}
