//! Definitions of the audit of a report: ten conditions that compute, and the verdict.
#![tactic(auto)]
