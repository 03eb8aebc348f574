//! The rounds of a race: which steps the pump makes over the calls that it takes, and what the callers are told.
#![tactic(auto)]
