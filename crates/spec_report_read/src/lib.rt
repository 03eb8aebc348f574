//! How a report is read from its JSON form. Definitions alone.
#![tactic(auto)]
