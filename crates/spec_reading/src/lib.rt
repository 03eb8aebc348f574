//! How bytes are read as packets and entries, as definitions.
#![tactic(auto)]
