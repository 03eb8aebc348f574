//! What a report's text and its JSON form are. Definitions alone.
#![tactic(auto)]
