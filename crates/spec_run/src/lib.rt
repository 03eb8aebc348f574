//! Runs, as definitions: the items, the history and the stores that a list of steps leads to, and the steps of a script.
#![tactic(auto)]
